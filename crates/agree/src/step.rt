// Whole rows, compared with the rows carried from the first keepers of a set: how far the set keeps step.
ghost use Rattle.std.specs.Prelude.{◌≡◌, ◌+◌, ◌<◌, ◌≤◌, length, get_or};
ghost use Rattle.std.specs.Int.Count.{ones};
ghost use Rattle.lists.specs.KeeperSet.{member};
ghost use Rattle.field.specs.Modulo.{mod257};
ghost use Rattle.weigh.specs.Weigh.{carried, row_word, Carriage};
ghost use Rattle.agree.specs.Kept.{Alike, InStep};
ghost use Rattle.agree.specs.Rows.{Rows};

use search::keepers::KeeperSet;
use weigh::carry_row;

// The first place from `start` on at which two rows of one length differ, or their length. Most rows that are compared are the same.
fn difference(a: &[u16], b: &[u16], start: usize) -> usize
    requires same_size { length a.now ≡ length b.now }
    requires start_within { start ≤ length a.now }
    ensures { Alike (λ j. get_or a.now j 0) (λ j. get_or b.now j 0) start (length a.now) result }
{
    if a == b {
        return a.len();
    }
    for i in start..a.len() {
        if a[i] != b[i] {
            return i;
        }
    }
    a.len()
}

// How far, from `start` on, the row of keeper k + 1 is the one carried to it from the points, which is left in `row`.
fn row_in_step(points: &[u16], rows: &[u16], k: usize, start: usize, row: &mut [u16]) -> usize
    requires carriage { Carriage points.now rows.now row.old }
    requires keeper { k < 16 }
    requires start_within { start ≤ length row.old }
    ensures { Alike (λ j. carried mod257 points.now (λ a. row_word rows.now a j) (k + 1)) (row_word rows.now (k + 1)) start (length row.old) result }
{
    carry_row(points, rows, k as u16 + 1, row);
    let at = 952 * k;
    let end = at + row.len();
    difference(row, &rows[at..end], start)
}

// A word from `start` on, up to which the keepers of the set are in step: at each word before it they lie on one polynomial.
pub fn in_step(t: usize, set: KeeperSet, rows: &[u16], start: usize, l: usize) -> usize
    requires t_small { t ≤ 7 }
    requires enough { t + 1 ≤ ones set.bits }
    requires rows { Rows rows.now }
    requires bounds { (start ≤ l) × (l ≤ 952) }
    ensures { InStep mod257 t 16 (member set.bits) (row_word rows.now) start l result }
{
    let base = set.first(t);
    let mut row = [0u16; 952];
    let mut end = l;
    for k in usize::from(base[t])..16 {
        if set.has(k) {
            end = row_in_step(&base[..t + 1], rows, k, start, &mut row[..end]);
        }
    }
    end
}
