// The agreement over all words: the keepers still in step, word by word.
ghost use Rattle.std.specs.Prelude.{◌≡◌, ◌+◌, ◌*◌, ◌<◌, ◌≤◌, IfSome, get_or};
ghost use Rattle.std.specs.Int.Count.{ones};
ghost use Rattle.lists.specs.Count.{count};
ghost use Rattle.lists.specs.From.{from};
ghost use Rattle.lists.specs.Listed.{listed};
ghost use Rattle.algebra.specs.Agreement.{need};
ghost use Rattle.lists.specs.KeeperSet.{member};
ghost use Rattle.field.specs.Modulo.{mod257};
ghost use Rattle.weigh.specs.Weigh.{row_word};
ghost use Rattle.agree.specs.Agreement.{needed};
ghost use Rattle.agree.specs.Kept.{Found};
ghost use Rattle.agree.specs.Rows.{Rows};
ghost use Rattle.search.specs.Search.{Narrows};
ghost use Rattle.search.specs.SetOf.{set_of};

use crate::step::in_step;
use search::Search;
use search::keepers::KeeperSet;

// "With m usable, need is the larger of m-f and t+f+1."
pub fn need_of(m: u32, t: usize, f: usize) -> u32
    requires { (t ≤ 7) × ((f ≤ t) × (m ≤ 16)) }
    ensures { result ≡ need m t f }
{
    let liars = f as u32;
    let least = t as u32 + liars + 1;
    m.saturating_sub(liars).max(least)
}

// Word i of every keeper's row.
// `array::from_fn` was tried: its contract does not say that every call reads the same rows, so the proof did not close.
fn column(rows: &[u16], i: usize) -> [u16; 16]
    requires rows { Rows rows.now }
    requires word_within { i < 952 }
    ensures { result ≡ listed (λ k. get_or rows.now (952 * k + i) 0) 16 }
{
    let mut words = [0u16; 16];
    for k in 0..16 {
        words[k] = rows[952 * k + i];
    }
    words
}

// The keepers of a set that match, at word i, a polynomial that enough of them match, or none where there is no such polynomial.
fn narrowed(t: usize, needed: u32, set: KeeperSet, rows: &[u16], i: usize) -> Option<KeeperSet>
    requires rows { Rows rows.now }
    requires word_within { i < 952 }
    requires t_small { t ≤ 7 }
    requires needed_enough { t + 1 ≤ needed }
    requires needed_there { needed ≤ ones set.bits }
    ensures many { IfSome result (λ found. needed ≤ ones found.bits) }
    ensures narrows { Narrows mod257 t 16 needed (member set.bits) (λ x. row_word rows.now x i) (set_of result) }
{
    let words = column(rows, i);
    let skips = (set.count() - needed) as usize;
    let search = Search {
        words,
        among: set,
        t,
        need: needed,
    };
    search.past(KeeperSet::EMPTY, t + 1, 0, skips)
}

// The keepers that agree: all that match the only polynomials that enough match, or none where there are no such polynomials.
pub fn agreement(t: usize, f: usize, usable: KeeperSet, rows: &[u16], l: usize) -> Option<KeeperSet>
    requires rows { Rows rows.now }
    requires t_small { t ≤ 7 }
    requires f_small { f ≤ t }
    requires length_small { l ≤ 952 }
    requires enough { t + f + 1 ≤ count (member usable.bits) (from 1 16) }
    ensures many { IfSome result (λ set. needed t f 16 (member usable.bits) ≤ ones set.bits) }
    ensures found { Found mod257 t f 16 (member usable.bits) (row_word rows.now) l (set_of result) }
{
    let needed = need_of(usable.count(), t, f);
    let mut set = usable;
    let mut start = 0;
    'words: while start < l {
        let i = in_step(t, set, rows, start, l);
        if i == l {
            return Some(set);
        }
        set = narrowed(t, needed, set, rows, i)?;
        start = i + 1;
    }
    Some(set)
}
