// Writing the places of the parts that differ.
ghost use Rattle.std.specs.Prelude.{◌≡◌, ◌+◌, ◌*◌, ◌<◌, ◌≤◌, length};
ghost use Rattle.lists.specs.Below.{Below};
ghost use Rattle.compare.specs.Compare.{difference};
ghost use Rattle.compare.specs.Parts.{in_part, in_parts, HaveParts, Laid};

use block::words::{same_word, word_at};

// The place of word i: its slot, its block and its word, and the two words there.
// A row and not a struct: the C interface lends the list as rows of five numbers (cs_difference).
fn place(first: &[u8], second: &[u8], i: usize) -> [u16; 5]
    requires { (i < 16384) × (2 * i + 1 < length first.now) × (2 * i + 1 < length second.now) }
    ensures { result ≡ difference first.now second.now i }
{
    let slot = (i / 1024 + 1) as u16;
    let block = (i / 256 % 4) as u16;
    let word = (i % 256) as u16;
    let before = word_at(first, i);
    let after = word_at(second, i);
    [slot, block, word, before, after]
}

// Writes the places of part p where the trays differ, from place `at` of the list on, and says where the next goes.
fn put_part(first: &[u8], second: &[u8], p: usize, list: &mut [[u16; 5]], at: usize) -> usize
    requires have_parts { HaveParts first.now second.now (p + 1) }
    requires room { at + length (in_part first.now second.now p) ≤ length list.old }
    ensures { Laid (difference first.now second.now) list.old at (in_part first.now second.now p) list.new result }
{
    let mut next = at;
    for j in 0..8 {
        let i = 8 * p + j;
        if same_word(first, second, i) {
            continue;
        }
        list[next] = place(first, second, i);
        next += 1;
    }
    next
}

// Writes the places of some parts where the trays differ, from the front of the list on, and says how many there are.
pub fn put(first: &[u8], second: &[u8], m: usize, parts: &[u16], list: &mut [[u16; 5]]) -> usize
    requires have_parts { HaveParts first.now second.now m }
    requires parts_below { Below m parts.now }
    requires room { length (in_parts first.now second.now parts.now) ≤ length list.old }
    ensures { Laid (difference first.now second.now) list.old 0 (in_parts first.now second.now parts.now) list.new result }
{
    let mut next = 0;
    for part in parts {
        next = put_part(first, second, usize::from(*part), list, next);
    }
    next
}
