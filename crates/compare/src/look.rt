// Looking for the parts of two trays in which they differ, and counting their words that do.
ghost use Rattle.std.specs.Prelude.{◌≡◌, ◌+◌, ◌*◌, ◌<◌, ◌≤◌, length};
ghost use Rattle.lists.specs.Below.{Below};
ghost use Rattle.lists.specs.Count.{bit};
ghost use Rattle.compare.specs.Parts.{part_differs, in_part, in_parts, HaveParts, Looked};

use block::bytes;
use block::words::same_word;

// The trays stay two slices: as fields of a struct, each clause would name their bytes by a longer path than the `requires` that it saves.
// 1 where part p has other bytes, else 0. Most parts are the same, so a part is compared at once, and only one that differs word by word.
fn part_differs(first: &[u8], second: &[u8], p: usize) -> usize
    requires { HaveParts first.now second.now (p + 1) }
    ensures { result ≡ bit (part_differs first.now second.now p) }
{
    let at = 16 * p;
    usize::from(!bytes::same(&first[at..at + 16], &second[at..at + 16]))
}

// How many words of part p differ. The count is as wide as a word, so that the eight words can be counted together.
fn words_in(first: &[u8], second: &[u8], p: usize) -> usize
    requires { HaveParts first.now second.now (p + 1) }
    ensures { result ≡ length (in_part first.now second.now p) }
{
    let mut count: u16 = 0;
    for j in 0..8 {
        if !same_word(first, second, 8 * p + j) {
            count += 1;
        }
    }
    usize::from(count)
}

// How many words of some parts differ.
pub fn count(first: &[u8], second: &[u8], m: usize, parts: &[u16]) -> usize
    requires have_parts { HaveParts first.now second.now m }
    requires parts_below { Below m parts.now }
    requires few { length parts.now ≤ 2048 }
    ensures { result ≡ length (in_parts first.now second.now parts.now) }
{
    let mut words = 0;
    for part in parts {
        words += words_in(first, second, usize::from(*part));
    }
    words
}

// Lists the parts of the first m that differ, and says how many there are. Every part is written down, and where it does not differ the next is written over
// it: so the processor has no branch to guess.
pub fn look(first: &[u8], second: &[u8], m: usize, parts: &mut [u16]) -> usize
    requires have_parts { HaveParts first.now second.now m }
    requires room { m ≤ length parts.old }
    ensures { Looked first.now second.now m parts.old parts.new result }
{
    let mut found = 0;
    for p in 0..m {
        parts[found] = p as u16;
        found += part_differs(first, second, p);
    }
    found
}
