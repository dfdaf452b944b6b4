// How large words are. Every word is looked at, whatever those before it were, so that many can be looked at together.
ghost use Rattle.std.specs.Prelude.{◌≡◌, ◌-◌, ◌*◌, ◌≤◌, length, take, drop};
ghost use Rattle.block.specs.Words.{words_of, exchanged_all};
ghost use Rattle.block.specs.Check.{all_at_most};

use crate::words::word_at;

// Whether each word is at most `top`.
pub fn within(words: &[u16], top: u16) -> bool
    ensures { result ≡ all_at_most top words.now }
{
    words.iter().fold(0, |largest, word| (*word).max(largest)) <= top
}

// Whether each word of a row, its bytes exchanged back, is at most `top`.
pub(crate) fn exchanged_within(row: &[u16], top: u16) -> bool
    ensures { result ≡ all_at_most top (exchanged_all row.now) }
{
    row.iter()
        .fold(0, |largest, word| word.swap_bytes().max(largest))
        <= top
}

// Whether each word of some bytes from word `from` up to word `to` is at most `top`.
pub fn all_at_most(bytes: &[u8], from: usize, to: usize, top: u16) -> bool
    requires { (from ≤ to) × (2 * to ≤ length bytes.now) }
    ensures { result ≡ all_at_most top (take (to - from) (drop from (words_of bytes.now))) }
{
    let mut largest: u16 = 0;
    for i in from..to {
        largest = largest.max(word_at(bytes, i));
    }
    largest <= top
}
