// What a block is held to in its header words: numbers 11 and 12.
ghost use Rattle.std.specs.Prelude.{◌≡◌, ◌<◌, length};
ghost use Rattle.block.specs.Words.{words_of};
ghost use Rattle.header.specs.Rules.{mark_right, place_right, header_right};

use crate::head::{Head, head_of};
use block::bounds::all_at_most;
use block::words::word_at;

// Whether words 0 and 1 are a mark and the edition.
#[tactic(auto, unfolding(crate::specs::Rules::mark_right))]
pub fn mark_right(mark: u16, block: &[u8]) -> bool
    requires { length block.now ≡ 512 }
    ensures { result ≡ mark_right mark (words_of block.now) }
{
    word_at(block, 0) == mark && word_at(block, 1) == 1
}

// Whether words 12, 14 and 15 are the place, a number of at most `most`, and 0.
#[tactic(auto, unfolding(crate::specs::Rules::place_right))]
fn place_right(most: u16, block: &[u8], place: usize) -> bool
    requires { (length block.now ≡ 512) × (place < 4) }
    ensures { result ≡ place_right most place (words_of block.now) }
{
    usize::from(word_at(block, 12)) == place
        && word_at(block, 14) <= most
        && word_at(block, 15) == 0
}

// Whether the header words of a block are right at its place, and agree with those of block 0.
#[tactic(auto, unfolding(crate::specs::Rules::header_right, crate::specs::Head::same_head, crate::specs::Told::same_told, crate::specs::Order::same_order))]
pub fn header_right(most: u16, first: Head, place: usize, block: &[u8]) -> bool
    requires { (length block.now ≡ 512) × (place < 4) }
    ensures { result ≡ header_right most first place (words_of block.now) }
{
    let here = head_of(block);
    here.is_lawful()
        && all_at_most(block, 6, 12, 255)
        && place_right(most, block, place)
        && here == first
}
