// Reading a slot: whether it holds a good letter, and if not, what is wrong and where.
ghost use Rattle.std.specs.Prelude.{◌≡◌, true, ◌*◌, ◌<◌, ◌≤◌, length, take, drop};
ghost use Rattle.block.specs.Words.{words_of};
ghost use Rattle.refusals.specs.Numbers.{code_of};
ghost use Rattle.header.specs.Head.{lawful_head};
ghost use Rattle.format.specs.Reading.{letter_block_number, shares_of, ends_in_zeros, judged_from, read_as, read_of, reading_of};

use crate::letter::{blocks, end_of};
use block::bounds::all_at_most;
use block::check;
use block::words::take_words;
use header::head::{Head, head_of};
use header::rules::{header_right, mark_right};
use refusals::Refusal;

// What is wrong with a slot, and the place of the block in which it is; 0 where it is in none.
#[derive(Clone, Copy, Debug, PartialEq, Eq)]
pub struct Fault {
    pub refusal: Refusal,
    pub place: usize,
}

impl From<Refusal> for Fault {
    ghost from_gives = { λ refusal fault. fault ≡ record { refusal = refusal; place = 0 } };

    fn from(refusal: Refusal) -> Fault {
        Fault { refusal, place: 0 }
    }
}

// The bytes of the block at a place of a slot.
pub fn block_at(slot: &[u8], place: usize) -> &[u8]
    requires { (length slot.now ≡ 2048) × (place < 4) }
    ensures { (result.now ≡ take 512 (drop (512 * place) slot.now)) × (length result.now ≡ 512) }
{
    let from = 512 * place;
    &slot[from..from + 512]
}

// Whether a block is right at its place in the letter that block 0 begins.
#[tactic(auto, unfolding(crate::specs::Reading::letter_block_number))]
fn judge_block(mark: u16, most: u16, first: Head, place: usize, block: &[u8]) -> Result<(), Refusal>
    requires { (length block.now ≡ 512) × (place < 4) }
    ensures { code_of result ≡ letter_block_number mark most first place (words_of block.now) }
{
    check::judge(block)?;
    if !mark_right(mark, block) {
        return Err(Refusal::Mark);
    }
    if !header_right(most, first, place, block) {
        return Err(Refusal::Header);
    }
    Ok(())
}

// Whether the share words past l, and the bytes past the last block, are zero.
#[tactic(auto, unfolding(crate::specs::Letter::blocks_for))]
fn ends_in_zeros(slot: &[u8], l: usize) -> bool
    requires { (length slot.now ≡ 2048) × (1 ≤ l) × (l ≤ 952) }
    ensures { result ≡ ends_in_zeros slot.now l }
{
    let count = blocks(l);
    let last = count - 1;
    let end = 256 * last + 16 + (l - 238 * last);
    all_at_most(slot, end, 256 * last + 254, 0) && all_at_most(slot, 256 * count, 1024, 0)
}

// What a slot reads as whose block 0 is good and says `first`.
#[tactic(auto, using(header::specs::HeadLaws::lawful_head_facts), unfolding(crate::specs::Letter::blocks_for))]
fn read_on(mark: u16, most: u16, slot: &[u8], first: Head) -> Result<Head, Fault>
    requires { (length slot.now ≡ 2048) × (lawful_head first ≡ true) }
    ensures { reading_of result ≡ judged_from mark most slot.now first 1 }
{
    for place in 1..blocks(first.length) {
        if let Err(refusal) = judge_block(mark, most, first, place, block_at(slot, place)) {
            return Err(Fault { refusal, place });
        }
    }
    if !ends_in_zeros(slot, first.length) {
        return Err(Fault::from(Refusal::Tail));
    }
    Ok(first)
}

// What a slot reads as, by the mark that it should have and the most that its words 14 may be.
pub fn read_as(mark: u16, most: u16, slot: &[u8]) -> Result<Head, Fault>
    ensures { reading_of result ≡ read_as mark most slot.now }
{
    if slot.len() != 2048 {
        return Err(Fault::from(Refusal::Room));
    }
    let block = block_at(slot, 0);
    let first = head_of(block);
    judge_block(mark, most, first, 0, block)?;
    read_on(mark, most, slot, first)
}

// What a slot reads as a letter.
pub fn read(slot: &[u8]) -> Result<Head, Fault>
    ensures { reading_of result ≡ read_of slot.now }
{
    read_as(81, 0, slot)
}

// Fills a row with the share words of a letter of as many.
pub fn take_shares(slot: &[u8], row: &mut [u16])
    requires { (length slot.now ≡ 2048) × (length row.old ≤ 952) }
    ensures { row.new ≡ shares_of slot.now (length row.old) }
{
    let l = row.len();
    for p in 0..blocks(l) {
        let from = 238 * p;
        let to = end_of(from, l);
        take_words(block_at(slot, p), 16, &mut row[from..to]);
    }
}
