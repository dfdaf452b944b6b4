// Writing a letter: its blocks laid end to end, and zeros.
ghost use Rattle.std.specs.Prelude.{◌≡◌, true, ◌++◌, ◌+◌, ◌-◌, ◌<◌, ◌≤◌, min, length, replicate};
ghost use Rattle.block.specs.Words.{bytes_of};
ghost use Rattle.block.specs.Check.{sealed};
ghost use Rattle.header.specs.Head.{lawful_head, head_words};
ghost use Rattle.format.specs.Letter.{blocks_for, slot_bytes, letter_bytes};

use block::check::seal;
use block::words::put_words;
use header::head;
use header::head::Head;

// How many blocks hold l share words.
#[tactic(auto, unfolding(crate::specs::Letter::blocks_for))]
pub fn blocks(l: usize) -> usize
    requires { l ≤ 952 }
    ensures { result ≡ blocks_for l }
{
    l.div_ceil(238)
}

// Where the share words of a block end whose first is word `from` of l.
pub fn end_of(from: usize, l: usize) -> usize
    requires { from ≤ 952 }
    ensures { result ≡ min (from + 238) l }
{
    (from + 238).min(l)
}

// Writes block p, of its own share words.
fn write_block(mark: u16, from: u16, h: Head, p: usize, shares: &[u16], block: &mut [u8])
    requires { (lawful_head h ≡ true) × (p < 4) × (length shares.now ≤ 238) × (length block.old ≡ 512) }
    ensures { block.new ≡ bytes_of (sealed (head_words mark from h p ++ (shares.now ++ replicate (238 - length shares.now) 0))) }
{
    let header = head::words(mark, from, h, p);
    let zeros = [0u16; 238];
    let count = shares.len();
    put_words(block, 0, &header);
    put_words(block, 16, shares);
    put_words(block, 16 + count, &zeros[count..]);
    seal(block);
}

// Writes a slot, with a mark in word 0 of each block and a number in word 14.
#[tactic(auto, using(header::specs::HeadLaws::lawful_head_facts), unfolding(crate::specs::Letter::blocks_for))]
pub fn write_as(mark: u16, from: u16, h: Head, shares: &[u16], slot: &mut [u8])
    requires { (lawful_head h ≡ true) × (length shares.now ≡ h.length) × (length slot.old ≡ 2048) }
    ensures { slot.new ≡ slot_bytes mark from h shares.now }
{
    slot.fill(0);
    let l = shares.len();
    for p in 0..blocks(l) {
        let start = 238 * p;
        let to = end_of(start, l);
        let at = 512 * p;
        write_block(
            mark,
            from,
            h,
            p,
            &shares[start..to],
            &mut slot[at..at + 512],
        );
    }
}

// Writes a letter.
pub fn write(h: Head, shares: &[u16], slot: &mut [u8])
    requires { (lawful_head h ≡ true) × (length shares.now ≡ h.length) × (length slot.old ≡ 2048) }
    ensures { slot.new ≡ letter_bytes h shares.now }
{
    write_as(81, 0, h, shares, slot);
}
