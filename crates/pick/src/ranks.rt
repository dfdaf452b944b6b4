// The rank of a letter: its stamp and its length as one number. A greater stamp has a greater rank, and of one stamp a greater length.
ghost use Rattle.std.specs.Prelude.{◌≡◌, ◌*◌, ◌≤◌, length};
ghost use Rattle.header.specs.Head.{head_of};
ghost use Rattle.format.specs.Reading.{block_words};
ghost use Rattle.pick.specs.Ranks.{rank_of, may_have, rank_said, RanksOf};

use header::head::{Head, head_of};
use header::terms::Terms;
use header::told::Told;
use tray::{head_for, slot_of};

fn rank_of(stamp: u32, l: usize) -> u64
    requires { l ≤ 952 }
    ensures { result ≡ rank_of stamp l }
{
    stamp as u64 * 1024 + l as u64
}

// Whether a letter of the order and key, and of keeper x, may have this head.
fn may_have(told: Told, x: usize, h: Head) -> bool
    ensures { result ≡ may_have told x h }
{
    let terms = Terms {
        told,
        stamp: h.stamp,
        length: h.length,
    };
    h.is_lawful() && h == head_for(terms, x)
}

// The rank that the head of a slot says; 0 where no letter of the order and key, and of keeper x, may have it. The rest of the slot
// is not read.
fn rank_in(slot: &[u8], told: Told, x: usize) -> u64
    requires { length slot.now ≡ 2048 }
    ensures { result ≡ rank_said told x (head_of (block_words slot.now 0)) }
{
    let h = head_of(&slot[..512]);
    if may_have(told, x, h) {
        rank_of(h.stamp, h.length)
    } else {
        0
    }
}

// Fills in the rank of each keeper's slot.
pub fn gather(told: Told, tray: &[u8], ranks: &mut [u64])
    requires few { told.order.n ≤ 16 }
    requires slots { length tray.now ≡ 2048 * told.order.n }
    requires of_each { length ranks.old ≡ told.order.n }
    ensures { RanksOf told tray.now ranks.new }
{
    for (k, rank) in ranks.iter_mut().enumerate() {
        *rank = rank_in(slot_of(tray, k + 1), told, k + 1);
    }
}
