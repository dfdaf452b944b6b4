// Sub-letters lent end to end: the old keepers that they name.
ghost use Rattle.std.specs.Prelude.{◌≡◌, suc, ◌≤◌, eqb, length, take};
ghost use Rattle.lists.specs.AllTo.{all_to};
ghost use Rattle.format.specs.Letter.{blocks_for};
ghost use Rattle.sub_letters.specs.Lent.{SubsLent};
ghost use Rattle.sub_letters.specs.Subs.{from_at, froms_of, steady, named_right};

use crate::keepers::{are_among, are_different};
use block::words::word_at;
use format::letter::blocks;
use format::reader::block_at;
use tray::slot_of;

// Word 14 of block p of sub-letter k.
fn from_at(letters: &[u8], k: usize, p: usize) -> u16
    requires { SubsLent letters.now (suc k) × (suc p ≤ 4) }
    ensures { result ≡ from_at letters.now k p }
{
    word_at(block_at(slot_of(letters, k + 1), p), 14)
}

// The old keepers that so many sub-letters name, in front of eight.
pub fn froms_of(letters: &[u8], count: usize) -> [u16; 8]
    requires { SubsLent letters.now count }
    ensures { take count result ≡ froms_of letters.now count }
{
    let mut froms = [0; 8];
    for k in 0..count {
        froms[k] = from_at(letters, k, 0);
    }
    froms
}

// Whether a sub-letter of so many blocks names one old keeper in all of them.
fn names_one(letters: &[u8], k: usize, count: usize) -> bool
    requires { SubsLent letters.now (suc k) × (count ≤ 4) }
    ensures { result ≡ all_to (λ p. eqb (from_at letters.now k p) (from_at letters.now k 0)) count }
{
    let first = from_at(letters, k, 0);
    (0..count).all(|p| from_at(letters, k, p) == first)
}

// Whether each of the sub-letters does.
fn are_steady(letters: &[u8], count: usize, l: usize) -> bool
    requires { SubsLent letters.now count × (l ≤ 952) }
    ensures { result ≡ steady letters.now count l }
{
    let many = blocks(l);
    (0..count).all(|k| names_one(letters, k, many))
}

// Whether the sub-letters are those of the keepers told, one of each. The froms are the old keepers that they name.
#[tactic(auto, using(header::specs::Chain::chain))]
pub fn froms_right(keepers: &[u16], froms: &[u16], letters: &[u8], l: usize) -> bool
    requires { SubsLent letters.now (length keepers.now) × (l ≤ 952) }
    ensures { result ≡ named_right keepers.now froms.now letters.now l }
{
    are_different(keepers)
        && (are_different(froms)
            && (are_among(keepers, froms)
                && (are_among(froms, keepers) && are_steady(letters, keepers.len(), l))))
}
