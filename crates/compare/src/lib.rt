// What changed between two trays of one order: the places where they differ, with both words. No letter is read.
#![tactic(auto)]

ghost use Rattle.std.specs.Prelude.{◌≡◌, ◌&&◌, eqb, ◌*◌, ◌≤◌, length};
ghost use Rattle.lists.specs.Below.{Below};
ghost use Rattle.refusals.specs.Numbers.{code_of};
ghost use Rattle.compare.specs.declared.Unlisted.TheVariants.{Refused};
ghost use Rattle.compare.specs.Compare.{compare_refusal, compared_of, CompareDone};
ghost use Rattle.compare.specs.Parts.{in_parts, Beyond, HaveParts};

use crate::look::{count, look};
use crate::put::put;
use header::order::Order;
use refusals::Refusal;

mod look;
mod put;

// Why nothing is listed: a refusal of what is told and lent, or that so many words differ, more than there are places.
#[derive(Clone, Copy, Debug, PartialEq, Eq)]
pub enum Unlisted {
    Refused(Refusal),
    TooMany(usize),
}

impl From<Refusal> for Unlisted {
    ghost from_gives = { λ refusal unlisted. unlisted ≡ Refused refusal };

    fn from(refusal: Refusal) -> Unlisted {
        Unlisted::Refused(refusal)
    }
}

// Whether both trays have n slots.
#[tactic(auto, using(header::specs::Chain::chain))]
fn are_trays(first: &[u8], second: &[u8], n: usize) -> bool
    requires { n ≤ 16 }
    ensures { result ≡ eqb (length first.now) (2048 * n) && eqb (length second.now) (2048 * n) }
{
    first.len() == 2048 * n && second.len() == 2048 * n
}

#[tactic(auto, unfolding(crate::specs::Compare::compare_refusal))]
fn judge(o: Order, first: &[u8], second: &[u8]) -> Result<(), Refusal>
    ensures { code_of result ≡ compare_refusal o first.now second.now }
{
    if !o.is_lawful() {
        return Err(Refusal::NotLawful);
    }
    if are_trays(first, second, o.n) {
        Ok(())
    } else {
        Err(Refusal::Room)
    }
}

// How many words differ where the list has too few places for them. A list that has a place for every word of the parts found has enough, and nothing is
// counted.
fn too_many(first: &[u8], second: &[u8], m: usize, parts: &[u16], places: usize) -> Option<usize>
    requires have_parts { HaveParts first.now second.now m }
    requires parts_below { Below m parts.now }
    requires few { length parts.now ≤ 2048 }
    ensures { Beyond places (length (in_parts first.now second.now parts.now)) result }
{
    if 8 * parts.len() <= places {
        return None;
    }
    let words = count(first, second, m, parts);
    if places < words { Some(words) } else { None }
}

// Lists the words that differ, and says how many there are.
pub fn compare(
    o: Order,
    first: &[u8],
    second: &[u8],
    list: &mut [[u16; 5]],
) -> Result<usize, Unlisted>
    ensures { CompareDone o first.now second.now list.old (compared_of result) list.new }
{
    judge(o, first, second)?;
    let m = 128 * o.n;
    let mut parts = [0u16; 2048];
    let found = look(first, second, m, &mut parts);
    if let Some(words) = too_many(first, second, m, &parts[..found], list.len()) {
        return Err(Unlisted::TooMany(words));
    }
    Ok(put(first, second, m, &parts[..found], list))
}
