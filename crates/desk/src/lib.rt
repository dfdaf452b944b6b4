// The keeper's desk: one held slot, lent.
#![tactic(auto, using(header::specs::Chain::chain))]

ghost use Rattle.std.specs.Prelude.{◌≡◌, ◌&&◌, IfOk, IfSome, ◌≤◌, eqb, length};
ghost use Rattle.lists.specs.SameBytes.{same_bytes};
ghost use Rattle.refusals.specs.Numbers.{code_of};
ghost use Rattle.format.specs.Reading.{read_of, place_of};
ghost use Rattle.desk.specs.Desk.{of_desk, stamp_held, desk_right, against, offered, store_number, store_place, stored_of, stamp_or_none, StoreDone, fetch_number, fetched};

use format::reader::{Fault, read};
use header::head::Head;
use header::told::Told;
use refusals::Refusal;

// Whether there is such a desk.
fn right(told: Told, keeper: usize) -> bool
    ensures { result ≡ desk_right told keeper }
{
    told.is_lawful() && told.order.has_keeper(keeper)
}

// Whether a head is of this desk's order, key and keeper.
#[tactic(auto, using(header::specs::Chain::chain), unfolding(header::specs::Order::same_order, header::specs::Told::same_told))]
fn is_ours(told: Told, keeper: usize, h: Head) -> bool
    ensures { result ≡ of_desk told keeper h }
{
    h.told == told && h.keeper == keeper
}

// The stamp of a slot's letter where it is good for this desk.
#[tactic(auto, using(crate::specs::GoodHere::stamp_read), unfolding(crate::specs::Desk::stamp_held))]
pub fn stamp_held(told: Told, keeper: usize, slot: &[u8]) -> Option<u32>
    ensures stamp { stamp_or_none result ≡ stamp_held told keeper slot.now }
    ensures least { IfSome result (λ stamp. 1 ≤ stamp) }
{
    match read(slot) {
        Ok(head) if is_ours(told, keeper, head) => Some(head.stamp),
        _ => None,
    }
}

// A good letter of this desk with its stamp, against what is held.
#[tactic(auto, using(crate::proofs::SameLaws::slices_same))]
fn judge_stamp(
    told: Told,
    keeper: usize,
    stamp: u32,
    held: &[u8],
    letter: &[u8],
) -> Result<(), Refusal>
    ensures { code_of result ≡ against stamp (stamp_held told keeper held.now) (same_bytes held.now letter.now) }
{
    let before = stamp_held(told, keeper, held).unwrap_or(0);
    if before < stamp {
        return Ok(());
    }
    if stamp < before {
        return Err(Refusal::Older);
    }
    if held == letter {
        Ok(())
    } else {
        Err(Refusal::OtherBytes)
    }
}

// A letter where there is such a desk and both are slots.
fn judge_letter(told: Told, keeper: usize, held: &[u8], letter: &[u8]) -> Result<(), Fault>
    ensures { stored_of result ≡ record { number = offered told keeper held.now letter.now (read_of letter.now); place = place_of (read_of letter.now) } }
{
    let head = read(letter)?;
    if !is_ours(told, keeper, head) {
        return Err(Fault::from(Refusal::NotOurs));
    }
    judge_stamp(told, keeper, head.stamp, held, letter)?;
    Ok(())
}

// Whether both are slots by their lengths.
fn are_slots(held: &[u8], letter: &[u8]) -> bool
    ensures { result ≡ (eqb (length held.now) 2048 && eqb (length letter.now) 2048) }
{
    held.len() == 2048 && letter.len() == 2048
}

#[tactic(auto, unfolding(crate::specs::Desk::store_number, crate::specs::Desk::store_place))]
fn judge(told: Told, keeper: usize, held: &[u8], letter: &[u8]) -> Result<(), Fault>
    ensures { stored_of result ≡ record { number = store_number told keeper held.now letter.now; place = store_place told keeper held.now letter.now } }
{
    if !right(told, keeper) {
        return Err(Fault::from(Refusal::NotLawful));
    }
    if !are_slots(held, letter) {
        return Err(Fault::from(Refusal::Room));
    }
    judge_letter(told, keeper, held, letter)
}

// Lays a letter over what is held. By `copy_from_slice` the library for C would ask whoever links it for memmove too.
fn lay(held: &mut [u8], letter: &[u8])
    requires { length held.old ≡ length letter.now }
    ensures { held.new ≡ letter.now }
{
    for (i, byte) in letter.iter().enumerate() {
        held[i] = *byte;
    }
}

// Judges a letter, and holds it where it is newer than what is held.
#[tactic(auto, using(crate::specs::StoreLaws::taken_size), unfolding(crate::specs::Desk::store_leaves))]
pub fn store(told: Told, keeper: usize, held: &mut [u8], letter: &[u8]) -> Result<(), Fault>
    ensures { StoreDone told keeper held.old letter.now (stored_of result) held.new }
{
    judge(told, keeper, held, letter)?;
    lay(held, letter);
    Ok(())
}

// The held slot as a part of what was lent, or why there is none to hand back.
#[tactic(auto, unfolding(crate::specs::Desk::fetch_number, crate::specs::Desk::fetched))]
pub fn fetch_or_why(told: Told, keeper: usize, held: &[u8]) -> Result<&[u8], Refusal>
    ensures number { code_of result ≡ fetch_number told keeper held.now }
    ensures part { IfOk result (λ part. part.now ≡ fetched told keeper held.now) }
{
    if !right(told, keeper) {
        return Err(Refusal::NotLawful);
    }
    if held.len() != 2048 {
        return Err(Refusal::Room);
    }
    if stamp_held(told, keeper, held).is_none() {
        return Err(Refusal::NothingHeld);
    }
    Ok(held)
}

// The held slot as a part of what was lent; an empty part where fetching is refused.
#[tactic(auto, using(refusals::specs::Numbers::code_some), unfolding(crate::specs::Desk::fetched))]
pub fn fetch(told: Told, keeper: usize, held: &[u8]) -> &[u8]
    ensures { result.now ≡ fetched told keeper held.now }
{
    match fetch_or_why(told, keeper, held) {
        Ok(part) => part,
        Err(_) => &held[..0],
    }
}
