// Judging a weighing: what is told and lent, then the sub-letters.
ghost use Rattle.std.specs.Prelude.{◌≡◌, ◌&&◌, ℕ, suc, ◌<◌, length};
ghost use Rattle.refusals.specs.Numbers.{code_of};
ghost use Rattle.header.specs.Order.{lawful_keeper};
ghost use Rattle.moving.specs.Lent.{MoveTerms};
ghost use Rattle.sub_letters.specs.Keepers.{all_keepers};
ghost use Rattle.sub_letters.specs.Lent.{SubsLent};
ghost use Rattle.sub_letters.specs.Subs.{froms_of};
ghost use Rattle.sub_letters.specs.Judging.{weigh_lent, weigh_refusal, fault_at, other_at, subs_answer, weighing_of, FoundBy, FirstBy};

use crate::keepers::all_keepers;
use crate::subs::froms_right;
use format::reader::{block_at, read_as};
use header::head::head_of;
use moving::terms::Move;
use refusals::Refusal;
use tray::{head_for, slot_of};

// What refuses a weighing: why, which sub-letter it is of, and the place of a fault there.
#[derive(Clone, Copy, Debug, PartialEq, Eq)]
pub struct SubFault {
    pub refusal: Refusal,
    pub letter: usize,
    pub place: usize,
}

// What refuses it and is of no sub-letter.
impl From<Refusal> for SubFault {
    ghost from_gives = { λ refusal fault. fault ≡ record { refusal = refusal; letter = 0; place = 0 } };

    fn from(refusal: Refusal) -> SubFault {
        SubFault {
            refusal,
            letter: 0,
            place: 0,
        }
    }
}

// Whether all keepers told of are in their orders.
fn keepers_right(m: Move, keepers: &[u32], keeper: usize) -> bool
    ensures { result ≡ (all_keepers m.old keepers.now && lawful_keeper m.told.order keeper) }
{
    all_keepers(m.old, keepers) && m.told.order.has_keeper(keeper)
}

fn is_lent(m: Move, keepers: usize, letters: usize, slot: usize) -> bool
    requires { MoveTerms m }
    ensures { result ≡ weigh_lent m keepers letters slot }
{
    let many = m.old.t + 1;
    keepers == many && (letters == 2048 * many && slot == 2048)
}

// The first refusal of what is told and lent.
pub fn judge_told(
    m: Move,
    keepers: &[u32],
    keeper: usize,
    letters: &[u8],
    slot: &[u8],
) -> Result<(), Refusal>
    ensures { code_of result ≡ weigh_refusal m keepers.now keeper letters.now slot.now }
{
    m.judge(keepers_right(m, keepers, keeper))?;
    if is_lent(m, keepers.len(), letters.len(), slot.len()) {
        Ok(())
    } else {
        Err(Refusal::Room)
    }
}

// Whether sub-letter k is good.
fn judge_good(letters: &[u8], k: usize) -> Result<(), SubFault>
    requires { SubsLent letters.now (suc k) }
    ensures { FoundBy (fault_at letters.now k) result }
{
    match read_as(82, 256, slot_of(letters, k + 1)) {
        Ok(_) => Ok(()),
        Err(fault) => Err(SubFault {
            refusal: fault.refusal,
            letter: k,
            place: fault.place,
        }),
    }
}

// Whether sub-letter k is of what was told.
fn judge_ours(m: Move, keeper: usize, letters: &[u8], k: usize) -> Result<(), SubFault>
    requires { SubsLent letters.now (suc k) }
    ensures { FoundBy (other_at m keeper letters.now k) result }
{
    let said = head_of(block_at(slot_of(letters, k + 1), 0));
    if said == head_for(m.terms(), keeper) {
        return Ok(());
    }
    Err(SubFault {
        refusal: Refusal::NotOurs,
        letter: k,
        place: 0,
    })
}

// The first refusal by a rule, sub-letter by sub-letter.
fn judge_each<F: Fn(usize) -> Result<(), SubFault>>(count: usize, rule: F) -> Result<(), SubFault>
    requires { (k : ℕ) → k < count → F.pre rule k }
    ensures { FirstBy (F.post rule) count result }
{
    for k in 0..count {
        rule(k)?;
    }
    Ok(())
}

// The first refusal of the sub-letters. The froms are the old keepers that they name.
pub fn judge(
    m: Move,
    keepers: &[u16],
    froms: &[u16],
    keeper: usize,
    letters: &[u8],
) -> Result<(), SubFault>
    requires terms { MoveTerms m }
    requires named { froms.now ≡ froms_of letters.now (length keepers.now) }
    requires lent { SubsLent letters.now (length keepers.now) }
    ensures { weighing_of result ≡ subs_answer m keepers.now keeper letters.now }
{
    let count = keepers.len();
    judge_each(count, |k| judge_good(letters, k))?;
    judge_each(count, |k| judge_ours(m, keeper, letters, k))?;
    if froms_right(keepers, froms, letters, m.length) {
        Ok(())
    } else {
        Err(SubFault::from(Refusal::OldKeepers))
    }
}
