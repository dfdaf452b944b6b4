// The pick: which stamp and length of a tray to join.
#![tactic(auto)]

ghost use Rattle.std.specs.Prelude.{◌≡◌, ◌<◌, length};
ghost use Rattle.refusals.specs.Numbers.{code, code_of};
ghost use Rattle.field.specs.Modulo.{mod257};
ghost use Rattle.agree.specs.Rows.{Rows};
ghost use Rattle.pick.specs.Ranks.{stamp_in, length_in, Joinable, is_first, RanksOf, answer_of};
ghost use Rattle.pick.specs.Pick.{pick_refusal, picked_of, JoinGives, PickDone};

use crate::groups::next_of;
use crate::ranks::gather;
use header::terms::Terms;
use header::told::Told;
use join::join_over;
use refusals::Refusal;

mod groups;
mod ranks;

// What a pick chose: whether it joins, and the stamp and the length of the group that it tells of.
#[derive(Clone, Copy, Debug, PartialEq, Eq)]
pub struct Picked {
    pub outcome: Result<(), Refusal>,
    pub stamp: u32,
    pub length: usize,
}

fn judge(told: Told, tray: &[u8]) -> Result<(), Refusal>
    ensures { code_of result ≡ pick_refusal told tray.now }
{
    if !told.is_lawful() {
        return Err(Refusal::NotLawful);
    }
    if tray.len() == 2048 * told.order.n {
        Ok(())
    } else {
        Err(Refusal::Room)
    }
}

// An outcome, with the stamp and the length of a rank.
fn answer(outcome: Result<(), Refusal>, rank: u64) -> Picked
    requires { rank < 4398046511104 }
    ensures { picked_of result ≡ answer_of (code_of outcome) rank }
{
    Picked {
        outcome,
        stamp: (rank / 1024) as u32,
        length: (rank % 1024) as usize,
    }
}

// Whether the group of a rank joins, with rows to work in.
fn joined(told: Told, tray: &[u8], rank: u64, rows: &mut [u16]) -> Result<(), Refusal>
    requires joinable { Joinable told tray.now rank }
    requires rows { Rows rows.old }
    ensures { JoinGives mod257 told tray.now (stamp_in rank) (length_in rank) (code_of result) × Rows rows.new }
{
    let length = (rank % 1024) as usize;
    let terms = Terms {
        told,
        stamp: (rank / 1024) as u32,
        length,
    };
    let mut room = [0u8; 952];
    join_over(terms, tray, rows, &mut room[..length]).outcome
}

// Whether a group that was tried is the first large one, by the refusal so far: too few, as long as there was none.
fn is_first(refusal: Refusal, tried: Refusal) -> bool
    ensures { result ≡ is_first (code refusal) (code tried) }
{
    refusal == Refusal::TooFew && tried != Refusal::TooFew
}

// Goes down the groups that the ranks tell of, to the first that joins. Where none does, the answer is of the first that is large: the join of one that
// is not says 6.
fn go_down(told: Told, tray: &[u8], ranks: &[u64], rows: &mut [u16]) -> Picked
    requires not_refused { pick_refusal told tray.now ≡ 0 }
    requires ranks { RanksOf told tray.now ranks.now }
    requires of_each { length ranks.now ≡ told.order.n }
    requires rows { Rows rows.old }
    ensures { PickDone mod257 told tray.now (picked_of result) }
{
    let least = told.order.t + told.order.f + 1;
    let mut refusal = Refusal::TooFew;
    let mut top = 0;
    // above every rank: a stamp has 32 bits, a length has 10
    let mut bound = 4398046511104;
    while let Some(rank) = next_of(ranks, least, bound) {
        match joined(told, tray, rank, rows) {
            Ok(()) => return answer(Ok(()), rank),
            Err(tried) => {
                if is_first(refusal, tried) {
                    refusal = tried;
                    top = rank;
                }
            }
        }
        bound = rank;
    }
    answer(Err(refusal), top)
}

pub fn pick(told: Told, tray: &[u8]) -> Picked
    ensures { PickDone mod257 told tray.now (picked_of result) }
{
    if let Err(refusal) = judge(told, tray) {
        return answer(Err(refusal), 0);
    }
    let mut ranks = [0u64; 16];
    let ranks = &mut ranks[..told.order.n];
    gather(told, tray, ranks);
    let mut rows = [0u16; 15232];
    go_down(told, tray, ranks, &mut rows)
}
