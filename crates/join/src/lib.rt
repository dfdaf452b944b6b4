// The join: the secret, or why not.
#![tactic(auto)]

ghost use Rattle.std.specs.Prelude.{◌≡◌, ◌+◌, ◌≤◌, length};
ghost use Rattle.lists.specs.Count.{count};
ghost use Rattle.lists.specs.From.{from};
ghost use Rattle.lists.specs.KeeperSet.{member};
ghost use Rattle.refusals.specs.Numbers.{code};
ghost use Rattle.field.specs.Modulo.{mod257};
ghost use Rattle.weigh.specs.Weigh.{row_word};
ghost use Rattle.agree.specs.Agreement.{needed};
ghost use Rattle.agree.specs.Rows.{Rows};
ghost use Rattle.join.specs.Join.{answer, joined_of, join_refusal, Outcome, JoinDone};
ghost use Rattle.join.specs.Judged.{AgreedOrNone};

use crate::refusal::judge_lent;
use crate::secret::reveal;
use agree::agreement::{agreement, need_of};
use header::terms::Terms;
use refusals::Refusal;
use search::keepers::KeeperSet;
use tray::scan;
use trials::{all_sets, trials_within};

mod bytes;
mod refusal;
mod secret;

// What a join found: whether it gave the secret, "m, need, and the keepers that match as a 16-bit set", and "a count of trials".
#[derive(Clone, Copy, Debug, PartialEq, Eq)]
pub struct Joined {
    pub outcome: Result<(), Refusal>,
    pub usable: u32,
    pub need: u32,
    pub set: KeeperSet,
    pub trials: u32,
}

// What is found where no letter is read.
fn refused(refusal: Refusal) -> Joined
    ensures { joined_of result ≡ answer (code refusal) 0 0 0 0 }
{
    Joined {
        outcome: Err(refusal),
        usable: 0,
        need: 0,
        set: KeeperSet::EMPTY,
        trials: 0,
    }
}

// The keepers that agree, where they are as many as need asks.
fn agreed(
    t: usize,
    f: usize,
    usable: KeeperSet,
    rows: &[u16],
    l: usize,
    need: u32,
) -> Option<KeeperSet>
    requires rows { Rows rows.now }
    requires t_small { t ≤ 7 }
    requires f_small { f ≤ t }
    requires length_small { l ≤ 952 }
    requires enough { t + f + 1 ≤ count (member usable.bits) (from 1 16) }
    requires need_is { need ≡ needed t f 16 (member usable.bits) }
    ensures { AgreedOrNone mod257 t f 16 (member usable.bits) (row_word rows.now) l result }
{
    let set = agreement(t, f, usable, rows, l)?;
    if set.count() < need { None } else { Some(set) }
}

// The outcome of the usable letters, whose words stand in the rows.
fn judge(t: usize, f: usize, usable: KeeperSet, rows: &[u16], room: &mut [u8]) -> Joined
    requires rows { Rows rows.now }
    requires t_small { t ≤ 7 }
    requires f_small { f ≤ t }
    requires room_small { length room.old ≤ 952 }
    ensures { Outcome mod257 t f 16 (member usable.bits) (row_word rows.now) (length room.old) room.old (joined_of result) room.new }
{
    let m = usable.count();
    let need = need_of(m, t, f);
    let found = Joined {
        outcome: Err(Refusal::TooFew),
        usable: m,
        need,
        set: KeeperSet::EMPTY,
        trials: 0,
    };
    if (m as usize) < t + f + 1 {
        return found;
    }
    let l = room.len();
    let Some(set) = agreed(t, f, usable, rows, l, need) else {
        return Joined {
            outcome: Err(Refusal::NoPolynomials),
            trials: all_sets(usable, t),
            ..found
        };
    };
    let mut row = [0u16; 952];
    Joined {
        outcome: reveal(t, set, rows, &mut row[..l], room),
        set,
        trials: trials_within(usable, set, t),
        ..found
    }
}

// The join that nothing forbids, with rows to work in, whatever field words they hold.
pub fn join_over(terms: Terms, tray: &[u8], rows: &mut [u16], room: &mut [u8]) -> Joined
    requires not_refused { join_refusal terms.told terms.stamp terms.length tray.now room.old ≡ 0 }
    requires rows { Rows rows.old }
    ensures { JoinDone mod257 terms.told terms.stamp terms.length tray.now room.old (joined_of result) room.new × Rows rows.new }
{
    let usable = KeeperSet {
        bits: scan(terms, tray, rows),
    };
    let order = terms.told.order;
    judge(order.t, order.f, usable, rows, room)
}

pub fn join(terms: Terms, tray: &[u8], room: &mut [u8]) -> Joined
    ensures { JoinDone mod257 terms.told terms.stamp terms.length tray.now room.old (joined_of result) room.new }
{
    if let Err(refusal) = judge_lent(terms, tray, room) {
        return refused(refusal);
    }
    let mut rows = [0u16; 15232];
    join_over(terms, tray, &mut rows, room)
}
