// The group picked, joined and reported.
ghost use Rattle.std.specs.Prelude.{◌≡◌};
ghost use Rattle.lists.specs.KeeperSet.{keeper_set};
ghost use Rattle.refusals.specs.Numbers.{code_of};
ghost use Rattle.tray.specs.Tray.{usable};
ghost use Rattle.report_text.specs.Joined.{Joinable, JoinedReported};

use crate::answer::Page;
use crate::line::put_lines;
use header::terms::Terms;
use join::join;
use search::keepers::KeeperSet;
use tray::scan;

// The usable keepers, as a set.
pub fn usable_in(terms: Terms, tray: &[u8]) -> KeeperSet
    requires { Joinable terms.told terms.length tray.now }
    ensures { result.bits ≡ keeper_set (usable terms.told terms.stamp terms.length tray.now) terms.told.order.n }
{
    let mut rows = [0u16; 15232];
    KeeperSet {
        bits: scan(terms, tray, &mut rows),
    }
}

// The report of the join of what is picked.
pub fn report_joined(terms: Terms, tray: &[u8]) -> Page
    requires { Joinable terms.told terms.length tray.now }
    ensures { JoinedReported terms.told terms.stamp terms.length tray.now (code_of result.outcome) result.text }
{
    let mut room = [0u8; 952];
    let joined = join(terms, tray, &mut room[..terms.length]);
    Page {
        text: put_lines(terms, usable_in(terms, tray), joined),
        outcome: joined.outcome,
    }
}
