// How many sets of usable keepers are tried up to the first that lies within the set that agrees.
#![tactic(auto)]

ghost use Rattle.std.specs.Prelude.{◌≡◌, ◌+◌, ◌≤◌, length};
ghost use Rattle.lists.specs.Chosen.{chosen};
ghost use Rattle.lists.specs.Count.{count};
ghost use Rattle.lists.specs.From.{from};
ghost use Rattle.lists.specs.KeeperSet.{member};
ghost use Rattle.trials.specs.Left.{left, Counting};
ghost use Rattle.trials.specs.Lowest.{place};
ghost use Rattle.trials.specs.Sets.{sets};
ghost use Rattle.trials.specs.Trials.{trials};
ghost use Rattle.trials.specs.Within.{within};

use crate::binomials::choose;
use search::keepers::KeeperSet;

mod binomials;

// Goes on past keeper `next`, where so many usable keepers are left and a set lacks so many of t + 1: each of them is included or skipped.
fn counted(usable: KeeperSet, set: KeeperSet, lack: usize, next: usize, many: usize) -> u32
    requires { Counting usable.bits set.bits lack next many }
    ensures { result ≡ place (member set.bits) (left usable.bits next) lack }
{
    if lack == 0 {
        return 1;
    }
    if !usable.has(next) {
        return counted(usable, set, lack, next + 1, many);
    }
    if set.has(next) {
        return counted(usable, set, lack - 1, next + 1, many - 1);
    }
    choose(many - 1, lack - 1) + counted(usable, set, lack, next + 1, many - 1)
}

// How many sets of t + 1 usable keepers are tried, in dictionary order, up to and including the first that lies within a set.
pub fn trials_within(usable: KeeperSet, set: KeeperSet, t: usize) -> u32
    requires t_small { t ≤ 7 }
    requires enough { t + 1 ≤ count (member set.bits) (chosen (member usable.bits) (from 1 16)) }
    ensures { result ≡ trials (within (member set.bits)) (sets (chosen (member usable.bits) (from 1 16)) (t + 1)) }
{
    let many = usable.count() as usize;
    counted(usable, set, t + 1, 0, many)
}

// How many sets of t + 1 usable keepers there are.
pub fn all_sets(usable: KeeperSet, t: usize) -> u32
    requires { t ≤ 7 }
    ensures { result ≡ length (sets (chosen (member usable.bits) (from 1 16)) (t + 1)) }
{
    choose(usable.count() as usize, t + 1)
}
