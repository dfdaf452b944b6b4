// The constants of the polynomials that a set of keepers agrees on.
ghost use Rattle.std.specs.Prelude.{◌+◌, ◌≤◌, length};
ghost use Rattle.std.specs.Int.Count.{ones};
ghost use Rattle.field.specs.Modulo.{mod257};
ghost use Rattle.weigh.specs.Weigh.{row_word};
ghost use Rattle.agree.specs.Recovers.{Recovers};
ghost use Rattle.agree.specs.Rows.{Rows};

use search::keepers::KeeperSet;
use weigh::carry_row;

// Carries the words of the first t + 1 keepers of the set to 0.
pub fn constants_of(t: usize, set: KeeperSet, rows: &[u16], row: &mut [u16])
    requires rows { Rows rows.now }
    requires t_small { t ≤ 7 }
    requires enough { t + 1 ≤ ones set.bits }
    requires row_room { length row.old ≤ 952 }
    ensures { Recovers mod257 t 16 set.bits (row_word rows.now) (length row.old) row.new }
{
    let base = set.first(t);
    carry_row(&base[..t + 1], rows, 0, row);
}
