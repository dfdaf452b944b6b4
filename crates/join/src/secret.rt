// The secret, revealed by the keepers that agree.
ghost use Rattle.std.specs.Prelude.{◌≡◌, ◌+◌, ◌≤◌, length};
ghost use Rattle.std.specs.Int.Count.{ones};
ghost use Rattle.refusals.specs.Numbers.{code_of};
ghost use Rattle.field.specs.Modulo.{mod257};
ghost use Rattle.weigh.specs.Weigh.{row_word};
ghost use Rattle.agree.specs.Rows.{Rows};
ghost use Rattle.join.specs.Revealed.{Reveals};

use crate::bytes::put_bytes;
use agree::constants::constants_of;
use block::bounds::within;
use refusals::Refusal;
use search::keepers::KeeperSet;

// Writes the constants of the polynomials that a set of keepers matches, if each is a byte: they are no secret where one is not. The row is room to
// work in.
pub fn reveal(
    t: usize,
    set: KeeperSet,
    rows: &[u16],
    row: &mut [u16],
    room: &mut [u8],
) -> Result<(), Refusal>
    requires rows { Rows rows.now }
    requires t_small { t ≤ 7 }
    requires enough { t + 1 ≤ ones set.bits }
    requires row_small { length row.old ≤ 952 }
    requires same_size { length row.old ≡ length room.old }
    ensures { Reveals mod257 t 16 set.bits (row_word rows.now) room.old (code_of result) room.new }
{
    constants_of(t, set, rows, row);
    if !within(row, 255) {
        return Err(Refusal::NoSecret);
    }
    put_bytes(row, room);
    Ok(())
}
