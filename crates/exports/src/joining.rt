// cs_join: the secret of a tray, or why not.
ghost use Rattle.field.specs.Modulo.{mod257};
ghost use Rattle.join.specs.Join.{JoinDone};
ghost use Rattle.exports.specs.Told.{as_told};
ghost use Rattle.exports.specs.Join.{joined_as};

use crate::told::as_told;
use header::terms::Terms;
use join::join;
use refusals::number;

#[repr(C)]
#[derive(Clone, Copy, Debug, PartialEq, Eq)]
pub struct JoinResult {
    pub number: u32,
    pub usable: u32,
    pub need: u32,
    pub set: u32,
    pub trials: u32,
}

pub fn cs_join(
    t: u32,
    f: u32,
    n: u32,
    key: u32,
    stamp: u32,
    length: u32,
    tray: &[u8],
    room: &mut [u8],
) -> JoinResult
    ensures { JoinDone mod257 (as_told t f n key) stamp length tray.now room.old (joined_as result) room.new }
{
    let terms = Terms {
        told: as_told(t, f, n, key),
        stamp,
        length: length as usize,
    };
    let joined = join(terms, tray, room);
    JoinResult {
        number: number(joined.outcome),
        usable: joined.usable,
        need: joined.need,
        set: u32::from(joined.set.bits),
        trials: joined.trials,
    }
}
