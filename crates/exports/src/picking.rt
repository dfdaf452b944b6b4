// cs_pick: which stamp and length of a tray to join.
ghost use Rattle.field.specs.Modulo.{mod257};
ghost use Rattle.pick.specs.Pick.{PickDone};
ghost use Rattle.exports.specs.Told.{as_told};
ghost use Rattle.exports.specs.Pick.{picked_as};

use crate::told::as_told;
use pick::pick;
use refusals::number;

#[repr(C)]
#[derive(Clone, Copy, Debug, PartialEq, Eq)]
pub struct PickResult {
    pub number: u32,
    pub stamp: u32,
    pub length: u32,
}

pub fn cs_pick(t: u32, f: u32, n: u32, key: u32, tray: &[u8]) -> PickResult
    ensures { PickDone mod257 (as_told t f n key) tray.now (picked_as result) }
{
    let picked = pick(as_told(t, f, n, key), tray);
    PickResult {
        number: number(picked.outcome),
        stamp: picked.stamp,
        length: picked.length as u32,
    }
}
