// cs_move_cut and cs_move_weigh: a key's move to new hosts.
ghost use Rattle.std.specs.Prelude.{◌≡◌};
ghost use Rattle.field.specs.Modulo.{mod257};
ghost use Rattle.moving.specs.Cutting.{MoveCutDone};
ghost use Rattle.weighing.specs.Weighing.{WeighDone};
ghost use Rattle.exports.specs.Move.{as_move, cut_as, weighed_as};

use crate::told::{as_told, order_told};
use moving::cutting::cut;
use moving::terms::Move;
use weighing::weigh;

// What the cutting answers: the number, and the place of a fault in the letter.
#[repr(C)]
#[derive(Clone, Copy, Debug, PartialEq, Eq)]
pub struct MoveCutResult {
    pub number: u32,
    pub place: u32,
}

// What the weighing answers: the number, which sub-letter it is of, and the place of a fault there.
#[repr(C)]
#[derive(Clone, Copy, Debug, PartialEq, Eq)]
pub struct MoveWeighResult {
    pub number: u32,
    pub letter: u32,
    pub place: u32,
}

// What a move is told. C tells each of its numbers apart.
fn as_move(
    old_t: u32,
    old_f: u32,
    old_n: u32,
    t: u32,
    f: u32,
    n: u32,
    key: u32,
    length: u32,
    stamp: u32,
) -> Move
    ensures { result ≡ as_move old_t old_f old_n t f n key length stamp }
{
    let old = order_told(old_t, old_f, old_n);
    let told = as_told(t, f, n, key);
    Move {
        old,
        told,
        stamp,
        length: length as usize,
    }
}

pub fn cs_move_cut(
    old_t: u32,
    old_f: u32,
    old_n: u32,
    t: u32,
    f: u32,
    n: u32,
    key: u32,
    length: u32,
    stamp: u32,
    keeper: u32,
    letter: &[u8],
    random: &[u16],
    tray: &mut [u8],
) -> MoveCutResult
    ensures { MoveCutDone mod257 (as_move old_t old_f old_n t f n key length stamp) keeper letter.now random.now tray.old (cut_as result) tray.new }
{
    let m = as_move(old_t, old_f, old_n, t, f, n, key, length, stamp);
    match cut(m, keeper as usize, letter, random, tray) {
        Ok(()) => MoveCutResult {
            number: 0,
            place: 0,
        },
        Err(fault) => MoveCutResult {
            number: fault.refusal.number(),
            place: fault.place as u32,
        },
    }
}

pub fn cs_move_weigh(
    old_t: u32,
    old_f: u32,
    old_n: u32,
    t: u32,
    f: u32,
    n: u32,
    key: u32,
    length: u32,
    stamp: u32,
    keepers: &[u32],
    keeper: u32,
    letters: &[u8],
    slot: &mut [u8],
) -> MoveWeighResult
    ensures { WeighDone mod257 (as_move old_t old_f old_n t f n key length stamp) keepers.now keeper letters.now slot.old (weighed_as result) slot.new }
{
    let m = as_move(old_t, old_f, old_n, t, f, n, key, length, stamp);
    match weigh(m, keepers, keeper as usize, letters, slot) {
        Ok(()) => MoveWeighResult {
            number: 0,
            letter: 0,
            place: 0,
        },
        Err(fault) => MoveWeighResult {
            number: fault.refusal.number(),
            letter: fault.letter as u32,
            place: fault.place as u32,
        },
    }
}
