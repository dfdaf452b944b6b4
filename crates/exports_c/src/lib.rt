// The public calls for C, Rust and Python, each under its name in csalgodes.h: what the crate exports answers.
#![tactic(auto)]

ghost use Rattle.std.specs.Prelude.{◌≡◌};
ghost use Rattle.field.specs.Modulo.{mod257};
ghost use Rattle.compare.specs.Compare.{CompareDone};
ghost use Rattle.cut.specs.Cut.{CutDone};
ghost use Rattle.desk.specs.Desk.{StoreDone, fetch_number};
ghost use Rattle.format.specs.Reading.{read_of};
ghost use Rattle.join.specs.Join.{JoinDone};
ghost use Rattle.moving.specs.Cutting.{MoveCutDone};
ghost use Rattle.pick.specs.Pick.{PickDone};
ghost use Rattle.weighing.specs.Weighing.{WeighDone};
ghost use Rattle.exports.specs.Compare.{compared_as};
ghost use Rattle.exports.specs.Join.{joined_as};
ghost use Rattle.exports.specs.Move.{as_move, cut_as, weighed_as};
ghost use Rattle.exports.specs.Pick.{picked_as};
ghost use Rattle.exports.specs.Read.{read_result};
ghost use Rattle.exports.specs.Store.{stored_as};
ghost use Rattle.exports.specs.Told.{order_told, as_told};

use exports::comparing::CompareResult;
use exports::hosts::{MoveCutResult, MoveWeighResult};
use exports::joining::JoinResult;
use exports::keeping::StoreResult;
use exports::picking::PickResult;
use exports::reading::ReadResult;

// What a slot reads as.
#[unsafe(no_mangle)]
pub extern "C" fn cs_read(slot: &[u8]) -> ReadResult
    ensures { result ≡ read_result (read_of slot.now) }
{
    exports::reading::cs_read(slot)
}

// A secret and random words become a tray.
#[unsafe(no_mangle)]
pub extern "C" fn cs_cut(
    t: u32,
    f: u32,
    n: u32,
    key: u32,
    stamp: u32,
    secret: &[u8],
    random: &[u16],
    tray: &mut [u8],
) -> u32
    ensures { CutDone mod257 (as_told t f n key) stamp secret.now random.now tray.old result tray.new }
{
    exports::cutting::cs_cut(t, f, n, key, stamp, secret, random, tray)
}

// The secret of a tray, or why not.
#[unsafe(no_mangle)]
pub extern "C" fn cs_join(
    t: u32,
    f: u32,
    n: u32,
    key: u32,
    stamp: u32,
    length: u32,
    tray: &[u8],
    room: &mut [u8],
) -> JoinResult
    ensures { JoinDone mod257 (as_told t f n key) stamp length tray.now room.old (joined_as result) room.new }
{
    exports::joining::cs_join(t, f, n, key, stamp, length, tray, room)
}

// A letter is offered to the keeper's desk.
#[unsafe(no_mangle)]
pub extern "C" fn cs_store(
    t: u32,
    f: u32,
    n: u32,
    key: u32,
    keeper: u32,
    held: &mut [u8],
    letter: &[u8],
) -> StoreResult
    ensures { StoreDone (as_told t f n key) keeper held.old letter.now (stored_as result) held.new }
{
    exports::keeping::cs_store(t, f, n, key, keeper, held, letter)
}

// Whether the keeper's desk has a letter to hand back.
#[unsafe(no_mangle)]
pub extern "C" fn cs_fetch(t: u32, f: u32, n: u32, key: u32, keeper: u32, held: &[u8]) -> u32
    ensures { result ≡ fetch_number (as_told t f n key) keeper held.now }
{
    exports::keeping::cs_fetch(t, f, n, key, keeper, held)
}

// Which stamp and length of a tray to join.
#[unsafe(no_mangle)]
pub extern "C" fn cs_pick(t: u32, f: u32, n: u32, key: u32, tray: &[u8]) -> PickResult
    ensures { PickDone mod257 (as_told t f n key) tray.now (picked_as result) }
{
    exports::picking::cs_pick(t, f, n, key, tray)
}

// What changed between two trays.
#[unsafe(no_mangle)]
pub extern "C" fn cs_compare(
    t: u32,
    f: u32,
    n: u32,
    first: &[u8],
    second: &[u8],
    list: &mut [[u16; 5]],
) -> CompareResult
    ensures { CompareDone (order_told t f n) first.now second.now list.old (compared_as result) list.new }
{
    exports::comparing::cs_compare(t, f, n, first, second, list)
}

// An old keeper's letter is cut again, for a key's move to new hosts.
#[unsafe(no_mangle)]
pub extern "C" fn cs_move_cut(
    old_t: u32,
    old_f: u32,
    old_n: u32,
    t: u32,
    f: u32,
    n: u32,
    key: u32,
    length: u32,
    stamp: u32,
    keeper: u32,
    letter: &[u8],
    random: &[u16],
    tray: &mut [u8],
) -> MoveCutResult
    ensures { MoveCutDone mod257 (as_move old_t old_f old_n t f n key length stamp) keeper letter.now random.now tray.old (cut_as result) tray.new }
{
    exports::hosts::cs_move_cut(
        old_t, old_f, old_n, t, f, n, key, length, stamp, keeper, letter, random, tray,
    )
}

// A new keeper's letter is made of the sub-letters that it was sent.
#[unsafe(no_mangle)]
pub extern "C" fn cs_move_weigh(
    old_t: u32,
    old_f: u32,
    old_n: u32,
    t: u32,
    f: u32,
    n: u32,
    key: u32,
    length: u32,
    stamp: u32,
    keepers: &[u32],
    keeper: u32,
    letters: &[u8],
    slot: &mut [u8],
) -> MoveWeighResult
    ensures { WeighDone mod257 (as_move old_t old_f old_n t f n key length stamp) keepers.now keeper letters.now slot.old (weighed_as result) slot.new }
{
    exports::hosts::cs_move_weigh(
        old_t, old_f, old_n, t, f, n, key, length, stamp, keepers, keeper, letters, slot,
    )
}
