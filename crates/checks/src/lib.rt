// move-check --from T,F,N --order T,F,N --key K OLD NEW: whether a tray of old letters and one of moved letters give the same key. The keys are written nowhere.
#![tactic(auto)]

ghost use Rattle.std.specs.Prelude.{◌<◌, ◌≤◌, ◌^◌, length, IfOk};

use commands::told::slots_of;
use ending::{answered, status_for};
use header::terms::Terms;
use header::told::Told;
use join::join;
use joins::joining::room_for;
use joins::newer::say_newer;
use options::given::Given;
use pick::pick;
use refusals::Refusal;
use saving::save::said;
use saying::line::Line;
use saying::status::Status;
use showing::{put_key_line, put_same_line};
use std::fmt::Write;
use system::output::Stream;
use trays::loading::filled;

// One of the two trays.
#[derive(Clone, Copy, Debug, PartialEq, Eq)]
enum Side {
    Old,
    New,
}

impl Side {
    fn word(self) -> &'static str
        ensures { length result.now ≤ 3 }
    {
        match self {
            Side::Old => "old",
            Side::New => "new",
        }
    }

    // What its letters are of.
    fn told(self, g: &Given) -> Told {
        match self {
            Side::Old => Told {
                order: g.old,
                key: g.terms.told.key,
            },
            Side::New => g.terms.told,
        }
    }

    // The name of its folder.
    fn folder<'a>(self, rt: &HostRuntime, g: &Given, room: &'a mut [u8]) -> &'a [u8] {
        match self {
            Side::Old => g.first_name(rt, room),
            Side::New => g.second_name(rt, room),
        }
    }
}

// Says which tray gives no key, and why.
fn without_key(rt: &HostRuntime, folder: &[u8], side: Side, refusal: Refusal) -> Status {
    let mut line = Line::new();
    line.add(folder);
    let word = side.word();
    let _ = write!(line, ": the {word} letters give no key");
    line.say(rt);
    answered(rt, refusal.number(), 0)
}

fn say_key(
    rt: &HostRuntime,
    side: Side,
    key: usize,
    stamp: u32,
    length: usize,
) -> Result<(), Status>
    requires key_small { key < 2 ^ 32 }
    requires length_small { length ≤ 952 }
{
    let line = put_key_line(side.word().as_bytes(), key as u32, stamp, length as u32);
    said(rt, Stream::Output, line.bytes())
}

// What a tray gives: how it was cut, and that its key stands at the start of a room.
fn find(told: Told, tray: &[u8], room: &mut [u8; 952]) -> Result<Terms, Refusal>
    ensures { IfOk result (λ terms. terms.length ≤ 952) }
{
    let choice = pick(told, tray);
    choice.outcome?;
    let length = room_for(choice.length);
    let terms = Terms {
        told,
        stamp: choice.stamp,
        length,
    };
    join(terms, tray, &mut room[..length]).outcome?;
    Ok(terms)
}

// The key of one of the trays, put into a room. Says what is wrong where there is none.
fn key_of<'a>(
    rt: &HostRuntime,
    g: &Given,
    side: Side,
    room: &'a mut [u8; 952],
) -> Result<&'a [u8], Status> {
    let told = side.told(g);
    let n = slots_of(told);
    let mut slots = [0u8; 32768];
    let tray = &mut slots[..2048 * n as usize];
    let mut name = io::buffer();
    let folder = side.folder(rt, g, &mut name);
    filled(rt, folder, n, tray)?;
    let found = find(told, tray, room).map_err(|refusal| without_key(rt, folder, side, refusal))?;
    say_newer(rt, told, found.stamp, tray);
    say_key(rt, side, g.terms.told.key, found.stamp, found.length)?;
    Ok(&room[..found.length])
}

// Says whether the keys are the same, and ends so.
pub fn run(rt: &HostRuntime, g: &Given) -> Result<(), Status> {
    let mut old_room = [0u8; 952];
    let old = key_of(rt, g, Side::Old, &mut old_room)?;
    let mut new_room = [0u8; 952];
    let new = key_of(rt, g, Side::New, &mut new_room)?;
    let same = old == new;
    said(rt, Stream::Output, put_same_line(same).bytes())?;
    status_for(u32::from(!same))
}
