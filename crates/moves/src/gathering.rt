// move-weigh --from T,F,N --order T,F,N --key K --length L --stamp S --keepers A,B,.. --keeper Y [--replace] FOLDER LETTER: the sub-letters of old keepers
// become the letter of a new one.
ghost use Rattle.std.specs.Prelude.{◌*◌, ◌≤◌, ◌≡◌, length};

use crate::move_of;
use ending::answered;
use files::load::{Unread, load};
use names::slot;
use numerals::list::list;
use options::given::Given;
use options::option::Opt;
use refusals::Refusal;
use saving::save::{is_writable, put_out};
use saying::line::Line;
use saying::status::Status;
use saying::{refused, trouble};
use std::fmt::Write;
use sub_letters::judging::SubFault;
use system::words::word;
use weighing::weigh;

// Says why a file cannot be read. All sub-letters that are listed are needed, so that none counts as empty.
fn unread(rt: &HostRuntime, name: &[u8], why: Unread) -> Status {
    match why {
        Unread::Missing => refused(
            rt,
            name,
            b"is not there: ask this old keeper for its sub-letter",
        ),
        Unread::NoFile => refused(
            rt,
            name,
            b"is no plain file: put the sub-letter of this old keeper in its place",
        ),
        Unread::Trouble(error) => trouble(rt, name, b"cannot be read", error),
    }
}

// Reads a sub-letter from its file, which has as many bytes as one.
fn load_file(rt: &HostRuntime, name: &[u8], letter: &mut [u8]) -> Result<(), Status>
    requires { length letter.old ≡ 2048 }
{
    let mut room = [0u8; 2049];
    let bytes = load(rt, name, true, &mut room).map_err(|why| unread(rt, name, why))?;
    if bytes.len() != 2048 {
        return Err(refused(
            rt,
            name,
            b"has not the 2048 bytes of a sub-letter: ask this old keeper for it anew",
        ));
    }
    letter.copy_from_slice(bytes);
    Ok(())
}

// Reads the sub-letter of an old keeper.
fn load_keeper(
    rt: &HostRuntime,
    folder: &[u8],
    keeper: u32,
    letter: &mut [u8],
) -> Result<(), Status>
    requires { length letter.old ≡ 2048 }
{
    let mut room = io::buffer();
    let Some(name) = slot(folder, keeper, &mut room) else {
        return Err(refused(
            rt,
            folder,
            b"is too long a name for a folder of sub-letters",
        ));
    };
    load_file(rt, name, letter)
}

// Reads the sub-letters of all old keepers that are listed, one behind the other.
fn load_all(
    rt: &HostRuntime,
    folder: &[u8],
    keepers: &[u32],
    letters: &mut [u8],
) -> Result<(), Status>
    requires { length letters.old ≡ 2048 * length keepers.now }
{
    for (keeper, letter) in keepers.iter().zip(letters.chunks_exact_mut(2048)) {
        load_keeper(rt, folder, *keeper, letter)?;
    }
    Ok(())
}

// Whether a refusal is of one of the sub-letters.
fn is_of_one(refusal: Refusal) -> bool {
    matches!(
        refusal,
        Refusal::NotOurs
            | Refusal::LargeWord
            | Refusal::Check
            | Refusal::Mark
            | Refusal::Header
            | Refusal::Tail
    )
}

// Says which sub-letter is refused, where it is one.
fn say_which(rt: &HostRuntime, folder: &[u8], keepers: &[u32], fault: SubFault) {
    let Some(keeper) = keepers.get(fault.letter) else {
        return;
    };
    let mut room = io::buffer();
    let name = slot(folder, *keeper, &mut room).unwrap_or(&[]);
    let mut line = Line::new();
    line.add(name);
    let number = fault.refusal.number();
    let _ = write!(line, ": number {number} is of this sub-letter");
    line.say(rt);
}

// Says why a weighing is refused.
fn answered_of(rt: &HostRuntime, folder: &[u8], keepers: &[u32], fault: SubFault) -> Status {
    if is_of_one(fault.refusal) {
        say_which(rt, folder, keepers, fault);
    }
    answered(rt, fault.refusal.number(), fault.place)
}

// Weighs the sub-letters of the old keepers that are listed, eight at the most.
fn weigh_listed(rt: &HostRuntime, g: &Given, keepers: &[u32], out: &[u8]) -> Result<(), Status>
    requires { length keepers.now ≤ 8 }
{
    let mut name = io::buffer();
    let folder = g.first_name(rt, &mut name);
    let mut room = [0u8; 16384];
    let letters = &mut room[..2048 * keepers.len()];
    load_all(rt, folder, keepers, letters)?;
    let mut new = [0u8; 2048];
    weigh(move_of(g), keepers, g.keeper, letters, &mut new).map_err(|fault| answered_of(
        rt, folder, keepers, fault,
    ))?;
    put_out(rt, out, &new, g.has(Opt::Replace))
}

// The list of old keepers, read again: it was found to be one when the words were read.
fn listed<'a>(rt: &HostRuntime, g: &Given, room: &'a mut [u32; 8]) -> &'a [u32]
    ensures { length result.now ≤ 8 }
{
    let mut name = io::buffer();
    let Some(word) = g.keepers.and_then(|at| word(rt, at, &mut name)) else {
        return &[];
    };
    match list(word, room) {
        Some(count) => &room[..count],
        None => &[],
    }
}

pub fn run(rt: &HostRuntime, g: &Given) -> Result<(), Status> {
    let mut name = io::buffer();
    let out = g.second_name(rt, &mut name);
    is_writable(rt, out, g.has(Opt::Replace))?;
    let mut room = [0u32; 8];
    weigh_listed(rt, g, listed(rt, g, &mut room), out)
}
