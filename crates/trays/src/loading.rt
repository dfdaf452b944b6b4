// A tray from its folder: what is no slot there is an empty one, and that is said.
ghost use Rattle.std.specs.Prelude.{◌*◌, ◌≡◌, length};

use files::kind::{Kind, seen};
use files::load::{Unread, load};
use names::slot;
use saying::line::Line;
use saying::status::Status;
use saying::{refused, trouble};
use std::fmt::Write;

// Sees that a tray is there at all.
fn judge_folder(rt: &HostRuntime, folder: &[u8]) -> Result<(), Status> {
    match seen(rt, folder, true) {
        Ok(Some(found)) if found.kind == Kind::Folder => Ok(()),
        Ok(Some(_)) => Err(refused(
            rt,
            folder,
            b"is no folder, and a tray is one, with the slots 1 .. N in it",
        )),
        Ok(None) => Err(refused(rt, folder, b"there is no such folder")),
        Err(error) => Err(trouble(rt, folder, b"cannot be looked at", error)),
    }
}

fn say_empty(rt: &HostRuntime, name: &[u8], why: &str) {
    let mut line = Line::new();
    line.add(name);
    let _ = write!(line, ": {why}, and counts as an empty slot");
    line.say(rt);
}

// Says why a file counts as an empty slot.
fn say_unread(rt: &HostRuntime, name: &[u8], why: Unread) {
    match why {
        Unread::Missing => say_empty(rt, name, "is not there"),
        Unread::NoFile => say_empty(rt, name, "is no plain file"),
        Unread::Trouble(error) => {
            trouble(
                rt,
                name,
                b"counts as an empty slot, since it cannot be read",
                error,
            );
        }
    }
}

// Fills a slot from its file, where that has the bytes of one.
fn load_slot(rt: &HostRuntime, name: &[u8], slot: &mut [u8])
    requires { length slot.old ≡ 2048 }
{
    let mut room = [0u8; 2049];
    match load(rt, name, true, &mut room) {
        Ok(bytes) if bytes.len() == 2048 => slot.copy_from_slice(bytes),
        Ok(_) => say_empty(rt, name, "has not the 2048 bytes of a slot"),
        Err(why) => say_unread(rt, name, why),
    }
}

fn load_keeper(rt: &HostRuntime, folder: &[u8], keeper: u32, letter: &mut [u8])
    requires { length letter.old ≡ 2048 }
{
    let mut room = io::buffer();
    match slot(folder, keeper, &mut room) {
        Some(name) => load_slot(rt, name, letter),
        None => say_empty(rt, folder, "is too long a name"),
    }
}

// Fills a tray of n slots from a folder, if there is such a folder.
pub fn filled(rt: &HostRuntime, folder: &[u8], n: u32, tray: &mut [u8]) -> Result<(), Status>
    requires { length tray.old ≡ 2048 * n }
{
    if n == 0 {
        return Ok(());
    }
    judge_folder(rt, folder)?;
    for k in 0..n {
        let at = 2048 * k as usize;
        load_keeper(rt, folder, k + 1, &mut tray[at..at + 2048]);
    }
    Ok(())
}
