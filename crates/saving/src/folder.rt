// A tray as a folder of letters, made all at once: beside its place, and renamed there when every letter is on the disk.
ghost use Rattle.std.specs.Prelude.{◌*◌, ◌≡◌, length};
ghost use Rattle.saying.specs.Status.{code, ElseFailed};

use crate::save::{named_for_good, placed, synced};
use names::{slot, with};
use saying::status::Status;
use saying::{refused, trouble};
use std::fs::Permissions;
use std::io::{Error, ErrorKind};
use std::os::unix::fs::PermissionsExt;
use system::named::{folder_made, folder_removed, opened, removed, renamed};

// Makes a folder that was just made all its owner's. A umask may have taken some of the owner's bits.
fn opened_up(rt: &HostRuntime, folder: &[u8]) -> Result<(), Error> {
    let file = opened(rt, folder)?;
    file.set_permissions(Permissions::from_mode(0o700))
}

// Says why the folder was not made.
fn not_made(rt: &HostRuntime, folder: &[u8], error: Error) -> Status
    ensures { code result ≡ 100 }
{
    if error.kind() == ErrorKind::AlreadyExists {
        refused(
            rt,
            folder,
            b"is there already: another cut is at work, or one was killed; its letters are as good as the key: remove it, and cut again",
        )
    } else {
        trouble(rt, folder, b"cannot be made", error)
    }
}

// Makes a folder that is its owner's alone; removes it where it cannot be used.
fn private_made(rt: &HostRuntime, folder: &[u8]) -> Result<(), Status>
    ensures { ElseFailed result }
{
    folder_made(rt, folder, 0o700).map_err(|error| not_made(rt, folder, error))?;
    opened_up(rt, folder).map_err(|error| {
        let status = trouble(rt, folder, b"cannot be used, and is removed", error);
        let _ = folder_removed(rt, folder);
        status
    })
}

// Writes the letter of a keeper.
fn written(rt: &HostRuntime, folder: &[u8], keeper: u32, letter: &[u8]) -> Result<(), Status>
    ensures { ElseFailed result }
{
    let mut room = io::buffer();
    let Some(name) = slot(folder, keeper, &mut room) else {
        return Err(refused(rt, folder, b"is too long a name for a folder of letters"));
    };
    placed(rt, name, letter, name, None)
}

// Writes the letters of keepers 1 .. n, as far as it goes well.
fn all_written(rt: &HostRuntime, folder: &[u8], n: u32, tray: &[u8]) -> Result<(), Status>
    requires { length tray.now ≡ 2048 * n }
    ensures { ElseFailed result }
{
    for k in 0..n {
        let from = k as usize * 2048;
        written(rt, folder, k + 1, &tray[from..from + 2048])?;
    }
    Ok(())
}

// Removes one letter, if it is there.
fn remove_letter(rt: &HostRuntime, folder: &[u8], keeper: u32) {
    let mut room = io::buffer();
    let name = slot(folder, keeper, &mut room).unwrap_or(b"");
    let _ = removed(rt, name);
}

// Removes a folder of letters that did not come to its end.
fn remove(rt: &HostRuntime, folder: &[u8], n: u32) {
    for keeper in (1..=n).rev() {
        remove_letter(rt, folder, keeper);
    }
    let _ = folder_removed(rt, folder);
}

// Puts the new folder in its place, where nothing or an empty folder is.
fn put_in_place(rt: &HostRuntime, new: &[u8], folder: &[u8]) -> Result<(), Status>
    ensures { ElseFailed result }
{
    synced(rt, new).map_err(|error| trouble(rt, new, b"cannot be synced", error))?;
    renamed(rt, new, folder).map_err(|error| {
        trouble(
            rt,
            folder,
            b"cannot take the letters, which go into a folder that is not there yet, or is empty",
            error,
        )
    })
}

// Fills the new folder, and puts it in its place.
fn filled(rt: &HostRuntime, new: &[u8], folder: &[u8], n: u32, tray: &[u8]) -> Result<(), Status>
    requires { length tray.now ≡ 2048 * n }
    ensures { ElseFailed result }
{
    all_written(rt, new, n, tray)?;
    put_in_place(rt, new, folder)
}

fn made_by(rt: &HostRuntime, new: &[u8], folder: &[u8], n: u32, tray: &[u8]) -> Result<(), Status>
    requires { length tray.now ≡ 2048 * n }
    ensures { ElseFailed result }
{
    private_made(rt, new)?;
    if let Err(status) = filled(rt, new, folder, n, tray) {
        remove(rt, new, n);
        return Err(status);
    }
    named_for_good(rt, folder)
}

// Makes the folder of a tray: all its letters, or none.
pub fn made(rt: &HostRuntime, folder: &[u8], n: u32, tray: &[u8]) -> Result<(), Status>
    requires { length tray.now ≡ 2048 * n }
    ensures { ElseFailed result }
{
    let mut room = io::buffer();
    let Some(new) = with(folder, b".new", &mut room) else {
        return Err(refused(
            rt,
            folder,
            b"is too long a name: there must be room for .new behind it",
        ));
    };
    made_by(rt, new, folder, n, tray)
}
