// Writing: always into a new file of its owner alone, beside the target; it is renamed when all of it is on the disk.
ghost use Rattle.std.specs.Prelude.{◌≡◌};
ghost use Rattle.saying.specs.Status.{code, ElseFailed};

use crate::temp::created_temp;
use files::kind::{Kind, seen};
use files::load::is_dash;
use locks::{held, let_go, lock_of};
use names::with;
use saying::status::Status;
use saying::{refused, trouble};
use std::fs::{File, Permissions};
use std::io::{Error, Write};
use std::os::fd::AsFd;
use std::os::unix::fs::{MetadataExt, PermissionsExt, fchown};
use system::named::{opened, removed, renamed as moved};
use system::output::{Stream, put, synced as flushed};

// Whose a file is to be.
pub use files::kind::Owner;

// Whether a file that the program has made is this user's already.
fn is_of(file: &File, user: u32) -> bool {
    file.metadata().is_ok_and(|found| found.uid() == user)
}

// Gives a file to its owner, if that is to be another than who runs the program.
fn given(file: &File, owner: Option<Owner>) -> Result<(), Error> {
    match owner {
        Some(owner) if !is_of(file, owner.user) => {
            fchown(file.as_fd(), Some(owner.user), Some(owner.group))
        }
        _ => Ok(()),
    }
}

// Makes a file its owner's alone, and that owner's. A umask may have taken even the owner's bits.
fn made_private(file: &File, owner: Option<Owner>) -> Result<(), Error> {
    file.set_permissions(Permissions::from_mode(0o600))?;
    given(file, owner)
}

// Puts all bytes into the file and on the disk. The one place that hands a secret or a letter to a write of a file.
fn filled(mut file: File, bytes: &[u8], owner: Option<Owner>) -> Result<(), Error> {
    made_private(&file, owner)?;
    file.write_all(bytes)?;
    file.sync_all()
}

// Says what could not be done with a file that was made under a name that no other has, and removes it.
fn given_up(rt: &HostRuntime, new: &[u8], name: &[u8], what: &[u8], error: Error) -> Status
    ensures { code result ≡ 100 }
{
    let status = trouble(rt, name, what, error);
    let _ = removed(rt, new);
    status
}

// Makes a file of these bytes under a name that no other has, and renames it to its place. new ends in XXXXXX.
fn placed_by(
    rt: &HostRuntime,
    new: &mut [u8],
    bytes: &[u8],
    place: &[u8],
    owner: Option<Owner>,
) -> Result<(), Status>
    ensures { ElseFailed result }
{
    let made = created_temp(rt, new);
    let new = &new[..];
    let file = made.map_err(|error| trouble(rt, new, b"cannot be made", error))?;
    filled(file, bytes, owner).map_err(|error| {
        given_up(rt, new, new, b"cannot be written, and is removed", error)
    })?;
    moved(rt, new, place).map_err(|error| {
        given_up(rt, new, place, b"cannot be put in its place", error)
    })
}

// The bytes at a place, by way of a new file beside the target.
pub fn placed(
    rt: &HostRuntime,
    target: &[u8],
    bytes: &[u8],
    place: &[u8],
    owner: Option<Owner>,
) -> Result<(), Status>
    ensures { ElseFailed result }
{
    let mut room = io::buffer();
    let Some(new) = with(target, b".new-XXXXXX", &mut room) else {
        return Err(refused(
            rt,
            target,
            b"is too long a name: there must be room for .new-XXXXXX behind it",
        ));
    };
    let count = new.len();
    placed_by(rt, &mut room[..count], bytes, place, owner)
}

// Puts the names of a folder on the disk. Some file systems know no such call, and say EINVAL.
pub fn synced(rt: &HostRuntime, folder: &[u8]) -> Result<(), Error> {
    let file = opened(rt, folder)?;
    flushed(&file)
}

// Puts on the disk the folder in which a name stands.
fn folder_synced(rt: &HostRuntime, name: &[u8]) -> Result<(), Error> {
    let folder = names::folder(name);
    if folder.is_empty() {
        synced(rt, b".")
    } else {
        synced(rt, folder)
    }
}

// Puts the folder in which a name stands on the disk; says so where it cannot be.
pub fn named_for_good(rt: &HostRuntime, name: &[u8]) -> Result<(), Status>
    ensures { ElseFailed result }
{
    folder_synced(rt, name).map_err(|error| {
        trouble(
            rt,
            name,
            b"is in its place, but its folder cannot be synced, and a power cut may undo it",
            error,
        )
    })
}

// Renames the lock, which is written, onto its file.
fn renamed(rt: &HostRuntime, lock: &[u8], name: &[u8]) -> Result<(), Status>
    ensures { ElseFailed result }
{
    moved(rt, lock, name).map_err(|error| {
        given_up(
            rt,
            lock,
            name,
            b"cannot be replaced, and is as it was",
            error,
        )
    })?;
    named_for_good(rt, name)
}

// Puts bytes into a file that is held, and lets it go: the lock becomes the file, in one step.
pub fn replaced(
    rt: &HostRuntime,
    name: &[u8],
    bytes: &[u8],
    owner: Option<Owner>,
) -> Result<(), Status>
    ensures { ElseFailed result }
{
    let mut room = io::buffer();
    let lock = lock_of(rt, name, &mut room)?;
    if let Err(status) = placed(rt, name, bytes, lock, owner) {
        let _ = removed(rt, lock);
        return Err(status);
    }
    renamed(rt, lock, name)
}

fn in_the_way(rt: &HostRuntime, name: &[u8]) -> Status
    ensures { code result ≡ 100 }
{
    refused(
        rt,
        name,
        b"is there and no plain file, and is not replaced: name another file",
    )
}

// Sees that a file may be written: nothing is there, or a plain file that is to be replaced. Says why not.
pub fn is_free(rt: &HostRuntime, name: &[u8], replaces: bool) -> Result<(), Status>
    ensures { ElseFailed result }
{
    let found = seen(rt, name, false).map_err(|error| trouble(
        rt,
        name,
        b"cannot be looked at",
        error,
    ))?;
    match found {
        None => Ok(()),
        Some(place) if place.kind != Kind::File => Err(in_the_way(rt, name)),
        Some(_) if replaces => Ok(()),
        Some(_) => Err(refused(
            rt,
            name,
            b"is there already: name another file, or say --replace",
        )),
    }
}

// Writes a file that is not there, or replaces one.
pub fn saved(rt: &HostRuntime, name: &[u8], bytes: &[u8], replaces: bool) -> Result<(), Status>
    ensures { ElseFailed result }
{
    held(rt, name)?;
    if let Err(status) = is_free(rt, name, replaces) {
        let_go(rt, name);
        return Err(status);
    }
    replaced(rt, name, bytes, None)
}

// Writes what is said, to standard output or standard error.
pub fn said(rt: &HostRuntime, to: Stream, bytes: &[u8]) -> Result<(), Status>
    ensures { ElseFailed result }
{
    put(rt, to, bytes).map_err(|error| trouble(rt, b"standard output", b"cannot be written", error))
}

// Sees that what a word names may be written: standard output always.
pub fn is_writable(rt: &HostRuntime, word: &[u8], replaces: bool) -> Result<(), Status>
    ensures { ElseFailed result }
{
    if is_dash(word) {
        return Ok(());
    }
    is_free(rt, word, replaces)
}

// Writes to where a word says: a file, or '-' for standard output.
pub fn put_out(rt: &HostRuntime, word: &[u8], bytes: &[u8], replaces: bool) -> Result<(), Status>
    ensures { ElseFailed result }
{
    if is_dash(word) {
        return said(rt, Stream::Output, bytes);
    }
    saved(rt, word, bytes, replaces)
}
