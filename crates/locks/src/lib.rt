// Locks, as git has them: NAME.lock, made by one program alone, holds NAME until it is renamed onto it or removed.
#![tactic(auto)]

ghost use Rattle.std.specs.Prelude.{◌≡◌, ◌≤◌, length, IfOk};
ghost use Rattle.saying.specs.Status.{code, ElseFailed};

use files::kind::seen;
use files::load::load;
use names::{PATH_MAX, with};
use saying::line::Line;
use saying::status::Status;
use saying::{refused, trouble};
use std::fmt::Write as _;
use std::fs::{File, Permissions};
use std::io::{ErrorKind, Write};
use std::os::unix::fs::PermissionsExt;
use std::time::Duration;
use std::{process, thread};
use system::named::{created, removed};

// 500 tries, a hundredth of a second apart.
const TRIES: u32 = 500;

const MILLISECONDS: u64 = 10;

// Leaves in a lock which process holds it, for others to say. A lock without it holds as well.
fn sign(rt: &HostRuntime, mut file: File) {
    let _ = file.set_permissions(Permissions::from_mode(0o644));
    let _ = file.write_all(b"process ");
    let _ = write!(file, "{}", process::id(rt.process()));
}

// Whether the start of a lock can be the process that it names: a lock that is about to be renamed has a letter in it.
fn is_signed(start: &[u8]) -> bool {
    start.len() > 8 && start.len() < 32
}

// The user whose a lock is.
fn owner_of(rt: &HostRuntime, lock: &[u8]) -> u32 {
    match seen(rt, lock, false) {
        Ok(Some(place)) => place.owner.user,
        _ => 0,
    }
}

// Says who holds the lock: the process that it names, and its owner.
fn say_busy_by(rt: &HostRuntime, lock: &[u8], who: &[u8]) -> Status
    ensures { code result ≡ 100 }
{
    let owner = owner_of(rt, lock);
    let mut line = Line::new();
    line.add(lock);
    line.add(b": ");
    line.add(who);
    let _ = write!(
        line,
        " of user {owner} is at work here: try again when it has ended; where it runs no more, remove this file first"
    );
    line.say(rt);
    Status::Failed
}

fn say_busy(rt: &HostRuntime, lock: &[u8]) -> Status
    ensures { code result ≡ 100 }
{
    let mut room = [0u8; 32];
    match load(rt, lock, false, &mut room) {
        Ok(start) if is_signed(start) => say_busy_by(rt, lock, start),
        _ => say_busy_by(rt, lock, b"another process"),
    }
}

// Makes the lock; waits a little for another to let go.
fn hold(rt: &HostRuntime, lock: &[u8]) -> Result<(), Status>
    ensures { ElseFailed result }
{
    for _ in 0..TRIES {
        match created(rt, lock, 0o666) {
            Ok(file) => {
                sign(rt, file);
                return Ok(());
            }
            Err(error) if error.kind() == ErrorKind::AlreadyExists => thread::sleep(
                rt,
                Duration::from_millis(MILLISECONDS),
            ),
            Err(error) => return Err(trouble(rt, lock, b"cannot be made", error)),
        }
    }
    Err(say_busy(rt, lock))
}

// The name of a file's lock. Where it is too long, that is said.
pub fn lock_of<'a>(
    rt: &HostRuntime,
    name: &[u8],
    out: &'a mut [u8; PATH_MAX],
) -> Result<&'a [u8], Status>
    ensures lock { IfOk result (λ lock. length lock.now ≤ 4095) }
    ensures failed { ElseFailed result }
{
    with(name, b".lock", out).ok_or_else(|| {
        refused(
            rt,
            name,
            b"is too long a name: there must be room for .lock behind it",
        )
    })
}

// Holds a file, or says why not.
pub fn held(rt: &HostRuntime, name: &[u8]) -> Result<(), Status>
    ensures { ElseFailed result }
{
    let mut room = io::buffer();
    let lock = lock_of(rt, name, &mut room)?;
    hold(rt, lock)
}

// Lets it go, as it is.
pub fn let_go(rt: &HostRuntime, name: &[u8]) {
    let mut room = io::buffer();
    let lock = with(name, b".lock", &mut room).unwrap_or(b"");
    if let Err(error) = removed(rt, lock) {
        trouble(
            rt,
            lock,
            b"cannot be removed: remove it before you try again",
            error,
        );
    }
}
