// Files, read whole into a room.
ghost use Rattle.std.specs.Prelude.{◌≡◌, ◌≤◌, length, take, IfOk};
ghost use Rattle.saying.specs.Status.{code, ElseFailed};

use crate::kind::{Kind, seen};
use saying::status::Status;
use saying::{refused, trouble};
use std::io::Error;
use system::input::taken;
use system::named::opened;

// Why a file was not read.
#[derive(Drop)]
pub enum Unread {
    Missing,
    NoFile,
    Trouble(Error),
}

impl From<Error> for Unread {
    fn from(error: Error) -> Unread {
        Unread::Trouble(error)
    }
}

// Reads a file as far as there is room, or where follows is true what a link leads to. What is no plain file is not opened.
pub fn load<'a>(
    rt: &HostRuntime,
    name: &[u8],
    follows: bool,
    room: &'a mut [u8],
) -> Result<&'a [u8], Unread>
    ensures { IfOk result (λ bytes. length bytes.now ≤ length room.old) }
{
    let Some(found) = seen(rt, name, follows)? else {
        return Err(Unread::Missing);
    };
    if found.kind != Kind::File {
        return Err(Unread::NoFile);
    }
    let mut file = opened(rt, name)?;
    Ok(taken(&mut file, room)?)
}

// Says why a word names nothing that can be read.
fn say_unread(rt: &HostRuntime, word: &[u8], why: Unread) -> Status
    ensures { code result ≡ 100 }
{
    match why {
        Unread::Missing => refused(rt, word, b"there is no such file"),
        Unread::NoFile => refused(
            rt,
            word,
            b"is not a plain file, and is not read; what a pipe gives is read from standard input, by -",
        ),
        Unread::Trouble(error) => trouble(rt, word, b"cannot be read", error),
    }
}

// Reads what a word names, a file or '-' for standard input; says what is wrong where there is nothing.
pub fn given<'a>(rt: &HostRuntime, word: &[u8], room: &'a mut [u8]) -> Result<&'a [u8], Status>
    ensures bytes { IfOk result (λ bytes. length bytes.now ≤ length room.old) }
    ensures failed { ElseFailed result }
{
    if is_dash(word) {
        return taken(&mut rt.stdin(), room).map_err(|error| trouble(
            rt,
            b"standard input",
            b"cannot be read",
            error,
        ));
    }
    load(rt, word, true, room).map_err(|why| say_unread(rt, word, why))
}

// Whether a word stands for standard input or output.
pub fn is_dash(word: &[u8]) -> bool {
    word == b"-".as_slice()
}

// So many of some bytes, or all where there are fewer. It stays for its promise: nothing said is cut short so any more.
pub fn front(count: usize, bytes: &[u8]) -> &[u8]
    ensures { result.now ≡ take count bytes.now }
{
    &bytes[..count.min(bytes.len())]
}
