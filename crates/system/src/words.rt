// The words that the program was called with. The first is the program's own name.
ghost use Rattle.std.specs.Prelude.{◌≤◌, length, IfSome};

use std::env::FillError;
use std::rt::Env;

// A word, put at the start of a room. Where it is longer than that there is none, and the room has as much of it as there is room for.
pub fn word<'a>(rt: &HostRuntime, at: usize, room: &'a mut [u8]) -> Option<&'a [u8]>
    ensures { IfSome result (λ word. length word.now ≤ length room.old) }
{
    match rt.arg(at, room) {
        Ok(count) => Some(&room[..count]),
        Err(_) => None,
    }
}

fn is_missing(rt: &HostRuntime, at: usize) -> bool {
    matches!(rt.arg(at, &mut [0u8; 1]), Err(FillError::NotPresent))
}

// How many words there are.
pub fn word_count(rt: &HostRuntime) -> usize {
    for at in 0..usize::MAX {
        if is_missing(rt, at) {
            return at;
        }
    }
    usize::MAX
}
