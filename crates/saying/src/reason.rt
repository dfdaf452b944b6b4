// The system's own words for why something failed.
ghost use Rattle.std.specs.Prelude.{◌≡◌, ◌≤◌, length, take};
ghost use Rattle.io.specs.Counts.{IsPrefixLen};

use crate::line::add;
use std::io::{Error, Write};

// Puts the words of an error at the start of a room, as far as there is room.
fn put_words(out: &mut [u8], error: Error) -> &[u8]
    ensures { length result.now ≤ length out.old }
{
    let all = out.len();
    let mut rest = &mut out[..];
    let _ = write!(rest, "{error}");
    let count = all.saturating_sub(rest.len());
    &out[..count]
}

// The words without the number that the library puts behind those of the system, as " (os error 2)".
fn without_number(words: &[u8]) -> &[u8]
    ensures { result.now ≡ take (length result.now) words.now }
{
    match words.iter().rposition(|&byte| byte == b'(') {
        Some(opening) if opening > 0 => &words[..opening - 1],
        _ => words,
    }
}

// Puts a colon and the reason from a place on, and answers the place after them.
pub fn add_reason(out: &mut [u8], at: usize, error: Error) -> usize
    ensures { IsPrefixLen result out.new }
{
    let mut room = [0u8; 256];
    let words = put_words(&mut room, error);
    let colon = add(out, at, b": ");
    if error.raw_os_error().is_some() {
        add(out, colon, without_number(words))
    } else {
        add(out, colon, words)
    }
}
