// A line of what is said to people, made piece by piece and written at once.
ghost use Rattle.std.specs.Prelude.{◌≤◌};
ghost use Rattle.io.specs.Counts.{IsPrefixLen};

use crate::reason::add_reason;
use std::fmt;
use std::io::Error;
use system::output::{Stream, put};

// How many bytes a line has at most, with the one that ends it.
const ROOM: usize = 8192;

// What is longer than the room is cut off there.
#[derive(Drop)]
pub struct Line {
    bytes: [u8; ROOM],
    count: usize,
    ghost fits: { count ≤ 8192 },
}

// A byte as it is shown: a control byte in a name could move the cursor, or end the line.
fn shown(byte: u8) -> u8 {
    if byte.is_ascii_control() { b'?' } else { byte }
}

// Puts bytes from a place on, as far as there is room, and answers the place after them.
pub fn add(out: &mut [u8], at: usize, bytes: &[u8]) -> usize
    ensures { IsPrefixLen result out.new }
{
    let start = at.min(out.len());
    let room = &mut out[start..];
    let count = bytes.len().min(room.len());
    for (place, byte) in room.iter_mut().zip(bytes) {
        *place = shown(*byte);
    }
    start + count
}

// Ends the line that stands there, in the last byte where there is no room behind it.
fn end(out: &mut [u8], count: usize) -> usize
    ensures { IsPrefixLen result out.new }
{
    if out.is_empty() {
        return 0;
    }
    let last = count.min(out.len() - 1);
    out[last] = b'\n';
    last + 1
}

// Ends the line and writes it to a stream. Whether all of it was written.
pub fn tell(rt: &HostRuntime, to: Stream, out: &mut [u8], count: usize) -> bool {
    let whole = end(out, count);
    put(rt, to, &out[..whole]).is_ok()
}

impl Line {
    // The start of each line: the program's name.
    pub fn new() -> Line {
        let mut line = Line {
            bytes: [0; ROOM],
            count: 0,
        };
        line.add(b"csalgodes: ");
        line
    }

    // Puts bytes behind what stands there, as far as there is room.
    pub fn add(&mut self, bytes: &[u8]) {
        self.count = add(&mut self.bytes, self.count, bytes);
    }

    // Puts a colon and the reason there.
    pub fn add_reason(&mut self, error: Error) {
        self.count = add_reason(&mut self.bytes, self.count, error);
    }

    // Ends the line and writes it to a stream. Whether all of it was written.
    pub fn tell(mut self, rt: &HostRuntime, to: Stream) -> bool {
        let count = self.count;
        tell(rt, to, &mut self.bytes, count)
    }

    // Writes it to standard error, as far as that takes it.
    pub fn say(self, rt: &HostRuntime) {
        self.tell(rt, Stream::Error);
    }
}

// Puts a text there, for `write!`.
impl fmt::Write for Line {
    fn write_str(&mut self, text: &str) -> fmt::Result {
        self.add(text.as_bytes());
        Ok(())
    }
}
