// Texts and numbers, written into lent bytes from a place on, or one behind the other into a text of fixed room.
ghost use Rattle.std.specs.Prelude.{◌≡◌, ◌+◌, ◌<◌, ◌≤◌, ◌++◌, [], length};
ghost use Rattle.lines.specs.Text.{decimal};
ghost use Rattle.lines.specs.Written.{Written};

use std::marker::Model;

// Writes bytes, and answers the place after them.
pub fn put(out: &mut [u8], at: usize, bytes: &[u8]) -> usize
    requires { at + length bytes.now ≤ length out.old }
    ensures { Written out.old at bytes.now out.new result }
{
    let end = at + bytes.len();
    out[at..end].copy_from_slice(bytes);
    end
}

// The byte of one digit.
fn digit(n: u32) -> u8
    requires { n < 10 }
    ensures { result ≡ 48 + n }
{
    b'0' + n as u8
}

// Writes a number in decimal, what stands before its last digit first, and answers the place after it.
pub fn put_decimal(out: &mut [u8], at: usize, n: u32) -> usize
    requires { at + 10 ≤ length out.old }
    ensures { Written out.old at (decimal n) out.new result }
{
    if n < 10 {
        out[at] = digit(n);
        at + 1
    } else {
        let last = put_decimal(out, at, n / 10);
        out[last] = digit(n % 10);
        last + 1
    }
}

// A text of at most N bytes. A clause sees the bytes that are written.
#[derive(Drop)]
pub struct Text<const N: usize> {
    room: [u8; N],
    count: usize,
}

impl<const N: usize> Model for Text<N> {
    ghost use Rattle.std.specs.Prelude.{ℕ, List, ◌≤◌, take};

    ghost Value = { List ℕ };

    ghost view = { λ t. take t.count t.room };

    ghost invariant = { λ t. t.count ≤ N };
}

impl<const N: usize> Text<N> {
    pub fn new() -> Text<N>
        ensures { result ≡ [] }
    {
        Text {
            room: [0; N],
            count: 0,
        }
    }

    // The bytes that are written.
    pub fn bytes(&self) -> &[u8]
        ensures value { result.now ≡ self.now }
        ensures fits { length result.now ≤ N }
    {
        let room = &self.room[..];
        &room[..self.count]
    }

    // Writes bytes.
    pub fn put(&mut self, bytes: &[u8])
        requires { length self.old + length bytes.now ≤ N }
        ensures written { self.new ≡ self.old ++ bytes.now }
        ensures len { length self.new ≡ length self.old + length bytes.now }
    {
        self.count = put(&mut self.room, self.count, bytes);
    }

    // Writes a number in decimal.
    pub fn put_decimal(&mut self, n: u32)
        requires { length self.old + 10 ≤ N }
        ensures written { self.new ≡ self.old ++ decimal n }
        ensures at_most { length self.new ≤ length self.old + 10 }
    {
        self.count = put_decimal(&mut self.room, self.count, n);
    }

    // Writes a number after its name.
    pub fn put_named(&mut self, name: &[u8], n: u32)
        requires { length self.old + length name.now + 10 ≤ N }
        ensures written { self.new ≡ self.old ++ (name.now ++ decimal n) }
        ensures at_most { length self.new ≤ length self.old + length name.now + 10 }
    {
        self.put(name);
        self.put_decimal(n);
    }
}
