// Each line of the report, written behind what a text has, or into lent bytes from a place on; then the place after it is answered. No line is longer
// than 64 bytes.
ghost use Rattle.std.specs.Prelude.{◌≡◌, ◌+◌, ◌≤◌, ◌++◌, length};
ghost use Rattle.lines.specs.Lines.{key_line, word_of, keeper_line, count_line, answer_line};
ghost use Rattle.lines.specs.Text.{decimal, text};
ghost use Rattle.lines.specs.Written.{Written};

use crate::text::{Text, put, put_decimal};

// How a keeper stands.
#[derive(Clone, Copy, Debug, PartialEq, Eq)]
pub enum Standing {
    Absent,
    Present,
    Agrees,
    Differs,
}

impl Standing {
    // The word for it.
    pub fn word(self) -> &'static [u8]
        ensures value { result.now ≡ text (word_of self) }
        ensures at_most { length result.now ≤ 7 }
    {
        match self {
            Standing::Absent => b"absent",
            Standing::Present => b"present",
            Standing::Agrees => b"agrees",
            Standing::Differs => b"differs",
        }
    }
}

impl<const N: usize> Text<N> {
    #[tactic(auto, unfolding(crate::specs::Lines::three_line, crate::specs::Text::text, lists::specs::Listed::listed))]
    pub fn put_key_line(&mut self, key: u32, stamp: u32, l: u32)
        requires { length self.old + 64 ≤ N }
        ensures written { self.new ≡ self.old ++ key_line key stamp l }
        ensures at_most { length self.new ≤ length self.old + 64 }
    {
        self.put_named(b"key ", key);
        self.put_named(b" stamp ", stamp);
        self.put_named(b" length ", l);
        self.put(b"\n");
    }

    #[tactic(auto, unfolding(crate::specs::Lines::keeper_line, crate::specs::Text::text, lists::specs::Listed::listed))]
    pub fn put_keeper_line(&mut self, x: u32, s: Standing)
        requires { length self.old + 64 ≤ N }
        ensures written { self.new ≡ self.old ++ keeper_line x (word_of s) }
        ensures at_most { length self.new ≤ length self.old + 64 }
    {
        self.put_named(b"keeper ", x);
        self.put(b" ");
        self.put(s.word());
        self.put(b"\n");
    }

    #[tactic(auto, unfolding(crate::specs::Lines::three_line, crate::specs::Text::text, lists::specs::Listed::listed))]
    pub fn put_count_line(&mut self, m: u32, need: u32, agree: u32)
        requires { length self.old + 64 ≤ N }
        ensures written { self.new ≡ self.old ++ count_line m need agree }
        ensures at_most { length self.new ≤ length self.old + 64 }
    {
        self.put_named(b"usable ", m);
        self.put_named(b" need ", need);
        self.put_named(b" agree ", agree);
        self.put(b"\n");
    }

    #[tactic(auto, unfolding(crate::specs::Lines::answer_line, crate::specs::Text::text, lists::specs::Listed::listed))]
    pub fn put_answer_line(&mut self, number: u32)
        requires { length self.old + 64 ≤ N }
        ensures written { self.new ≡ self.old ++ answer_line number }
        ensures at_most { length self.new ≤ length self.old + 64 }
    {
        self.put_named(b"answer ", number);
        self.put(b"\n");
    }
}

// Writes a number after its name.
pub fn put_named(out: &mut [u8], at: usize, name: &[u8], n: u32) -> usize
    requires { at + length name.now + 10 ≤ length out.old }
    ensures written { Written out.old at (name.now ++ decimal n) out.new result }
    ensures upper_bound { result ≤ at + length name.now + 10 }
{
    let next = put(out, at, name);
    put_decimal(out, next, n)
}

pub fn put_key_line(out: &mut [u8], at: usize, key: u32, stamp: u32, l: u32) -> usize
    requires { at + 64 ≤ length out.old }
    ensures { Written out.old at (key_line key stamp l) out.new result }
{
    let mut line = Text::<64>::new();
    line.put_key_line(key, stamp, l);
    put(out, at, line.bytes())
}

pub fn put_keeper_line(out: &mut [u8], at: usize, x: u32, s: Standing) -> usize
    requires { at + 64 ≤ length out.old }
    ensures { Written out.old at (keeper_line x (word_of s)) out.new result }
{
    let mut line = Text::<64>::new();
    line.put_keeper_line(x, s);
    put(out, at, line.bytes())
}

pub fn put_count_line(out: &mut [u8], at: usize, m: u32, need: u32, agree: u32) -> usize
    requires { at + 64 ≤ length out.old }
    ensures { Written out.old at (count_line m need agree) out.new result }
{
    let mut line = Text::<64>::new();
    line.put_count_line(m, need, agree);
    put(out, at, line.bytes())
}

pub fn put_answer_line(out: &mut [u8], at: usize, number: u32) -> usize
    requires { at + 64 ≤ length out.old }
    ensures { Written out.old at (answer_line number) out.new result }
{
    let mut line = Text::<64>::new();
    line.put_answer_line(number);
    put(out, at, line.bytes())
}
