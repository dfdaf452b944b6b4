// What the program says to people: on standard error, in lines that name the file or the word and what is wrong with it.
#![tactic(auto)]

ghost use Rattle.std.specs.Prelude.{◌≡◌};
ghost use Rattle.saying.specs.Status.{code};

pub mod line;
pub mod numbers;
pub mod reason;
pub mod status;
pub mod table;

use crate::line::Line;
use crate::status::Status;
use std::io::Error;

// A file, and what is wrong with it.
fn about(name: &[u8], what: &[u8]) -> Line {
    let mut line = Line::new();
    line.add(name);
    line.add(b": ");
    line.add(what);
    line
}

// What is wrong with a file, and the system's own reason for it.
pub fn trouble(rt: &HostRuntime, name: &[u8], what: &[u8], error: Error) -> Status
    ensures { code result ≡ 100 }
{
    let mut line = about(name, what);
    line.add_reason(error);
    line.say(rt);
    Status::Failed
}

// What is wrong with a file, where the program itself has the reason.
pub fn refused(rt: &HostRuntime, name: &[u8], what: &[u8]) -> Status
    ensures { code result ≡ 100 }
{
    about(name, what).say(rt);
    Status::Failed
}

// Which word is wrong, and by which rule; and where the rules stand.
pub fn wrong(rt: &HostRuntime, command: &[u8], word: &[u8], rule: &[u8]) -> Status
    ensures { code result ≡ 101 }
{
    let mut line = Line::new();
    line.add(command);
    line.add(b": '");
    line.add(word);
    line.add(b"': ");
    line.add(rule);
    line.say(rt);
    let mut more = Line::new();
    more.add(b"'csalgodes help ");
    more.add(command);
    more.add(b"' says how it is used");
    more.say(rt);
    Status::Misused
}
