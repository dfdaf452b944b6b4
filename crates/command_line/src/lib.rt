// The words that a command is given, read one after the other: its options with their values, and the names.
#![tactic(auto)]

use crate::reader::Reader;
use options::command::Command;
use options::given::Given;
use options::option::Opt;
use options::places::Places;
use saying::status::Status;

mod reader;

// What the words behind a command ask for.
#[derive(Drop)]
pub enum Asked {
    Help,
    Run(Given),
}

// Reads the words behind a command, and says which one is wrong where one is.
pub fn read(rt: &HostRuntime, command: Command) -> Result<Asked, Status> {
    let mut reader = Reader::new(rt, command);
    let mut places = Places::behind_command(rt);
    while let Some(at) = places.next() {
        reader.step(at, &mut places)?;
        if reader.given.has(Opt::Help) {
            return Ok(Asked::Help);
        }
    }
    reader.whole()?;
    Ok(Asked::Run(reader.given))
}
