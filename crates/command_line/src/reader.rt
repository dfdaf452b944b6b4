// One word at a time: an option with its value, or a name.
ghost use Rattle.std.specs.Prelude.{◌≤◌};
ghost use Rattle.options.specs.Places.{left};

use files::load::{front, is_dash};
use header::order::Order;
use numerals::list::list;
use numerals::number;
use numerals::order::order;
use options::command::{Command, Name};
use options::given::Given;
use options::option::Opt;
use options::places::Places;
use saying::status::Status;
use saying::wrong;
use system::words::word as word_at;

// Reads for one command.
#[derive(Drop)]
pub struct Reader<'a> {
    rt: &'a HostRuntime,
    command: Command,
    // what the words said so far
    pub given: Given,
}

// Whether a word has the form of an option: it begins with - and has more behind it.
fn is_option(word: &[u8]) -> bool {
    matches!(word, [b'-', _, ..])
}

impl<'a> Reader<'a> {
    // Before any word is read.
    pub fn new(rt: &'a HostRuntime, command: Command) -> Reader<'a> {
        Reader {
            rt,
            command,
            given: Given::new(),
        }
    }

    // Says which word is wrong, and by which rule.
    fn wrong(&self, word: &[u8], rule: &[u8]) -> Status {
        wrong(self.rt, self.command.word().as_bytes(), word, rule)
    }

    // The file that has no name yet, and what it is called.
    fn unnamed(&self) -> Option<(Name, &'static str)> {
        let (first, second) = self.command.names();
        match (self.given.first, self.given.second) {
            (None, _) => Some((Name::First, first)),
            (Some(_), None) => second.map(|called| (Name::Second, called)),
            (Some(_), Some(_)) => None,
        }
    }

    fn name(&mut self, at: usize, word: &[u8]) -> Result<(), Status> {
        if word.is_empty() {
            return Err(self.wrong(word, b"an empty word names no file"));
        }
        let Some((name, _)) = self.unnamed() else {
            return Err(self.wrong(word, b"is one name too many"));
        };
        if is_dash(word) && self.command.dash() != Some(name) {
            return Err(self.wrong(word, b"a file or folder goes here; one of that name is ./-"));
        }
        match name {
            Name::First => self.given.first = Some(at),
            Name::Second => self.given.second = Some(at),
        }
        Ok(())
    }

    fn order(&self, word: &[u8]) -> Result<Order, Status> {
        let Some(read) = order(word) else {
            return Err(self.wrong(
                word,
                b"an order is three numbers with commas between them, as 2,1,8",
            ));
        };
        Ok(Order {
            t: read.t as usize,
            f: read.f as usize,
            n: read.n as usize,
        })
    }

    fn number(&self, word: &[u8]) -> Result<u32, Status> {
        let Some(read) = number(word) else {
            return Err(self.wrong(
                word,
                b"a number has one to ten digits, and is at most 4294967295",
            ));
        };
        Ok(read)
    }

    // Who wants the numbers of a list reads the word again.
    fn is_list(&self, word: &[u8]) -> Result<(), Status> {
        if list(word, &mut [0u32; 8]).is_none() {
            return Err(self.wrong(
                word,
                b"old keepers are one to eight numbers with commas between them, as 1,3,4",
            ));
        }
        Ok(())
    }

    // The value of an option: the word behind it, and its place.
    fn value<'r>(
        &self,
        option: Opt,
        places: &mut Places,
        room: &'r mut [u8],
    ) -> Result<(usize, &'r [u8]), Status>
        ensures { left places.new ≤ left places.old }
    {
        let word = option.word().as_bytes();
        let Some(at) = places.next() else {
            return Err(self.wrong(word, b"a value must follow it"));
        };
        let Some(value) = word_at(self.rt, at, room) else {
            return Err(self.wrong(word, b"the word behind it is too long to be its value"));
        };
        Ok((at, value))
    }

    // An option that the command takes and that was not given before.
    fn new_option(&mut self, option: Opt, places: &mut Places) -> Result<(), Status>
        ensures { left places.new ≤ left places.old }
    {
        self.given.seen = self.given.seen.with(option);
        if !option.has_value() {
            return Ok(());
        }
        let mut room = io::buffer();
        let (at, word) = self.value(option, places, &mut room)?;
        match option {
            Opt::Order => self.given.terms.told.order = self.order(word)?,
            Opt::Key => self.given.terms.told.key = self.number(word)? as usize,
            Opt::Stamp => self.given.terms.stamp = self.number(word)?,
            Opt::Keeper => self.given.keeper = self.number(word)? as usize,
            Opt::Length => self.given.terms.length = self.number(word)? as usize,
            Opt::From => self.given.old = self.order(word)?,
            Opt::Keepers => {
                self.is_list(word)?;
                self.given.keepers = Some(at);
            }
            Opt::Replace | Opt::Help | Opt::Names => {}
        }
        Ok(())
    }

    fn option(&mut self, word: &[u8], places: &mut Places) -> Result<(), Status>
        ensures { left places.new ≤ left places.old }
    {
        let Some(option) = Opt::of(word) else {
            return Err(self.wrong(
                word,
                b"there is no such option; before a name that begins with - write --",
            ));
        };
        if !self.command.takes(option) {
            return Err(self.wrong(word, b"is no option of this command"));
        }
        if self.given.has(option) {
            return Err(self.wrong(word, b"is given twice"));
        }
        self.new_option(option, places)
    }

    // Reads the word at a place, and its value where it is an option.
    pub fn step(&mut self, at: usize, places: &mut Places) -> Result<(), Status>
        ensures { left places.new ≤ left places.old }
    {
        let mut room = io::buffer();
        let Some(word) = word_at(self.rt, at, &mut room) else {
            return Err(self.wrong(front(64, &room), b"begins a word of more than 4096 bytes"));
        };
        if self.given.has(Opt::Names) || !is_option(word) {
            self.name(at, word)
        } else {
            self.option(word, places)
        }
    }

    // Sees that all is there that the command needs.
    pub fn whole(&self) -> Result<(), Status> {
        let missing = self
            .command
            .needs()
            .iter()
            .copied()
            .find(|option| !self.given.has(*option));
        if let Some(option) = missing {
            return Err(self.wrong(option.word().as_bytes(), b"is missing"));
        }
        if self.command == Command::Join
            && self.given.has(Opt::Stamp) != self.given.has(Opt::Length)
        {
            return Err(self.wrong(
                Opt::Stamp.word().as_bytes(),
                b"goes with --length: give both to join just those, or neither",
            ));
        }
        if let Some((_, called)) = self.unnamed() {
            return Err(self.wrong(
                called.as_bytes(),
                b"is missing, the name of a file or a folder",
            ));
        }
        Ok(())
    }
}
