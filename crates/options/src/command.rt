// The commands: the word of each, which options it needs and takes, and what its files are called.
ghost use Rattle.std.specs.Prelude.{◌≡◌};
ghost use Rattle.std.specs.List.{find};
ghost use Rattle.std.specs.Str.{bytes_eq};
ghost use Rattle.options.specs.Words.{command_word, CommandOf};

use crate::option::Opt;

#[derive(Clone, Copy, Debug, PartialEq, Eq)]
pub enum Command {
    Cut,
    Show,
    Store,
    Fetch,
    Join,
    Compare,
    MoveCut,
    MoveWeigh,
    MoveCheck,
}

// One of the two names that a command takes.
#[derive(Clone, Copy, Debug, PartialEq, Eq)]
pub enum Name {
    First,
    Second,
}

const ALL: [Command; 9] = [
    Command::Cut,
    Command::Show,
    Command::Store,
    Command::Fetch,
    Command::Join,
    Command::Compare,
    Command::MoveCut,
    Command::MoveWeigh,
    Command::MoveCheck,
];

impl Command {
    pub fn word(self) -> &'static str
        ensures { result.now ≡ command_word self }
    {
        match self {
            Command::Cut => "cut",
            Command::Show => "show",
            Command::Store => "store",
            Command::Fetch => "fetch",
            Command::Join => "join",
            Command::Compare => "compare",
            Command::MoveCut => "move-cut",
            Command::MoveWeigh => "move-weigh",
            Command::MoveCheck => "move-check",
        }
    }

    // The command that a word is.
    pub fn of(word: &[u8]) -> Option<Command>
        ensures first { result ≡ find (λ command. bytes_eq (command_word command) word.now) ALL }
        ensures of { CommandOf word.now result }
    {
        ALL.iter()
            .copied()
            .find(|command| command.word().as_bytes() == word)
    }

    // The options that it cannot be without.
    pub fn needs(self) -> &'static [Opt] {
        match self {
            Command::Cut => &[Opt::Order, Opt::Key, Opt::Stamp],
            Command::Show => &[],
            Command::Store | Command::Fetch => &[Opt::Order, Opt::Key, Opt::Keeper],
            Command::Join => &[Opt::Order, Opt::Key],
            Command::Compare => &[Opt::Order],
            Command::MoveCut => &[
                Opt::Order,
                Opt::Key,
                Opt::Stamp,
                Opt::Keeper,
                Opt::Length,
                Opt::From,
            ],
            Command::MoveWeigh => &[
                Opt::Order,
                Opt::Key,
                Opt::Stamp,
                Opt::Keeper,
                Opt::Length,
                Opt::From,
                Opt::Keepers,
            ],
            Command::MoveCheck => &[Opt::Order, Opt::Key, Opt::From],
        }
    }

    // The options that it can be without.
    fn allows(self) -> &'static [Opt] {
        match self {
            Command::Fetch | Command::MoveWeigh => &[Opt::Replace, Opt::Help, Opt::Names],
            Command::Join => &[Opt::Stamp, Opt::Length, Opt::Replace, Opt::Help, Opt::Names],
            _ => &[Opt::Help, Opt::Names],
        }
    }

    pub fn takes(self, option: Opt) -> bool {
        self.needs().contains(&option) || self.allows().contains(&option)
    }

    // What its first file or folder is called, and its second where it has one.
    pub fn names(self) -> (&'static str, Option<&'static str>) {
        match self {
            Command::Cut => ("SECRET", Some("FOLDER")),
            Command::Show => ("LETTER", None),
            Command::Store | Command::Fetch => ("DESK", Some("LETTER")),
            Command::Join => ("TRAY", Some("SECRET")),
            Command::Compare => ("BEFORE", Some("AFTER")),
            Command::MoveCut => ("LETTER", Some("FOLDER")),
            Command::MoveWeigh => ("FOLDER", Some("LETTER")),
            Command::MoveCheck => ("OLD", Some("NEW")),
        }
    }

    // In the place of which name standard input or output can stand.
    pub fn dash(self) -> Option<Name> {
        match self {
            Command::Cut | Command::Show | Command::MoveCut => Some(Name::First),
            Command::Store | Command::Fetch | Command::Join | Command::MoveWeigh => {
                Some(Name::Second)
            }
            Command::Compare | Command::MoveCheck => None,
        }
    }
}
