// The options: the word of each, and sets of them.
ghost use Rattle.std.specs.Prelude.{◌≡◌};
ghost use Rattle.std.specs.List.{find};
ghost use Rattle.std.specs.Str.{bytes_eq};
ghost use Rattle.options.specs.Words.{option_word, OptionOf};

#[derive(Clone, Copy, Debug, PartialEq, Eq)]
pub enum Opt {
    Order,
    Key,
    Stamp,
    Keeper,
    Length,
    Replace,
    From,
    Keepers,
    Help,
    // all that follows it are names
    Names,
}

const ALL: [Opt; 10] = [
    Opt::Order,
    Opt::Key,
    Opt::Stamp,
    Opt::Keeper,
    Opt::Length,
    Opt::Replace,
    Opt::From,
    Opt::Keepers,
    Opt::Help,
    Opt::Names,
];

impl Opt {
    pub fn word(self) -> &'static str
        ensures { result.now ≡ option_word self }
    {
        match self {
            Opt::Order => "--order",
            Opt::Key => "--key",
            Opt::Stamp => "--stamp",
            Opt::Keeper => "--keeper",
            Opt::Length => "--length",
            Opt::Replace => "--replace",
            Opt::From => "--from",
            Opt::Keepers => "--keepers",
            Opt::Help => "--help",
            Opt::Names => "--",
        }
    }

    // The option that a word is.
    pub fn of(word: &[u8]) -> Option<Opt>
        ensures first { result ≡ find (λ option. bytes_eq (option_word option) word.now) ALL }
        ensures of { OptionOf word.now result }
    {
        ALL.iter()
            .copied()
            .find(|option| option.word().as_bytes() == word)
    }

    // Whether the word behind it is its value.
    pub fn has_value(self) -> bool {
        !matches!(self, Opt::Replace | Opt::Help | Opt::Names)
    }

    fn bit(self) -> u32 {
        1 << (self as u32)
    }
}

// Some of the options, a bit for each.
#[derive(Clone, Copy, Debug, PartialEq, Eq, Default)]
pub struct Opts {
    bits: u32,
}

impl Opts {
    pub fn has(self, option: Opt) -> bool {
        self.bits & option.bit() != 0
    }

    // These and one more.
    pub fn with(self, option: Opt) -> Opts {
        Opts {
            bits: self.bits | option.bit(),
        }
    }
}
