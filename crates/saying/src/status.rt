// What the program ends with where not all went well.
ghost use Rattle.std.specs.Prelude.{◌≡◌};
ghost use Rattle.saying.specs.Status.{code};

#[derive(Clone, Copy, Debug, PartialEq, Eq)]
pub enum Status {
    // a call was refused: the number that it gave
    Answered(u8),
    // what was compared differs
    Differs,
    // a file could not be read, written or taken
    Failed,
    // a word was wrong
    Misused,
}

impl Status {
    // What the system is told.
    pub fn code(self) -> u8
        ensures { result ≡ code self }
    {
        match self {
            Status::Answered(number) => number,
            Status::Differs => 99,
            Status::Failed => 100,
            Status::Misused => 101,
        }
    }
}
