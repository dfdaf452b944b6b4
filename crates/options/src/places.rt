// The places of the words behind a command, one after the other.
use system::words::word_count;

#[derive(Drop)]
pub struct Places {
    pub at: usize,
    pub end: usize,
}

impl Places {
    // The words 0 and 1 are the program and the command.
    pub fn behind_command(rt: &HostRuntime) -> Places {
        Places {
            at: 2,
            end: word_count(rt),
        }
    }
}

impl Iterator for Places {
    ghost use Rattle.std.specs.Prelude.{◌≤◌};
    ghost use Rattle.std.specs.Iterator.{at_most};
    ghost use Rattle.options.specs.Places.{left};

    type Item = usize;

    ghost remaining = { λ p. at_most (left p) };

    ghost next_gives = { λ before _ after. left after ≤ left before };

    fn next(&mut self) -> Option<usize> {
        if self.at >= self.end {
            return None;
        }
        let place = self.at;
        self.at += 1;
        Some(place)
    }
}
