// What every call with a secret is told: an order and a key, a stamp and a length.
ghost use Rattle.std.specs.Prelude.{◌≡◌};
ghost use Rattle.refusals.specs.Numbers.{code_of};
ghost use Rattle.header.specs.Terms.{lawful_stamp, lawful_length, terms_number};

use crate::told::Told;
use refusals::Refusal;

#[derive(Clone, Copy, Debug, PartialEq, Eq)]
pub struct Terms {
    pub told: Told,
    pub stamp: u32,
    pub length: usize,
}

pub fn lawful_stamp(stamp: u32) -> bool
    ensures { result ≡ lawful_stamp stamp }
{
    1 <= stamp
}

pub fn lawful_length(l: usize) -> bool
    ensures { result ≡ lawful_length l }
{
    (1..=952).contains(&l)
}

impl Terms {
    // The first that is not lawful refuses: what the letters are of, the length, the stamp.
    #[tactic(auto, unfolding(crate::specs::Terms::terms_number))]
    pub fn judge(self) -> Result<(), Refusal>
        ensures { code_of result ≡ terms_number self.told self.stamp self.length }
    {
        if !self.told.is_lawful() {
            return Err(Refusal::NotLawful);
        }
        if !lawful_length(self.length) {
            return Err(Refusal::Length);
        }
        if !lawful_stamp(self.stamp) {
            return Err(Refusal::Stamp);
        }
        Ok(())
    }
}
