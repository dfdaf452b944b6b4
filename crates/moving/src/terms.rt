// What both calls of a move are told.
ghost use Rattle.std.specs.Prelude.{◌≡◌};
ghost use Rattle.refusals.specs.Numbers.{code_of};
ghost use Rattle.moving.specs.Move.{old_told, move_number};

use header::order::Order;
use header::terms::Terms;
use header::told::Told;
use refusals::Refusal;

// The old order; the new order and the key; the new stamp; how many bytes the key has.
#[derive(Clone, Copy, Debug, PartialEq, Eq)]
pub struct Move {
    pub old: Order,
    pub told: Told,
    pub stamp: u32,
    pub length: usize,
}

impl Move {
    // What the old letters are of.
    pub fn old_told(self) -> Told
        ensures { result ≡ old_told self }
    {
        Told {
            order: self.old,
            key: self.told.key,
        }
    }

    // What the new letters are cut under.
    pub fn terms(self) -> Terms
        ensures { result ≡ record { told = self.told; stamp = self.stamp; length = self.length } }
    {
        Terms {
            told: self.told,
            stamp: self.stamp,
            length: self.length,
        }
    }

    // The first of what is told that is not lawful, where `keepers` says whether the keepers told of are in their orders.
    #[tactic(auto, unfolding(crate::specs::Move::move_number))]
    pub fn judge(self, keepers: bool) -> Result<(), Refusal>
        ensures { code_of result ≡ move_number self keepers }
    {
        if !self.old.is_lawful() || !keepers {
            return Err(Refusal::NotLawful);
        }
        self.terms().judge()
    }
}
