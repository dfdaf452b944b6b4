// What a letter is of, as a call is told it: an order, and the number of the key that was cut.
ghost use Rattle.std.specs.Prelude.{◌≡◌};
ghost use Rattle.header.specs.Told.{lawful_told};

use crate::order::Order;

#[derive(Clone, Copy, Debug, PartialEq, Eq)]
pub struct Told {
    pub order: Order,
    pub key: usize,
}

impl Told {
    #[tactic(auto, unfolding(crate::specs::Told::lawful_told))]
    pub fn is_lawful(self) -> bool
        ensures { result ≡ lawful_told self }
    {
        self.order.is_lawful() && self.key <= 255
    }
}
