// An order: how many letters tell nothing of the secret, how many keepers may lie, how many keepers there are.
ghost use Rattle.std.specs.Prelude.{◌≡◌};
ghost use Rattle.header.specs.Order.{lawful_order, lawful_keeper};

#[derive(Clone, Copy, Debug, PartialEq, Eq)]
pub struct Order {
    pub t: usize,
    pub f: usize,
    pub n: usize,
}

impl Order {
    #[tactic(auto, unfolding(crate::specs::Order::lawful_order))]
    pub fn is_lawful(self) -> bool
        ensures { result ≡ lawful_order self }
    {
        (1..=7).contains(&self.t)
            && self.f <= self.t
            && (self.t + 4 * self.f + 1..=16).contains(&self.n)
    }

    // Whether there is a keeper of this number.
    #[tactic(auto, unfolding(crate::specs::Order::lawful_keeper))]
    pub fn has_keeper(self, keeper: usize) -> bool
        ensures { result ≡ lawful_keeper self keeper }
    {
        (1..=self.n).contains(&keeper)
    }
}
