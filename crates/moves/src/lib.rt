// The commands that move a key to new keepers: an old keeper's letter cut anew, and sub-letters weighed into a new keeper's letter.
#![tactic(auto)]

use moving::terms::Move;
use options::given::Given;

pub mod cutting;
pub mod gathering;

// The move that the words tell of.
fn move_of(g: &Given) -> Move {
    Move {
        old: g.old,
        told: g.terms.told,
        stamp: g.terms.stamp,
        length: g.terms.length,
    }
}
