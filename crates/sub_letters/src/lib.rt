// What a new keeper is handed in a move: the old keepers that are told, those that the sub-letters name, and what is wrong with any of it.
#![tactic(auto)]

pub mod judging;
pub mod keepers;
pub mod subs;
