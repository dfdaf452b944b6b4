// The move of a key to new hosts, its first half: what a move is told, and the cutting of an old keeper's letter into sub-letters.
#![tactic(auto)]

pub mod cutting;
pub mod terms;
