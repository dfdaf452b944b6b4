// The middle layer of the format: the order, key, stamp and length that a call is told, the header words that say them, and whether these are right.
#![tactic(auto)]

pub mod head;
pub mod order;
pub mod rules;
pub mod terms;
pub mod told;
