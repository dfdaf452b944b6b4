// The upper layer of the format: a letter, how it stands in a slot of 2,048 bytes, and what a slot reads as.
#![tactic(auto)]

pub mod letter;
pub mod reader;
