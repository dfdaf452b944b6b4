// The lowest layer of the format: words as bytes, and a block of 256 words with its check, whatever the words mean.
#![tactic(auto)]

pub mod bounds;
pub mod bytes;
pub mod check;
mod weights;
pub mod words;
