// Share words: a list of constants and random words become a row of words for each keeper.
#![tactic(auto)]

pub mod columns;
pub mod lent;
pub mod rows;
pub mod value;
pub mod words;
