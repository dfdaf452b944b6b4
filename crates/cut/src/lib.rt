// The cut: a secret and random words become a letter for each keeper.
#![tactic(auto)]

mod letters;
mod refusal;
pub mod secret;
