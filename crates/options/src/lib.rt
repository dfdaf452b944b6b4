// What each command takes, and what the words behind it have said.
#![tactic(auto)]

pub mod command;
pub mod given;
pub mod option;
pub mod places;
