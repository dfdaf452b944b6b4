// Trays as folders of slots: loading one, and the command that compares two.
#![tactic(auto)]

pub mod comparing;
pub mod loading;
