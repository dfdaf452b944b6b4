// What stands at a name, and files read whole.
#![tactic(auto)]

pub mod kind;
pub mod load;
