// Writing files, whole or not at all: new files beside their places, and folders of letters.
#![tactic(auto)]

pub mod folder;
pub mod save;
mod temp;
