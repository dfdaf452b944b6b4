// The command that joins a tray: which letters, the secret, and what is said of the keepers.
#![tactic(auto)]

mod found;
pub mod joining;
pub mod newer;
