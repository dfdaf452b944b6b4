// The commands on letters and desks: files in, one call of the library's, files out. Each says how the program ends.
#![tactic(auto)]

pub mod cutting;
mod desks;
pub mod fetching;
pub mod reading;
pub mod storing;
pub mod told;
