// The public calls, of plain numbers and slices. The crate exports_c hands them to C, Rust and Python.
#![tactic(auto)]

pub mod comparing;
pub mod cutting;
pub mod hosts;
pub mod joining;
pub mod keeping;
pub mod picking;
pub mod reading;
mod told;
