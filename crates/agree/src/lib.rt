// The agreement: the keepers whose words lie on polynomials of degree at most t, found word by word.
#![tactic(auto)]

pub mod agreement;
pub mod constants;
mod step;
