// The lines of the report, written into a text of fixed room, or into bytes that are lent.
#![tactic(auto)]

pub mod line;
pub mod text;
