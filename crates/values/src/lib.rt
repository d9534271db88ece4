// Rules 3.4 and 3.5 over a base and a journal: the value of a key at a time, and a read.
#![tactic(auto)]

pub mod base;
mod kept;
pub mod value;
