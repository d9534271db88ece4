// The library for hosts in C, C++ and Rust: every call of `registers` by the C calling convention, with the same clauses. A function of its own for each,
// since no crate builds on a static library.
#![tactic(auto)]

pub mod about;
pub mod journal_calls;
pub mod map_calls;
