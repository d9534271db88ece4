// A script of calls on a store, as the trials run it: what a line says, which line is next, and what came of it. At the top of the trials' script
// stands what its lines mean.
#![tactic(auto)]

pub mod line;
pub mod play;
pub mod rows;
pub mod run;
mod say;
pub mod tally;
