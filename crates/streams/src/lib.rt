// Reading, writing and telling, as the listing programs share them: a call of the system may move a part, be interrupted or fail, and none of these is
// taken for another.
#![tactic(auto)]

pub mod input;
pub mod moves;
pub mod output;
