// Every call of both stores under a fixed name, for a host: on plain slices, and on structs of C's layout by value. A call hands its arguments to the
// store and gives the answer as three numbers; it decides nothing, and asks nothing of its caller. `registers_c` gives the calls to C, C++ and Rust.
// `about` gives a host what it can hold its own figures to.
#![tactic(auto)]

ghost use Rattle.std.specs.Prelude.{◌≡◌};
ghost use Rattle.answer.specs.Reply.{of_result};
ghost use Rattle.answer.specs.Shown.{answer_of};

use answer::Outcome;
use answer::shown::{Answer, Given};
use journal_store::Head;
use map_store::MapHead;

pub mod about;
pub mod journal_calls;
pub mod map_calls;

// What a call that changes the journal store returns: the head to use from then on, and the answer. One for each store, since the C interface has
// no generic struct.
#[repr(C)]
#[derive(Clone, Copy)]
pub struct JournalResult {
    pub head: Head,
    pub answer: Answer,
}

impl<T: Given> From<Outcome<Head, T>> for JournalResult {
    ghost from_gives = { λ o r. (r.head ≡ o.head) × (r.answer ≡ answer_of (of_result T.given o.answer)) };

    fn from(outcome: Outcome<Head, T>) -> Self {
        let Outcome { head, answer } = outcome;
        JournalResult {
            head,
            answer: answer.into(),
        }
    }
}

// What a call that changes the map store returns.
#[repr(C)]
#[derive(Clone, Copy)]
pub struct MapResult {
    pub head: MapHead,
    pub answer: Answer,
}

impl<T: Given> From<Outcome<MapHead, T>> for MapResult {
    ghost from_gives = { λ o r. (r.head ≡ o.head) × (r.answer ≡ answer_of (of_result T.given o.answer)) };

    fn from(outcome: Outcome<MapHead, T>) -> Self {
        let Outcome { head, answer } = outcome;
        MapResult {
            head,
            answer: answer.into(),
        }
    }
}
