// An answer as a host gets it: three numbers.
ghost use Rattle.std.specs.Prelude.{◌≡◌, None, Some};
ghost use Rattle.rules.specs.Value.{Value};
ghost use Rattle.answer.specs.Reply.{of_result};
ghost use Rattle.answer.specs.Shown.{shown, answer_of};

use crate::Refusal;
use rules::Value;

// The number of section 6, 0 where the call was accepted, and whether a value stands beside it: 1 and the value, or 0 and 0. A flag beside a value,
// since the C interface has no Option.
#[repr(C)]
#[derive(Clone, Copy)]
pub struct Answer {
    pub number: u32,
    pub present: u32,
    pub value: u64,
}

impl Answer {
    // A number, and the value beside it.
    fn new(number: u32, value: Option<u64>) -> Self
        ensures { result ≡ shown number value }
    {
        match value {
            None => Answer {
                number,
                present: 0,
                value: 0,
            },
            Some(value) => Answer {
                number,
                present: 1,
                value,
            },
        }
    }

    // A number alone.
    pub fn alone(number: u32) -> Self
        ensures { result ≡ shown number None }
    {
        Answer::new(number, None)
    }

    // A number and a value beside it.
    pub fn beside(number: u32, value: u64) -> Self
        ensures { result ≡ shown number (Some value) }
    {
        Answer::new(number, Some(value))
    }
}

// What an accepted call gives, as the value that stands beside its number.
pub trait Given {
    ghost given: { Self → Value };

    fn given(self) -> Option<u64>
        ensures { result ≡ given self };
}

// Begin gives the transaction's number.
impl Given for u32 {
    ghost given = { λ n. Some n };

    fn given(self) -> Option<u64> {
        Some(u64::from(self))
    }
}

// A list gives the count of its rows.
impl Given for usize {
    ghost given = { λ n. Some n };

    fn given(self) -> Option<u64> {
        Some(self as u64)
    }
}

// Read and lookup give the value, or absent.
impl Given for Value {
    ghost given = { λ v. v };

    fn given(self) -> Option<u64> {
        self.map(u64::from)
    }
}

// Update, abort, commit, checkpoint and recover give nothing but their number.
impl Given for () {
    ghost given = { λ _. None };

    fn given(self) -> Option<u64> {
        None
    }
}

// A refused call has its number, 13 also its place.
impl<T: Given> From<Result<T, Refusal>> for Answer {
    ghost from_gives = { λ r a. a ≡ answer_of (of_result T.given r) };

    fn from(answer: Result<T, Refusal>) -> Self {
        match answer {
            Ok(value) => Answer::new(0, value.given()),
            Err(why) => Answer::new(why.number(), why.place().map(|place| place as u64)),
        }
    }
}
