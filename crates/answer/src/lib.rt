// Section 6: what the calls of both stores answer: `Ok` with what the call gives, or `Err` with why it was refused.
#![tactic(auto)]

ghost use Rattle.std.specs.Prelude.{◌≡◌, None};
ghost use Rattle.std.specs.Result.{result_unwrap_or};
ghost use Rattle.answer.specs.Reply.{number_of, place_of, of_done, of_result};

pub mod shown;

// Why a call was refused, in the order of the numbers.
#[derive(Clone, Copy)]
pub enum Refusal {
    BadShape,
    UnknownTransaction,
    BadKey,
    TooOld,
    Future,
    TooMany,
    NoNumbers,
    KeysFull,
    Held,
    NotLater,
    Conflict,
    NoRoom,
    BadRecord(usize),
}

impl Refusal {
    // The number of section 6. A method, since `u32::from` would not say whether it is the number or the place.
    pub fn number(self) -> u32
        ensures { result ≡ number_of self }
    {
        match self {
            Refusal::BadShape => 1,
            Refusal::UnknownTransaction => 2,
            Refusal::BadKey => 3,
            Refusal::TooOld => 4,
            Refusal::Future => 5,
            Refusal::TooMany => 6,
            Refusal::NoNumbers => 7,
            Refusal::KeysFull => 8,
            Refusal::Held => 9,
            Refusal::NotLater => 10,
            Refusal::Conflict => 11,
            Refusal::NoRoom => 12,
            Refusal::BadRecord(_) => 13,
        }
    }

    // The place of the record that refusal 13 names, none for the others.
    pub fn place(self) -> Option<usize>
        ensures { result ≡ place_of self }
    {
        match self {
            Refusal::BadRecord(place) => Some(place),
            _ => None,
        }
    }
}

// What a call that changes a store returns: the head to use from then on, and its answer. A refused call gives the head back as it was.
#[derive(Clone, Copy)]
pub struct Outcome<H, T> {
    pub head: H,
    pub answer: Result<T, Refusal>,
}

impl<H: Copy> Outcome<H, ()> {
    // Of a call that makes a new head or refuses: a refused one gives back the head before it.
    pub fn of(before: H, after: Result<H, Refusal>) -> Self
        ensures head { result.head ≡ result_unwrap_or after before }
        ensures answer { of_done result.answer ≡ of_result (λ _. None) after }
    {
        match after {
            Ok(head) => Outcome {
                head,
                answer: Ok(()),
            },
            Err(why) => Outcome {
                head: before,
                answer: Err(why),
            },
        }
    }
}
