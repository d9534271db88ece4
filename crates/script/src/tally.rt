// What came of the lines of a script.
ghost use Rattle.std.specs.Prelude.{◌≡◌};
ghost use Rattle.script.specs.Tally.{is_wanted, none, counted, judged};

use crate::line::{Line, Word};
use crate::play::Play;
use crate::say;
use answer::shown::Answer;
use std::io::Write;
use std::num::wrapping_add_u64;

// How many lines went as they must, and how many not; and the sum of the store's cells after the last.
#[derive(Clone, Copy)]
pub struct Tally {
    right: u64,
    wrong: u64,
    sum: u64,
}

impl Tally {
    pub(crate) fn new() -> Self
        ensures { result ≡ none }
    {
        Tally {
            right: 0,
            wrong: 0,
            sum: 0,
        }
    }

    // One line more, after which the cells have a sum.
    fn counted(self, right: bool, sum: u64) -> Self
        ensures { result ≡ counted self right sum }
    {
        if right {
            return Tally {
                right: wrapping_add_u64(self.right, 1),
                sum,
                ..self
            };
        }
        Tally {
            wrong: wrapping_add_u64(self.wrong, 1),
            sum,
            ..self
        }
    }

    // A line is as it must be if the answer is the wanted one and a refused call left the cells as they were.
    pub(crate) fn judged<W: Write>(
        self,
        out: &mut W,
        script: &[u8],
        play: Play,
        line: Line,
        answer: Answer,
        sum: u64,
    ) -> Self
        ensures { result ≡ judged self line answer sum }
    {
        let right = is_wanted(answer, line);
        let kept = answer.number == 0 || sum == self.sum;
        say::answered(out, script, play, line, answer, right);
        say::kept(out, script, play, line, kept);
        self.counted(right && kept, sum)
    }

    // The run is over.
    pub(crate) fn ended<W: Write>(self, out: &mut W, store: Word) {
        say::ended(out, store, self.right, self.wrong);
    }
}

// Whether an answer is the one that a line wants.
fn is_wanted(answer: Answer, line: Line) -> bool
    ensures { result ≡ is_wanted answer line }
{
    answer.number as u64 == line.number
        && answer.present == line.present
        && answer.value == line.value
}
