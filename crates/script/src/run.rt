// A run of the script on a store.
ghost use Rattle.std.specs.Prelude.{◌≡◌, ℕ, ⊤};
ghost use Rattle.answer.specs.declared.shown.Answer.{Answer};
ghost use Rattle.script.specs.declared.line.Call.{Call};
ghost use Rattle.script.specs.Run.{fresh, goes, read, judged_by};
ghost use Rattle.script.specs.Follow.{Follows};

use crate::line;
use crate::line::{Call, Line, Spells, Word};
use crate::play::Play;
use crate::tally::Tally;
use answer::shown::Answer;
use std::io::Write;
use std::num::wrapping_add_u32;

// Bytes enough for a script.
pub const SCRIPT: usize = 32768;

// A store that a trial makes calls of.
pub trait Store {
    // What a call may make of a store, and answer: anything, where a store does not say it.
    ghost turns: { Self → Call → Self → Answer → Type 0 } = { λ _ _ _ _. ⊤ };

    // What may be the sum of one: any number, where a store does not say it.
    ghost sums: { Self → ℕ → Type 0 } = { λ _ _. ⊤ };

    // What a line asks is done, and answered.
    fn turn(&mut self, call: Call) -> Answer
        ensures { turns self.old call self.new result };

    // A sum of the head and all cells.
    fn sum(&self) -> u64
        ensures { sums self.now result };
}

// Where it stands, the line that was read last, what came of the lines before it, and how many were read.
#[derive(Clone, Copy)]
pub struct Run {
    pub play: Play,
    pub line: Line,
    tally: Tally,
    turns: u32,
}

impl Run {
    // More turns than a script makes.
    const TURNS: u32 = 1000000;

    pub fn new<W: Spells>(store: W) -> Self
        ensures { result ≡ fresh (W.word store) }
    {
        Run {
            play: Play::new(store.word()),
            line: line::empty(),
            tally: Tally::new(),
            turns: 0,
        }
    }

    // Whether a line is left.
    pub fn goes(self, script: &[u8]) -> bool
        ensures { result ≡ goes script.now self }
    {
        self.turns < Run::TURNS && self.play.at < script.len()
    }

    // The next line is read, and says which follows.
    pub fn read(self, script: &[u8]) -> Self
        ensures { result ≡ read script.now self }
    {
        let play = self.play;
        let line = line::read(script, play.at, play.x);
        Run {
            play: play.after(line.call, line.end),
            line,
            turns: wrapping_add_u32(self.turns, 1),
            ..self
        }
    }

    // What the line was answered, and a sum of the store's cells after it, are judged.
    pub fn judged<W: Write>(self, out: &mut W, script: &[u8], answer: Answer, sum: u64) -> Self
        ensures { result ≡ judged_by self answer sum }
    {
        let tally = self
            .tally
            .judged(out, script, self.play, self.line, answer, sum);
        Run { tally, ..self }
    }

    // The run is over.
    pub fn ended<W: Write>(self, out: &mut W) {
        self.tally.ended(out, self.play.store);
    }
}

// The script on a store, for which the lines behind its word are: where the run ends. A line says which is next, so that no `for` counts them.
pub fn follow<W: Write, S: Store>(out: &mut W, script: &[u8], word: Word, store: &mut S) -> Run
    ensures { Follows S.turns S.sums script.now (fresh word) store.old result store.new }
{
    let mut run = Run::new(word);
    while run.goes(script) {
        run = run.read(script);
        if run.play.asks {
            let answer = store.turn(run.line.call);
            run = run.judged(out, script, answer, store.sum());
        }
    }
    run.ended(out);
    run
}

#[cfg(test)]
mod tests {
    use super::*;
    use std::io::Cursor;

    // A store that says neither its turns nor its sums. It answers three calls with the first number of each, and refuses those after them. Of the
    // refused calls the first changes its sum, and no later one does.
    #[derive(Drop)]
    struct Three {
        calls: u64,
    }

    impl Store for Three {
        fn turn(&mut self, call: Call) -> Answer {
            self.calls = self.calls.wrapping_add(1);
            if self.calls > 3 {
                return Answer::alone(Call::NO_CALL);
            }
            Answer::beside(0, call.a)
        }

        fn sum(&self) -> u64 {
            self.calls.min(4)
        }
    }

    #[test]
    fn follows_a_store_that_says_nothing(rt: HostRuntime) {
        let script =
            b"both\nbegin 5 = 0 5\njournal\nbegin 6\nmap\nlast: abort 7 = 0 7\nread 8 = 0 9\nread 9 = 99\nkept: read 9 = 99\n";
        let wanted =
            b"map: last: abort 7 = 0 7 ok\nmap: read 8 = 0 9 DIFFERS, came 0 8\nmap: read 9 = 99 CHANGED CELLS\nmap: kept: read 9 = 99 ok\nmap: answers as wanted, and others: 3 2\n\0";
        let mut out = Cursor::new([0u8; 162]);
        let mut store = Three { calls: 0 };
        let run = follow(&mut out, script, Word::Map, &mut store);
        assert_eq!(rt; store.calls, 5);
        assert_eq!(rt; run.play.at, script.len());
        assert_eq!(rt; out.into_inner().as_slice(), wanted.as_slice());
    }
}
