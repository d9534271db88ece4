// A line of the script, read byte by byte.
ghost use Rattle.std.specs.Prelude.{◌≡◌, false};
ghost use Rattle.script.specs.declared.line.Word.{Word};
ghost use Rattle.script.specs.Line.{word_of, blank, spelt, noted, counted, moved_to, closed, taken, call_of, names_stores, line_of, line_at};

use std::num::{wrapping_add_u64, wrapping_add_usize};

// What a line's word says. First the calls; then what else can be done to a store, to begin with an empty one and to put bytes into its journal; then
// what a line says of the lines behind it: which are repeated, for which x they are, and for which stores: for the journal store and the map store,
// for one of the two, or for a journal store with less room or all the room there can be. Last any other word, by its letters, and none.
#[derive(Clone, Copy, Debug, PartialEq, Eq)]
pub enum Word {
    Begin,
    Assign,
    Add,
    Abort,
    Commit,
    Read,
    Lookup,
    List,
    Checkpoint,
    Recover,
    Store,
    Fill,
    Each,
    Again,
    When,
    Both,
    Journal,
    Map,
    Single,
    Narrow,
    Long,
    Other(u32),
    Missing,
}

// What spells a word: the word itself, or the number of its last three letters.
pub trait Spells {
    ghost word: { Self → Word };

    fn word(self) -> Word
        ensures { result ≡ word self };
}

// What a line asks of a store: a word, and up to three numbers, as times or counts and as numbers of transactions, keys and values.
#[derive(Clone, Copy)]
pub struct Call {
    pub word: Word,
    pub a: u64,
    pub b: u64,
    pub c: u64,
    pub n: u32,
    pub k: u32,
    pub v: u32,
}

// A line: what it asks, the answer that it wants (a number of section 6, and 1 where a value stands beside it), whether it has a name, and where in
// the script it stands. Number, flag and value are three, since they are compared with those of `answer::shown::Answer`, the struct of the C interface.
#[derive(Clone, Copy)]
pub struct Line {
    pub call: Call,
    pub number: u64,
    pub value: u64,
    pub present: u32,
    pub named: bool,
    pub from: usize,
    pub end: usize,
}

// What is read of a line: the last letters of its word and its numbers, the place of the next one, and whether it has begun.
#[derive(Clone, Copy)]
pub struct Reading {
    word: u32,
    numbers: [u64; Reading::NUMBERS],
    place: usize,
    begun: bool,
    named: bool,
}

impl Word {
    // Whether it says for which stores the lines behind it are.
    pub(crate) fn names_stores(self) -> bool
        ensures { result ≡ names_stores self }
    {
        matches!(
            self,
            Word::Both | Word::Journal | Word::Map | Word::Single | Word::Narrow | Word::Long
        )
    }
}

impl From<u32> for Word {
    // A word is told by its last three letters, which are the bytes of the number.
    #[tactic(auto, unfolding(crate::specs::Line::word_of))]
    fn from(letters: u32) -> Word
        ensures { result ≡ word_of letters }
    {
        match letters {
            0 => Word::Missing,
            0x67696e => Word::Begin,
            0x69676e => Word::Assign,
            0x616464 => Word::Add,
            0x6f7274 => Word::Abort,
            0x6d6974 => Word::Commit,
            0x656164 => Word::Read,
            0x6b7570 => Word::Lookup,
            0x697374 => Word::List,
            0x696e74 => Word::Checkpoint,
            0x766572 => Word::Recover,
            0x6f7265 => Word::Store,
            0x696c6c => Word::Fill,
            0x616368 => Word::Each,
            0x61696e => Word::Again,
            0x68656e => Word::When,
            0x6f7468 => Word::Both,
            0x6e616c => Word::Journal,
            0x6d6170 => Word::Map,
            0x676c65 => Word::Single,
            0x726f77 => Word::Narrow,
            0x6f6e67 => Word::Long,
            _ => Word::Other(letters),
        }
    }
}

impl Spells for Word {
    ghost word = { λ w. w };

    fn word(self) -> Word {
        self
    }
}

impl Spells for u32 {
    ghost word = { word_of };

    fn word(self) -> Word {
        Word::from(self)
    }
}

impl Call {
    // What a line is answered whose word is no call of the store: no line wants this number.
    pub const NO_CALL: u32 = 99;
}

impl Reading {
    // How many numbers a line has: three that it asks with, and two of the wanted answer, which start at the fourth place. Behind a `#` no number has
    // a place.
    const NUMBERS: usize = 5;

    const WANT: usize = 3;

    const NOWHERE: usize = 6;

    // The tenth part of the greatest number, and one more.
    const TENTH: u64 = 1844674407370955162;

    // What is below a number of 32 bits.
    const BITS32: u64 = 4294967296;

    // A line of which nothing is read yet.
    fn new(named: bool) -> Self
        ensures { result ≡ blank named }
    {
        Reading {
            word: 0,
            numbers: [0; Reading::NUMBERS],
            place: 0,
            begun: false,
            named,
        }
    }

    // One letter more of the word, unless a number stands before it.
    fn spelt(mut self, letter: u8) -> Self
        ensures { result ≡ spelt self letter }
    {
        if self.place != 0 {
            return self;
        }
        self.word = self.word % 65536 * 256 + letter as u32;
        self
    }

    // The next number is known so far.
    fn noted(mut self, number: u64) -> Self
        ensures { result ≡ noted self number }
    {
        let place = self.place % Reading::NUMBERS;
        self.numbers[place] = number;
        self.begun = true;
        self
    }

    // One digit more of the next number.
    fn counted(self, digit: u8) -> Self
        ensures { result ≡ counted self digit }
    {
        let place = self.place % Reading::NUMBERS;
        let number = self.numbers[place];
        self.noted(wrapping_add_u64(number % Reading::TENTH * 10, digit as u64))
    }

    // The next number stands at a place.
    fn moved(mut self, place: usize) -> Self
        ensures { result ≡ moved_to self place }
    {
        self.place = place;
        self.begun = false;
        self
    }

    // The next number, if it has begun, is read whole.
    fn closed(self) -> Self
        ensures { result ≡ closed self }
    {
        if self.begun {
            return self.moved(wrapping_add_usize(self.place, 1));
        }
        self
    }

    // One byte more. What stands before a colon is the line's name, and what stands behind a `#` is no part of it; a byte below the digits parts words
    // and numbers, and one above them is a letter.
    fn taken(self, byte: u8, x: u64) -> Self
        ensures { result ≡ taken self byte x }
    {
        if self.place >= Reading::NUMBERS {
            return self;
        }
        match byte {
            b':' => Reading::new(true),
            b'x' => self.noted(x),
            b'=' => self.moved(Reading::WANT),
            b'#' => self.moved(Reading::NOWHERE),
            b'0'..=b'9' => self.counted(byte - b'0'),
            _ if byte < b'0' => self.closed(),
            _ => self.spelt(byte),
        }
    }

    // What the line asks.
    fn call(self) -> Call
        ensures { result ≡ call_of self }
    {
        let numbers = self.numbers;
        let a = numbers[0];
        let b = numbers[1];
        let c = numbers[2];
        Call {
            word: Word::from(self.word),
            a,
            b,
            c,
            n: (a % Reading::BITS32) as u32,
            k: (b % Reading::BITS32) as u32,
            v: (c % Reading::BITS32) as u32,
        }
    }

    // The line, which stands between two places of the script.
    fn line(self, from: usize, end: usize) -> Line
        ensures { result ≡ line_of self from end }
    {
        let numbers = self.numbers;
        let call = self.call();
        Line {
            call,
            number: numbers[Reading::WANT],
            value: numbers[4],
            present: (self.place == Reading::NUMBERS) as u32,
            named: self.named,
            from,
            end,
        }
    }
}

// A line that says nothing.
pub(crate) fn empty() -> Line
    ensures { result ≡ line_of (blank false) 0 0 }
{
    Reading::new(false).line(0, 0)
}

// The line of the script that starts at a place. In it `x` stands for a number.
pub(crate) fn read(script: &[u8], from: usize, x: u64) -> Line
    ensures { result ≡ line_at script.now from x }
{
    let mut reading = Reading::new(false);
    for i in from..script.len() {
        if script[i] == b'\n' {
            return reading.closed().line(from, i);
        }
        reading = reading.taken(script[i], x);
    }
    reading.closed().line(from, from.max(script.len()))
}
