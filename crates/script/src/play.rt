// Where a run of the script stands.
ghost use Rattle.std.specs.Prelude.{◌≡◌};
ghost use Rattle.script.specs.Play.{started, passed_line, each, when, again, meant, asking, after};

use crate::line::{Call, Word};
use std::num::{wrapping_add_u64, wrapping_add_usize};

// The store's word and the next line; the block that is repeated, from its first line on, for each x up to the last; up to which x the lines behind
// a `when` run, and whether they are passed over now; whether lines are for this store; whether the line before the next asks something of it.
#[derive(Clone, Copy)]
pub struct Play {
    pub store: Word,
    pub at: usize,
    first: usize,
    pub x: u64,
    last: u64,
    pub upto: u64,
    passed: bool,
    on: bool,
    pub asks: bool,
}

impl Play {
    pub(crate) fn new(store: Word) -> Self
        ensures { result ≡ started store }
    {
        Play {
            store,
            at: 0,
            first: 0,
            x: 0,
            last: 0,
            upto: 0,
            passed: false,
            on: false,
            asks: false,
        }
    }

    // Behind a line that ends at a place and asks nothing.
    fn moved(mut self, end: usize) -> Self
        ensures { result ≡ passed_line self end }
    {
        self.at = wrapping_add_usize(end, 1);
        self.asks = false;
        self
    }

    // A block starts.
    fn each(mut self, a: u64, b: u64) -> Self
        ensures { result ≡ each self a b }
    {
        self.first = self.at;
        self.x = a;
        self.last = b;
        self.upto = b;
        self
    }

    // The lines that follow are for some x.
    fn when(mut self, a: u64, b: u64) -> Self
        ensures { result ≡ when self a b }
    {
        self.upto = b;
        self.passed = self.x < a || b < self.x;
        self
    }

    // A block ends: it is run again, for the next x, up to the last.
    fn again(mut self) -> Self
        ensures { result ≡ again self }
    {
        self.upto = self.last;
        self.passed = false;
        if self.x < self.last {
            self.x = wrapping_add_u64(self.x, 1);
            self.at = self.first;
        }
        self
    }

    // The lines that follow are for some stores.
    fn meant(mut self, word: Word) -> Self
        ensures { result ≡ meant self word }
    {
        let store = self.store;
        let either = matches!(store, Word::Journal | Word::Map);
        self.on = store == word || word == Word::Both && either;
        self
    }

    // A line that says nothing of others asks something, if it has a word and is for this store and this x.
    fn asking(mut self, word: Word) -> Self
        ensures { result ≡ asking self word }
    {
        self.asks = self.on && !self.passed && word != Word::Missing;
        self
    }

    // After a line: behind it, or at the block's first line again.
    pub(crate) fn after(self, call: Call, end: usize) -> Self
        ensures { result ≡ after self call end }
    {
        let play = self.moved(end);
        match call.word {
            Word::Each => play.each(call.a, call.b),
            Word::When => play.when(call.a, call.b),
            Word::Again => play.again(),
            word if word.names_stores() => play.meant(word),
            word => play.asking(word),
        }
    }
}
