// What a trial writes. Where that fails, there is nobody to tell.
use crate::line::{Line, Word};
use crate::play::Play;
use answer::shown::Answer;
use std::io::Write;
use streams::output::write_all;

// A blank, and room for the digits of the greatest number.
const NUMBER: usize = 21;

// A text of a store.
fn text<W: Write>(out: &mut W, store: Word, text: &[u8]) {
    if store == Word::Map {
        write_all(out, b"map: ");
    } else {
        write_all(out, b"journal: ");
    }
    write_all(out, text);
}

// The text of a line of the script.
fn line<W: Write>(out: &mut W, store: Word, script: &[u8], from: usize, end: usize) {
    if from > end {
        return;
    }
    if end > script.len() {
        return;
    }
    text(out, store, &script[from..end]);
}

// A number behind a blank.
fn number<W: Write>(out: &mut W, n: u64) {
    let mut text = [b' '; NUMBER];
    let end = decimal::print(&mut text, 1, n);
    write_all(out, &text[..end]);
}

// Two numbers and the end of a line.
fn numbers<W: Write>(out: &mut W, a: u64, b: u64) {
    number(out, a);
    number(out, b);
    write_all(out, b"\n");
}

// A line that is answered as it says is written where it has a name, and for the last x; any other always.
pub(crate) fn answered<W: Write>(
    out: &mut W,
    script: &[u8],
    play: Play,
    asked: Line,
    answer: Answer,
    right: bool,
) {
    if !right {
        line(out, play.store, script, asked.from, asked.end);
        write_all(out, b" DIFFERS, came");
        numbers(out, answer.number as u64, answer.value);
        return;
    }
    if asked.named && play.x >= play.upto {
        line(out, play.store, script, asked.from, asked.end);
        write_all(out, b" ok\n");
    }
}

// A line that was refused, and yet something is not as it was.
pub(crate) fn kept<W: Write>(out: &mut W, script: &[u8], play: Play, asked: Line, kept: bool) {
    if !kept {
        line(out, play.store, script, asked.from, asked.end);
        write_all(out, b" CHANGED CELLS\n");
    }
}

// How many lines went as they must, and how many not.
pub(crate) fn ended<W: Write>(out: &mut W, store: Word, right: u64, wrong: u64) {
    text(out, store, b"answers as wanted, and others:");
    numbers(out, right, wrong);
}
