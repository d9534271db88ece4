// Writing a whole text.
ghost use Rattle.std.specs.Prelude.{◌≤◌, length, take};
ghost use Rattle.std.specs.Io.KnownBytes.{Appends};
ghost use Rattle.streams.specs.Moves.{Within, count_of};

use crate::moves::{Fault, moved_of, next_step};
use std::io::Write;
use std::ops::ControlFlow;

// One write of what is left.
fn write_on<W: Write>(writer: &mut W, rest: &[u8]) -> Result<usize, Fault>
    ensures within { Within result (length rest.now) }
    ensures bytes { Appends (W.contents writer.old) (W.contents writer.new) (take (count_of result) rest.now) }
{
    moved_of(writer.write(rest))
}

// How many bytes of the text were taken, fewer than all where a write failed. A write that takes a part is followed by one of the rest, and an
// interrupted one is tried again; one that takes nothing would not take more the next time.
pub fn write_all<W: Write>(writer: &mut W, text: &[u8]) -> usize
    ensures within { result ≤ length text.now }
    ensures bytes { Appends (W.contents writer.old) (W.contents writer.new) (take result text.now) }
{
    // Each call moves as many bytes as it will, so that no `for` counts them.
    let mut done = 0;
    let mut left = Fault::INTERRUPTIONS;
    while done < text.len() {
        let moved = write_on(writer, &text[done..]);
        let ControlFlow::Continue((bytes, interruptions)) = next_step(moved, done, left) else {
            return done;
        };
        done = bytes;
        left = interruptions;
    }
    done
}

// One line on standard error. Where that fails too, there is nobody to tell.
pub fn say<E: Write>(error: &mut E, line: &[u8]) {
    write_all(error, line);
}

// A text to standard output, and the line that tells how the program ended.
pub fn print<O: Write, E: Write>(output: &mut O, error: &mut E, text: &[u8], line: &[u8]) {
    if write_all(output, text) < text.len() {
        say(error, b"listing: the listing could not be written\n");
        return;
    }
    say(error, line);
}
