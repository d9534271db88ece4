// Reading to the end of the input, where a read that failed is never taken for the end.
ghost use Rattle.std.specs.Prelude.{◌≡◌, ◌<◌, ℕ, length, take, Ok};
ghost use Rattle.std.specs.Io.KnownBytes.{Consumes, IsAtEnd};
ghost use Rattle.std.specs.IoError.{error_kind};
ghost use Rattle.streams.specs.Moves.{Within, Fits, count_of};

use crate::moves::{Fault, moved_of, next_step};
use std::error::Error;
use std::io::{ErrorKind, Read};
use std::ops::ControlFlow;
use std::{fmt, io};

// A read failed, so that nobody knows the whole input.
#[derive(Clone, Copy, Debug, PartialEq, Eq)]
pub struct ReadFailed;

impl fmt::Display for ReadFailed {
    fn fmt<W: fmt::Write>(&self, f: &mut fmt::Formatter<W>) -> fmt::Result {
        f.write_str("the input could not be read")
    }
}

impl Error for ReadFailed {}

impl From<ReadFailed> for io::Error {
    fn from(_: ReadFailed) -> io::Error
        ensures { error_kind result ≡ ErrorKind.Other }
    {
        io::Error::from(ErrorKind::Other)
    }
}

// One read into the room that is left.
fn read_on<R: Read>(reader: &mut R, room: &mut [u8]) -> Result<usize, Fault>
    ensures within { Within result (length room.old) }
    ensures bytes { Consumes (R.remaining reader.old) (R.remaining reader.new) (take (count_of result) room.new) }
    ensures end { result ≡ Ok 0 → 0 < length room.new → IsAtEnd (R.remaining reader.new) }
{
    moved_of(reader.read(room))
}

// Reads until the input ends or the buffer is full. An interrupted read is tried again.
pub fn read_all<R: Read>(reader: &mut R, buffer: &mut [u8]) -> Result<usize, ReadFailed>
    ensures within { Fits result (length buffer.new) }
    ensures bytes { (n : ℕ) → result ≡ Ok n → Consumes (R.remaining reader.old) (R.remaining reader.new) (take n buffer.new) }
    ensures end { (n : ℕ) → result ≡ Ok n → n < length buffer.new → IsAtEnd (R.remaining reader.new) }
{
    // Each call moves as many bytes as it will, so that no `for` counts them.
    let mut done = 0;
    let mut left = Fault::INTERRUPTIONS;
    while done < buffer.len() {
        let moved = read_on(reader, &mut buffer[done..]);
        match next_step(moved, done, left) {
            ControlFlow::Continue((bytes, interruptions)) => {
                done = bytes;
                left = interruptions;
            }
            ControlFlow::Break(input) => return input,
        }
    }
    Ok(done)
}
