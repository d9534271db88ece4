// What one call of read or write did, and what follows it. Reading and writing share it.
ghost use Rattle.std.specs.Prelude.{◌≡◌, ◌≢◌, ◌↔◌, ◌-◌, ◌^◌, ◌<◌, pos, IfOk, IfErr, Err};
ghost use Rattle.std.specs.IoError.{error_kind};
ghost use Rattle.streams.specs.Moves.{moved_by, step_of, Within};

use crate::input::ReadFailed;
use std::io;
use std::io::ErrorKind;
use std::ops::ControlFlow;

// Why one call of read or write moved no byte and is not the end: a signal came first, or it failed.
#[derive(Clone, Copy, Debug, PartialEq, Eq)]
pub enum Fault {
    Interrupted,
    Failed,
}

impl Fault {
    // How often a signal may interrupt the calls on one file. No run comes near it; but a proved loop ends, and a device that only ever
    // interrupts is told as one that failed, within seconds.
    pub const INTERRUPTIONS: usize = 1000000;
}

// C's number of an interruption, and of an input or output that failed.
pub const EINTR: i32 = 4;

const EIO: i32 = 5;

// What C's answer and errno say: how many bytes were moved, none at the end, or why not. It takes C's numbers, since its promise is on them (`moved_by`,
// docs/PROMISES.md).
pub fn moved_by(answer: isize, error: i32) -> Result<usize, Fault>
    ensures { result ≡ moved_by answer error }
{
    if answer >= 0 {
        return Ok(answer as usize);
    }
    if error == EINTR {
        return Err(Fault::Interrupted);
    }
    Err(Fault::Failed)
}

// C's errno for a call that failed. Of it only whether the call was interrupted counts, and a reader or writer that is no file tells that too.
fn error_of(error: &io::Error) -> i32
    ensures { (result ≡ pos 4) ↔ (error_kind error.now ≡ ErrorKind.Interrupted) }
{
    if error.kind() == ErrorKind::Interrupted {
        return EINTR;
    }
    EIO
}

// What std's answer says, told as C tells it: a count, or -1 and errno.
pub(crate) fn moved_of(answer: io::Result<usize>) -> Result<usize, Fault>
    requires { IfOk answer (λ n. n < 2 ^ 63) }
    ensures count { IfOk answer (λ n. result ≡ moved_by (pos n) (pos 0)) }
    ensures interrupted { IfErr answer (λ e. error_kind e ≡ ErrorKind.Interrupted → result ≡ Err Fault.Interrupted) }
    ensures failed { IfErr answer (λ e. error_kind e ≢ ErrorKind.Interrupted → result ≡ Err Fault.Failed) }
{
    match answer {
        Ok(count) => moved_by(count as isize, 0),
        Err(error) => moved_by(-1, error_of(&error)),
    }
}

// What follows a call, after so many bytes and with so many interruptions left: to go on, with so many bytes done and so many interruptions left,
// or to stop with what the input gave.
pub fn next_step(
    moved: Result<usize, Fault>,
    done: usize,
    left: usize,
) -> ControlFlow<Result<usize, ReadFailed>, (usize, usize)>
    requires { Within moved (2 ^ 64 - 1 - done) }
    ensures { result ≡ step_of moved done left }
{
    match moved {
        Ok(0) => ControlFlow::Break(Ok(done)),
        Ok(n) => ControlFlow::Continue((done + n, left)),
        Err(Fault::Interrupted) if left > 0 => ControlFlow::Continue((done, left - 1)),
        Err(_) => ControlFlow::Break(Err(ReadFailed)),
    }
}
