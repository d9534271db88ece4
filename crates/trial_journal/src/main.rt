// Runs a script of calls on the journal store, and compares each answer with the one that the script gives. The script is the file `stdin` beside
// this folder; at its top stands what its lines mean.
#![tactic(auto)]

use calls::Lent;
use journal::Journal;
use rules::Record;
use script::line::Word;
use script::run;
use std::io;
use streams::input;

mod calls;

// Rows of the base at the most.
const ROWS: usize = 64;

// Bytes of a journal of one record, of 100, and of the longest.
const ONE: usize = Record::BYTES;

const HUNDRED: usize = 100 * Record::BYTES;

const BYTES: usize = Journal::RECORDS * Record::BYTES;

// A script that cannot be read is not run.
fn main(rt: HostRuntime) -> io::Result<()> {
    let mut buffer = [0u8; run::SCRIPT];
    let count = input::read_all(&mut rt.stdin(), &mut buffer)?;
    let script = &buffer[..count];
    let mut out = rt.stdout();
    let mut journal: Lent<ROWS, HUNDRED> = Lent::empty();
    run::follow(&mut out, script, Word::Journal, &mut journal);
    let mut single: Lent<ROWS, ONE> = Lent::empty();
    run::follow(&mut out, script, Word::Single, &mut single);
    let mut narrow: Lent<1, HUNDRED> = Lent::empty();
    run::follow(&mut out, script, Word::Narrow, &mut narrow);
    let mut long: Lent<ROWS, BYTES> = Lent::empty();
    run::follow(&mut out, script, Word::Long, &mut long);
    Ok(())
}
