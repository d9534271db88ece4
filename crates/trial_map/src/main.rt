// Runs a script of calls on the map store, and compares each answer with the one that the script gives. The script is the file `stdin` beside this
// folder; at its top stands what its lines mean.
#![tactic(auto)]

use calls::Lent;
use script::line::Word;
use script::run;
use std::io;
use streams::input;

mod calls;

// A script that cannot be read is not run.
fn main(rt: HostRuntime) -> io::Result<()> {
    let mut buffer = [0u8; run::SCRIPT];
    let count = input::read_all(&mut rt.stdin(), &mut buffer)?;
    run::follow(
        &mut rt.stdout(),
        &buffer[..count],
        Word::Map,
        &mut Lent::empty(),
    );
    Ok(())
}
