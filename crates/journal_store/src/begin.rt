// Begin: a new transaction with a snapshot from low to last. Refusals 1, 4, 5, 6, 7, 12.
ghost use Rattle.std.specs.Prelude.{◌≡◌, length};
ghost use Rattle.rules.specs.Kinds.{begun as begun_by};
ghost use Rattle.rules.specs.Calls.{Begin};
ghost use Rattle.answer.specs.Reply.{of_begun};
ghost use Rattle.journal_store.specs.CallContracts.{Decided, Wrote};
ghost use Rattle.journal_store.specs.Lent.{meant, room_in};

use crate::{Head, Store};
use answer::{Outcome, Refusal};
use journal::Journal;
use rules::Record;

// The record that it writes.
fn begun(n: u32, t: u64) -> Record
    ensures { result ≡ begun_by n t }
{
    Record {
        time: t,
        ..crate::blank(Record::BEGIN, n)
    }
}

// What a store of good shape answers.
fn decide(store: Store<'_>, t: u64) -> Result<u32, Refusal>
    ensures { Decided (Begin t) (room_in store.entry) (meant store.entry) (of_begun result) }
{
    if t < store.low {
        return Err(Refusal::TooOld);
    }
    if journal::times::is_future(store.records, store.low, t) {
        return Err(Refusal::Future);
    }
    let running = journal::transactions::count_running(store.records);
    if Journal::RUNNING <= running {
        return Err(Refusal::TooMany);
    }
    let next = journal::times::next(store.records, store.floor);
    if Journal::NO_NUMBER <= next {
        return Err(Refusal::NoNumbers);
    }
    store.with_room(2 + running)?;
    Ok(next)
}

// Begins a transaction that reads as of t, and answers its number.
pub fn begin(
    h: Head,
    keys: &[u32],
    values: &[u32],
    journal: &mut [u8],
    t: u64,
) -> Outcome<Head, u32>
    ensures { Wrote (Begin t) h keys.now values.now journal.old (of_begun result.answer) result.head journal.new }
{
    let answer = Store::new(h, keys, values, journal).and_then(|store| decide(store, t));
    let Ok(n) = answer else {
        return Outcome { head: h, answer };
    };
    let head = crate::put(h, journal, begun(n, t));
    Outcome { head, answer }
}
