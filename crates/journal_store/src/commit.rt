// Commit: the updates of a running transaction take effect at a time later than last. Refusals 1, 2, 10, 11, 12.
ghost use Rattle.std.specs.Prelude.{◌≡◌, length};
ghost use Rattle.rules.specs.Kinds.{committed as committed_by};
ghost use Rattle.rules.specs.Calls.{Commit};
ghost use Rattle.answer.specs.Reply.{of_done};
ghost use Rattle.journal_store.specs.CallContracts.{Decided, Wrote};
ghost use Rattle.journal_store.specs.Lent.{meant, room_in};

use crate::{Head, Store};
use answer::{Outcome, Refusal};
use rules::Record;

// The record that it writes.
fn committed(n: u32, t: u64) -> Record
    ensures { result ≡ committed_by n t }
{
    Record {
        time: t,
        ..crate::blank(Record::COMMIT, n)
    }
}

// What a store of good shape answers.
fn decide(store: Store<'_>, n: u32, t: u64) -> Result<(), Refusal>
    ensures { Decided (Commit n t) (room_in store.entry) (meant store.entry) (of_done result) }
{
    let trace = journal::transactions::follow(store.records, n);
    if !trace.runs() {
        return Err(Refusal::UnknownTransaction);
    }
    let last = journal::times::last(store.records, store.low);
    if t <= last {
        return Err(Refusal::NotLater);
    }
    if conflict::conflict(store.records, n, trace.snapshot, last) {
        return Err(Refusal::Conflict);
    }
    store.with_room(1)
}

// Commits a running transaction at t.
pub fn commit(
    h: Head,
    keys: &[u32],
    values: &[u32],
    journal: &mut [u8],
    n: u32,
    t: u64,
) -> Outcome<Head, ()>
    ensures { Wrote (Commit n t) h keys.now values.now journal.old (of_done result.answer) result.head journal.new }
{
    let answer = Store::new(h, keys, values, journal).and_then(|store| decide(store, n, t));
    let Ok(()) = answer else {
        return Outcome { head: h, answer };
    };
    let head = crate::put(h, journal, committed(n, t));
    Outcome { head, answer }
}
