// Abort: a running transaction ends without effect. Refusals 1, 2, 12.
ghost use Rattle.std.specs.Prelude.{◌≡◌, length};
ghost use Rattle.rules.specs.Calls.{Abort};
ghost use Rattle.answer.specs.Reply.{of_done};
ghost use Rattle.journal_store.specs.CallContracts.{Decided, Wrote};
ghost use Rattle.journal_store.specs.Lent.{meant, room_in};

use crate::{Head, Store};
use answer::{Outcome, Refusal};
use rules::Record;

// What a store of good shape answers.
fn decide(store: Store<'_>, n: u32) -> Result<(), Refusal>
    ensures { Decided (Abort n) (room_in store.entry) (meant store.entry) (of_done result) }
{
    if !journal::transactions::runs(store.records, n) {
        return Err(Refusal::UnknownTransaction);
    }
    store.with_room(1)
}

// Ends a running transaction; its updates have no effect.
pub fn abort(h: Head, keys: &[u32], values: &[u32], journal: &mut [u8], n: u32) -> Outcome<Head, ()>
    ensures { Wrote (Abort n) h keys.now values.now journal.old (of_done result.answer) result.head journal.new }
{
    let answer = Store::new(h, keys, values, journal).and_then(|store| decide(store, n));
    let Ok(()) = answer else {
        return Outcome { head: h, answer };
    };
    let head = crate::put(h, journal, crate::blank(Record::ABORT, n));
    Outcome { head, answer }
}
