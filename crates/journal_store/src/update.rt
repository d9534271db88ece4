// Update: a running transaction assigns or adds to a key. Refusals 1, 2, 3, 8, 12.
ghost use Rattle.std.specs.Prelude.{◌≡◌, length};
ghost use Rattle.rules.specs.Calls.{Update, updated as updated_by};
ghost use Rattle.answer.specs.Reply.{of_done};
ghost use Rattle.journal_store.specs.CallContracts.{Decided, Wrote};
ghost use Rattle.journal_store.specs.Lent.{meant, room_in};

use crate::{Head, Store};
use answer::{Outcome, Refusal};
use rules::{Effect, Record};

// The record that it writes: kind 2 assigns, kind 3 adds.
fn updated(n: u32, k: u32, e: Effect) -> Record
    ensures { result ≡ updated_by n k e }
{
    let (kind, value) = match e {
        Effect::Assign(v) => (Record::ASSIGN, v),
        Effect::Add(d) => (Record::ADD, d),
    };
    Record {
        key: k,
        value,
        ..crate::blank(kind, n)
    }
}

// What a store of good shape answers.
fn decide(store: Store<'_>, n: u32, k: u32, e: Effect) -> Result<(), Refusal>
    ensures { Decided (Update n k e) (room_in store.entry) (meant store.entry) (of_done result) }
{
    if !journal::transactions::runs(store.records, n) {
        return Err(Refusal::UnknownTransaction);
    }
    if k == 0 {
        return Err(Refusal::BadKey);
    }
    if !conflict::may_write(store.records, n, k) {
        return Err(Refusal::KeysFull);
    }
    store.with_room(1 + journal::transactions::count_running(store.records))
}

// Notes an effect of a running transaction on a key.
pub fn update(
    h: Head,
    keys: &[u32],
    values: &[u32],
    journal: &mut [u8],
    n: u32,
    k: u32,
    e: Effect,
) -> Outcome<Head, ()>
    ensures { Wrote (Update n k e) h keys.now values.now journal.old (of_done result.answer) result.head journal.new }
{
    let answer = Store::new(h, keys, values, journal).and_then(|store| decide(store, n, k, e));
    let Ok(()) = answer else {
        return Outcome { head: h, answer };
    };
    let head = crate::put(h, journal, updated(n, k, e));
    Outcome { head, answer }
}
