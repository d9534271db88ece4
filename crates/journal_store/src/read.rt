// Read: the value of a key as a running transaction sees it. Refusals 1, 2, 3.
ghost use Rattle.std.specs.Prelude.{◌≡◌, length};
ghost use Rattle.answer.specs.Reply.{of_got};
ghost use Rattle.journal_store.specs.CallContracts.{read_decided, shaped_reply};
ghost use Rattle.journal_store.specs.Lent.{meant};

use crate::{Head, Store};
use answer::Refusal;
use rules::Value;

// What a store of good shape answers.
fn decide(store: Store<'_>, n: u32, k: u32) -> Result<Value, Refusal>
    ensures { of_got result ≡ read_decided n k (meant store.entry) }
{
    let trace = journal::transactions::follow(store.records, n);
    if !trace.runs() {
        return Err(Refusal::UnknownTransaction);
    }
    if k == 0 {
        return Err(Refusal::BadKey);
    }
    Ok(values::value::read_in(store.base, store.records, n, trace.snapshot, k))
}

// The value of k at the transaction's snapshot, then its own effects on it.
pub fn read(
    h: Head,
    keys: &[u32],
    values: &[u32],
    journal: &[u8],
    n: u32,
    k: u32,
) -> Result<Value, Refusal>
    ensures { of_got result ≡ shaped_reply h keys.now values.now journal.now (read_decided n k) }
{
    Store::new(h, keys, values, journal).and_then(|store| decide(store, n, k))
}
