// Lookup: the committed value of a key at a time. Refusals 1, 3, 4, 5.
ghost use Rattle.std.specs.Prelude.{◌≡◌, length};
ghost use Rattle.answer.specs.Reply.{of_got};
ghost use Rattle.journal_store.specs.CallContracts.{lookup_decided, shaped_reply};
ghost use Rattle.journal_store.specs.Lent.{meant};

use crate::{Head, Store};
use answer::Refusal;
use rules::Value;

// What a store of good shape answers.
fn decide(store: Store<'_>, k: u32, t: u64) -> Result<Value, Refusal>
    ensures { of_got result ≡ lookup_decided k t (meant store.entry) }
{
    if k == 0 {
        return Err(Refusal::BadKey);
    }
    if t < store.low {
        return Err(Refusal::TooOld);
    }
    if journal::times::is_future(store.records, store.low, t) {
        return Err(Refusal::Future);
    }
    Ok(values::value::value_at(store.base, store.records, k, t))
}

// The value of k at t.
pub fn lookup(
    h: Head,
    keys: &[u32],
    values: &[u32],
    journal: &[u8],
    k: u32,
    t: u64,
) -> Result<Value, Refusal>
    ensures { of_got result ≡ shaped_reply h keys.now values.now journal.now (lookup_decided k t) }
{
    Store::new(h, keys, values, journal).and_then(|store| decide(store, k, t))
}
