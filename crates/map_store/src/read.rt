// Read: what a running transaction reads in a key. Refusals 1, 2, 3.
ghost use Rattle.std.specs.Prelude.{◌≡◌};
ghost use Rattle.answer.specs.Reply.{of_got, told};
ghost use Rattle.versions.specs.Versions.{columns};
ghost use Rattle.map_store.specs.Meaning.{read_refusal, read_in};
ghost use Rattle.map_store.specs.CallContracts.{read_reply};
ghost use Rattle.map_store.specs.Lent.{meant};

use crate::{MapHead, Store};
use answer::Refusal;
use rules::Value;

// What a store of good shape answers.
fn decide(store: Store<'_>, n: u32, k: u32) -> Result<Value, Refusal>
    ensures { of_got result ≡ told (read_refusal n k (meant store.entry)) (read_in n k (meant store.entry)) }
{
    let slots = store.head.slots;
    let Some(i) = slots.find(n) else {
        return Err(Refusal::UnknownTransaction);
    };
    if k == 0 {
        return Err(Refusal::BadKey);
    }
    let s = slots.at(i);
    Ok(crate::current_value(s, store.stamps, store.values, k))
}

// What the transaction reads in k: the value at its snapshot, then its own updates.
pub fn read(
    h: MapHead,
    keys: &[u32],
    times: &[u64],
    values: &[u32],
    marks: &[u8],
    n: u32,
    k: u32,
) -> Result<Value, Refusal>
    ensures { of_got result ≡ read_reply n k h (columns keys.now times.now values.now marks.now) }
{
    Store::new(&h, keys, times, values, marks).and_then(|store| decide(store, n, k))
}
