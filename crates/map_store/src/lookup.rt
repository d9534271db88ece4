// Lookup: the value of a key at a time from low to last. Refusals 1, 3, 4, 5.
ghost use Rattle.std.specs.Prelude.{◌≡◌};
ghost use Rattle.answer.specs.Reply.{of_got, told};
ghost use Rattle.versions.specs.Versions.{columns, value_at};
ghost use Rattle.map_store.specs.Meaning.{lookup_refusal};
ghost use Rattle.map_store.specs.CallContracts.{lookup_reply};
ghost use Rattle.map_store.specs.Lent.{meant};

use crate::{MapHead, Store};
use answer::Refusal;
use rules::Value;

// What a store of good shape answers.
fn decide(store: Store<'_>, k: u32, t: u64) -> Result<Value, Refusal>
    ensures { of_got result ≡ told (lookup_refusal k t (meant store.entry)) (value_at k t (meant store.entry).versions) }
{
    if k == 0 {
        return Err(Refusal::BadKey);
    }
    if t < store.head.low {
        return Err(Refusal::TooOld);
    }
    if store.head.last < t {
        return Err(Refusal::Future);
    }
    Ok(versions::value_at(store.stamps, store.values, k, t))
}

// The value of k at t, or absent.
pub fn lookup(
    h: MapHead,
    keys: &[u32],
    times: &[u64],
    values: &[u32],
    marks: &[u8],
    k: u32,
    t: u64,
) -> Result<Value, Refusal>
    ensures { of_got result ≡ lookup_reply k t h (columns keys.now times.now values.now marks.now) }
{
    Store::new(&h, keys, times, values, marks).and_then(|store| decide(store, k, t))
}
