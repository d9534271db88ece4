// The journal store's list: every key from 1 up that is not absent at a time, once, rising, with its value. Refusals 1, 4, 5, 12.
#![tactic(auto)]

ghost use Rattle.std.specs.Prelude.{◌≡◌, ◌≤◌, length};
ghost use Rattle.answer.specs.Reply.{of_listed};
ghost use Rattle.journal_store.specs.CallContracts.{ListedBy, ListedOf};
ghost use Rattle.journal_store.specs.Lent.{meant};

use answer::Refusal;
use journal_store::{Head, Store};

// The list at a time of a store of good shape. Where the lent columns have a cell for each row that it can have, it is made in them;
// else aside, since one that does not fit is refused and changes nothing.
fn fill(
    store: Store<'_>,
    t: u64,
    listed: &mut [u32],
    contents: &mut [u32],
) -> Result<usize, Refusal>
    requires { length listed.old ≡ length contents.old }
    ensures { ListedOf (meant store.entry) t listed.old contents.old (of_listed result) listed.new contents.new }
{
    if t < store.low {
        return Err(Refusal::TooOld);
    }
    if journal::times::is_future(store.records, store.low, t) {
        return Err(Refusal::Future);
    }
    if store.base.count + store.records.used < listed.len() {
        let made = listing::listing(store.base, store.records, t, listed, contents);
        return Ok(made);
    }
    let mut aside = [0u32; listing::CELLS];
    let mut beside = [0u32; listing::CELLS];
    let count = listing::listing(store.base, store.records, t, &mut aside, &mut beside);
    if listed.len() < count {
        return Err(Refusal::NoRoom);
    }
    column::copy(&aside, count, listed);
    column::copy(&beside, count, contents);
    Ok(count)
}

// The list at t, into two lent columns: keys and values. The shape test also asks that these two are paired.
pub fn list(
    h: Head,
    keys: &[u32],
    values: &[u32],
    journal: &[u8],
    t: u64,
    listed: &mut [u32],
    contents: &mut [u32],
) -> Result<usize, Refusal>
    ensures { ListedBy h keys.now values.now journal.now t listed.old contents.old (of_listed result) listed.new contents.new }
{
    if listed.len() != contents.len() {
        return Err(Refusal::BadShape);
    }
    let store = Store::new(h, keys, values, journal)?;
    fill(store, t, listed, contents)
}
