// The journal store's checkpoint: the base becomes the list at a time, and the journal keeps what is still needed. Refusals 1, 4, 5, 9, 12.
#![tactic(auto)]

ghost use Rattle.std.specs.Prelude.{◌≡◌, ◌+◌, ◌<◌, ◌≤◌, None, length};
ghost use Rattle.std.specs.Result.{result_unwrap_or};
ghost use Rattle.rules.specs.Limits.{most_records, most_rows};
ghost use Rattle.rules.specs.Calls.{checkpoint_refusal, list_of};
ghost use Rattle.answer.specs.Reply.{of_done, of_result, told};
ghost use Rattle.journal_store.specs.Shape.{Shaped, meaning, row_room};
ghost use Rattle.journal_store.specs.CallContracts.{Checkpointed, Settled};
ghost use Rattle.journal_store.specs.Lent.{meant};

use answer::{Outcome, Refusal};
use journal::{Base, Journal};
use journal_store::{Head, Store};
use record::Records;
use values::base::BaseRows;

// What a store of good shape answers before it is known whether the list fits.
fn decide(store: Store<'_>, t: u64) -> Result<(), Refusal>
    ensures { of_done result ≡ told (checkpoint_refusal t (meant store.entry)) None }
{
    if t < store.low {
        return Err(Refusal::TooOld);
    }
    if journal::times::is_future(store.records, store.low, t) {
        return Err(Refusal::Future);
    }
    if journal::transactions::held(store.records, t) {
        return Err(Refusal::Held);
    }
    Ok(())
}

// The list at t, made aside in two columns of N cells, since it is read from the base; where it fits it becomes the base. How many rows it has.
// Head and columns come apart, since a `Store` only lends the base to be read.
fn settle_in<const N: usize>(
    h: Head,
    keys: &mut [u32],
    values: &mut [u32],
    journal: &[u8],
    t: u64,
) -> Result<usize, Refusal>
    requires { Shaped h (length keys.old) (length values.old) (length journal.now) × (h.base.rows + h.journal.used < N) × (N ≤ most_rows + most_records + 1) }
    ensures { Settled (row_room (length keys.old)) (list_of t (meaning h keys.old values.old journal.now)) keys.old values.old result keys.new values.new }
{
    let mut listed = [0u32; N];
    let mut contents = [0u32; N];
    let base = BaseRows::new(keys, values, h.base.rows);
    let records = Records::new(journal, h.journal.used);
    let count = listing::listing(base, records, t, &mut listed, &mut contents);
    if Base::ROWS.min(keys.len()) < count {
        return Err(Refusal::NoRoom);
    }
    column::copy(&listed, count, keys);
    column::copy(&contents, count, values);
    Ok(count)
}

// The same with columns of its own: a short store gets short ones, with a cell for each base row and each record, and a spare one.
fn settle(
    h: Head,
    keys: &mut [u32],
    values: &mut [u32],
    journal: &[u8],
    t: u64,
) -> Result<usize, Refusal>
    requires { Shaped h (length keys.old) (length values.old) (length journal.now) }
    ensures { Settled (row_room (length keys.old)) (list_of t (meaning h keys.old values.old journal.now)) keys.old values.old result keys.new values.new }
{
    if h.base.rows + h.journal.used < Journal::FEW {
        settle_in::<{ Journal::FEW }>(h, keys, values, journal, t)
    } else {
        settle_in::<{ listing::CELLS }>(h, keys, values, journal, t)
    }
}

// The head of the shortened store, or why it stays as it was.
fn shorten(
    h: Head,
    keys: &mut [u32],
    values: &mut [u32],
    journal: &mut [u8],
    t: u64,
) -> Result<Head, Refusal>
    ensures { Checkpointed t h keys.old values.old journal.old (of_result (λ _. None) result) (result_unwrap_or result h) keys.new values.new journal.new }
{
    let store = Store::new(h, keys, values, journal)?;
    decide(store, t)?;
    let floor = journal::times::next(store.records, h.floor);
    let rows = settle(h, keys, values, journal, t)?;
    let used = compact::keep_running(journal, h.journal.used, t);
    Ok(Head {
        low: t,
        floor,
        base: Base { rows },
        journal: Journal { used },
    })
}

// Shortens the store: times below t are too old from then on, and every list from t on is as it was.
pub fn checkpoint(
    h: Head,
    keys: &mut [u32],
    values: &mut [u32],
    journal: &mut [u8],
    t: u64,
) -> Outcome<Head, ()>
    ensures { Checkpointed t h keys.old values.old journal.old (of_done result.answer) result.head keys.new values.new journal.new }
{
    Outcome::of(h, shorten(h, keys, values, journal, t))
}
