// The journal store's recovery: the store as its surviving bytes tell it, after a restart. Refusals 1, 13.
#![tactic(auto)]

ghost use Rattle.std.specs.Prelude.{◌≡◌, None};
ghost use Rattle.std.specs.Result.{result_unwrap_or};
ghost use Rattle.answer.specs.Reply.{of_done, of_result};
ghost use Rattle.journal_store.specs.CallContracts.{rising_keys, is_recoverable, Recovered};

use answer::{Outcome, Refusal};
use journal::{Base, Journal};
use journal_store::Head;
use record::Records;
use rules::Record;

// Whether keys strictly rise from 1.
fn rises(keys: &[u32]) -> bool
    ensures { result ≡ rising_keys 0 keys.now }
{
    let mut before = 0;
    for key in keys {
        if *key <= before {
            return false;
        }
        before = *key;
    }
    true
}

// Section 6, number 1, for recover: the head's used count is ignored.
fn shaped(h: Head, keys: &[u32], values: usize, bytes: usize, survived: usize) -> bool
    ensures { result ≡ is_recoverable h keys.now values bytes survived }
{
    let rows = h.base.rows;
    rows <= Base::ROWS
        && rows <= keys.len()
        && keys.len() == values
        && survived <= Journal::RECORDS * Record::BYTES
        && survived <= bytes
        && h.floor != 0
        && rises(&keys[..rows])
}

// The head of the recovered store, or why it stays as it was.
fn restore(
    h: Head,
    keys: &[u32],
    values: &[u32],
    journal: &mut [u8],
    survived: usize,
) -> Result<Head, Refusal>
    ensures { Recovered h keys.now values.now journal.old survived (of_result (λ _. None) result) (result_unwrap_or result h) journal.new }
{
    if !shaped(h, keys, values.len(), journal.len(), survived) {
        return Err(Refusal::BadShape);
    }
    let used = survived / Record::BYTES;
    let records = Records::new(journal, used);
    if let Some(place) = walk::walk(records, h.low) {
        return Err(Refusal::BadRecord(place));
    }
    let floor = journal::times::next(records, h.floor);
    let kept = compact::keep_done(journal, used, h.low, survived);
    Ok(Head {
        floor,
        journal: Journal { used: kept },
        ..h
    })
}

// Takes the surviving bytes for the journal: transactions without a commit are dropped, the rest moves up.
pub fn recover(
    h: Head,
    keys: &[u32],
    values: &[u32],
    journal: &mut [u8],
    survived: usize,
) -> Outcome<Head, ()>
    ensures { Recovered h keys.now values.now journal.old survived (of_done result.answer) result.head journal.new }
{
    Outcome::of(h, restore(h, keys, values, journal, survived))
}
