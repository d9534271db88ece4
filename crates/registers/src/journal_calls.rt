// The calls of the journal store. Each is lent the head by value, the two base columns, keys and values, and the journal's bytes, one by one as the C
// interface has them; assign and add are two, since an effect is an enum.
ghost use Rattle.std.specs.Prelude.{◌≡◌};
ghost use Rattle.rules.specs.Calls.{Begin, Update, Abort, Commit};
ghost use Rattle.journal_store.specs.Shape.{empty_head};
ghost use Rattle.journal_store.specs.CallContracts.{Wrote, read_decided, lookup_decided, shaped_reply, ListedBy, Checkpointed, Recovered};
ghost use Rattle.registers.specs.Answer.{Answers, Returns};

use crate::JournalResult;
use answer::shown::Answer;
use journal_store::Head;
use rules::Effect;

// The head of an empty store.
pub fn registers_journal_empty() -> Head
    ensures { result ≡ empty_head }
{
    Head::empty()
}

// Begins a transaction that reads as of a time, and answers its number. Refusals 1, 4, 5, 6, 7, 12.
pub fn registers_journal_begin(
    h: Head,
    keys: &[u32],
    values: &[u32],
    journal: &mut [u8],
    time: u64,
) -> JournalResult
    ensures { Returns (λ a head. Wrote (Begin time) h keys.now values.now journal.old a head journal.new) result.head result.answer }
{
    journal_store::begin::begin(h, keys, values, journal, time).into()
}

// A running transaction gives a key a value. Refusals 1, 2, 3, 8, 12.
pub fn registers_journal_assign(
    h: Head,
    keys: &[u32],
    values: &[u32],
    journal: &mut [u8],
    transaction: u32,
    key: u32,
    value: u32,
) -> JournalResult
    ensures { Returns (λ a head. Wrote (Update transaction key (Effect.Assign value)) h keys.now values.now journal.old a head journal.new) result.head result.answer }
{
    let e = Effect::Assign(value);
    journal_store::update::update(h, keys, values, journal, transaction, key, e).into()
}

// A running transaction adds to a key. Refusals 1, 2, 3, 8, 12.
pub fn registers_journal_add(
    h: Head,
    keys: &[u32],
    values: &[u32],
    journal: &mut [u8],
    transaction: u32,
    key: u32,
    amount: u32,
) -> JournalResult
    ensures { Returns (λ a head. Wrote (Update transaction key (Effect.Add amount)) h keys.now values.now journal.old a head journal.new) result.head result.answer }
{
    let e = Effect::Add(amount);
    journal_store::update::update(h, keys, values, journal, transaction, key, e).into()
}

// Ends a running transaction; its updates have no effect. Refusals 1, 2, 12.
pub fn registers_journal_abort(
    h: Head,
    keys: &[u32],
    values: &[u32],
    journal: &mut [u8],
    transaction: u32,
) -> JournalResult
    ensures { Returns (λ a head. Wrote (Abort transaction) h keys.now values.now journal.old a head journal.new) result.head result.answer }
{
    journal_store::abort::abort(h, keys, values, journal, transaction).into()
}

// Commits a running transaction at a time later than last. Refusals 1, 2, 10, 11, 12.
pub fn registers_journal_commit(
    h: Head,
    keys: &[u32],
    values: &[u32],
    journal: &mut [u8],
    transaction: u32,
    time: u64,
) -> JournalResult
    ensures { Returns (λ a head. Wrote (Commit transaction time) h keys.now values.now journal.old a head journal.new) result.head result.answer }
{
    journal_store::commit::commit(h, keys, values, journal, transaction, time).into()
}

// The value of a key as a running transaction sees it, or absent. Refusals 1, 2, 3.
pub fn registers_journal_read(
    h: Head,
    keys: &[u32],
    values: &[u32],
    journal: &[u8],
    transaction: u32,
    key: u32,
) -> Answer
    ensures { Answers (λ a. a ≡ shaped_reply h keys.now values.now journal.now (read_decided transaction key)) result }
{
    journal_store::read::read(h, keys, values, journal, transaction, key).into()
}

// The committed value of a key at a time, or absent. Refusals 1, 3, 4, 5.
pub fn registers_journal_lookup(
    h: Head,
    keys: &[u32],
    values: &[u32],
    journal: &[u8],
    key: u32,
    time: u64,
) -> Answer
    ensures { Answers (λ a. a ≡ shaped_reply h keys.now values.now journal.now (lookup_decided key time)) result }
{
    journal_store::lookup::lookup(h, keys, values, journal, key, time).into()
}

// The list at a time, into two lent columns, keys and values; answers the count of rows. Refusals 1, 4, 5, 12.
pub fn registers_journal_list(
    h: Head,
    keys: &[u32],
    values: &[u32],
    journal: &[u8],
    time: u64,
    listed: &mut [u32],
    contents: &mut [u32],
) -> Answer
    ensures { Answers (λ a. ListedBy h keys.now values.now journal.now time listed.old contents.old a listed.new contents.new) result }
{
    journal_list::list(h, keys, values, journal, time, listed, contents).into()
}

// The base becomes the list at a time, and the journal keeps what is still needed. Refusals 1, 4, 5, 9, 12.
pub fn registers_journal_checkpoint(
    h: Head,
    keys: &mut [u32],
    values: &mut [u32],
    journal: &mut [u8],
    time: u64,
) -> JournalResult
    ensures { Returns (λ a head. Checkpointed time h keys.old values.old journal.old a head keys.new values.new journal.new) result.head result.answer }
{
    journal_checkpoint::checkpoint(h, keys, values, journal, time).into()
}

// Takes the bytes that survived a restart for the journal; 13 comes with the place of the first record that fails. Refusals 1, 13.
pub fn registers_journal_recover(
    h: Head,
    keys: &[u32],
    values: &[u32],
    journal: &mut [u8],
    survived: usize,
) -> JournalResult
    ensures { Returns (λ a head. Recovered h keys.now values.now journal.old survived a head journal.new) result.head result.answer }
{
    journal_recovery::recover(h, keys, values, journal, survived).into()
}
