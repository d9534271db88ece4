// Rule 3.6, whether a commit conflicts, and the limit of 32 keys written in one transaction. Both ask which keys a transaction wrote.
#![tactic(auto)]

ghost use Rattle.std.specs.Prelude.{◌≡◌, ◌≤◌, length, take};
ghost use Rattle.rules.specs.Limits.{most_records};
ghost use Rattle.rules.specs.Transactions.{any, of, keys_written, may_write};
ghost use Rattle.rules.specs.Conflicts.{conflict as conflict_of};
ghost use Rattle.record.specs.Records.{records_of};
ghost use Rattle.journal.specs.Past.{Past};
ghost use Rattle.journal.specs.Gathered.{Gathered};
ghost use Rattle.conflict.specs.Keys.{counted, counting, new_key, meeting, met_in};

use journal::{Journal, times};
use record::Records;
use rules::Record;

// Whether a record is an update or, where adds do not count, an assign. A flag, which the clauses name (`counting`): of a closure they would speak
// through `F.post`, which is no plainer.
fn counts(r: Record, adds: bool) -> bool
    ensures { result ≡ counted adds r }
{
    if adds {
        r.is_update()
    } else {
        r.kind == Record::ASSIGN
    }
}

// Whether a record is such a one of the transaction, of a key that is not in the column yet.
fn is_new_key(r: Record, n: u32, adds: bool, keys: &[u32], count: usize) -> bool
    ensures { result ≡ new_key n adds (take count keys.now) r }
{
    r.transaction == n && counts(r, adds) && !column::is_in(keys, count, r.key)
}

// The distinct keys that a transaction wrote or, where adds do not count, assigned, into a column, since there is no heap for a list; how many they are.
fn keys_written(records: Records<'_>, n: u32, adds: bool, keys: &mut [u32]) -> usize
    requires { records.used ≤ length keys.old }
    ensures { Gathered (keys_written (counting adds (of n (records_of records.entry)))) records.entry.used result keys.old keys.new }
{
    let mut count = 0;
    for i in 0..records.used {
        let r = records.at(i);
        if is_new_key(r, n, adds, keys, count) {
            keys[count] = r.key;
            count += 1;
        }
    }
    count
}

// Whether a transaction may write a key: it has written it, or fewer than 32 keys.
pub fn may_write(records: Records<'_>, n: u32, k: u32) -> bool
    requires { records.used ≤ most_records }
    ensures { result ≡ may_write n k (records_of records.entry) }
{
    let mut keys = [0u32; Journal::RECORDS];
    let count = keys_written(records, n, true, &mut keys);
    let few = count < Journal::KEYS;
    few || column::is_in(&keys, count, k)
}

// Whether a record is an assign of a key that was written, or an add to one that was assigned: two adds alone do not meet.
fn is_meeting(r: Record, written: &[u32], assigned: &[u32]) -> bool
    ensures { result ≡ meeting written.now assigned.now r }
{
    match r.kind {
        Record::ASSIGN => column::is_in(written, written.len(), r.key),
        Record::ADD => column::is_in(assigned, assigned.len(), r.key),
        _ => false,
    }
}

// Whether a record is such a one by one of the transactions.
fn is_met(r: Record, written: &[u32], assigned: &[u32], numbers: &[u32]) -> bool
    ensures { result ≡ met_in written.now assigned.now numbers.now r }
{
    is_meeting(r, written, assigned) && column::is_in(numbers, numbers.len(), r.transaction)
}

// Whether some record is such a one.
fn any_met(records: Records<'_>, written: &[u32], assigned: &[u32], numbers: &[u32]) -> bool
    ensures { result ≡ any (met_in written.now assigned.now numbers.now) (records_of records.entry) }
{
    let mut found = false;
    for i in 0..records.used {
        found |= is_met(records.at(i), written, assigned, numbers);
    }
    found
}

// Whether somebody who committed later than a time met the transaction on a key.
fn conflict_since(records: Records<'_>, n: u32, s: u64) -> bool
    requires { records.used ≤ most_records }
    ensures { result ≡ conflict_of n s (records_of records.entry) }
{
    let mut written = [0u32; Journal::RECORDS];
    let keys = keys_written(records, n, true, &mut written);
    let mut assigned = [0u32; Journal::RECORDS];
    let sets = keys_written(records, n, false, &mut assigned);
    let mut numbers = [0u32; Journal::RECORDS];
    let late = times::late_numbers(records, s, &mut numbers);
    any_met(
        records,
        &written[..keys],
        &assigned[..sets],
        &numbers[..late],
    )
}

// Whether a commit of the transaction conflicts: somebody who committed later than its snapshot met it on a key. No commit is later than last, so that
// a snapshot at last is clear at once.
pub fn conflict(records: Records<'_>, n: u32, snapshot: u64, last: u64) -> bool
    requires { (records.used ≤ most_records) × Past last (records_of records) }
    ensures { result ≡ conflict_of n snapshot (records_of records.entry) }
{
    snapshot < last && conflict_since(records, n, snapshot)
}
