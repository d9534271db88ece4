// Rule 3.3: last, and the next number; and who committed later than a time.
ghost use Rattle.std.specs.Prelude.{◌≡◌, ◌+◌, ◌≤◌, max, length, ◌&&◌, leb, ltb};
ghost use Rattle.rules.specs.Kinds.{is_commit};
ghost use Rattle.rules.specs.Times.{last_step, last as last_in, next as next_in};
ghost use Rattle.rules.specs.Transactions.{any};
ghost use Rattle.rules.specs.Checkpoints.{late};
ghost use Rattle.record.specs.Records.{records_of};
ghost use Rattle.journal.specs.Walks.{Above};
ghost use Rattle.journal.specs.Gathered.{lates, Gathered};

use crate::Journal;
use record::Records;
use rules::Record;

// One record more: a commit's time counts.
fn last_step(r: Record, best: u64) -> u64
    ensures { result ≡ last_step r best }
{
    if r.kind == Record::COMMIT {
        best.max(r.time)
    } else {
        best
    }
}

// The greatest of low and all commit times, record by record.
fn greatest(records: Records<'_>, low: u64) -> u64
    ensures { result ≡ last_in low (records_of records.entry) }
{
    let mut best = low;
    for i in 0..records.used {
        best = last_step(records.at(i), best);
    }
    best
}

// The time of the newest commit, at least low.
fn newest_time(records: Records<'_>, low: u64) -> u64
    ensures { (low ≤ result) × (result ≤ last_in low (records_of records.entry)) }
{
    for i in (0..records.used).rev() {
        let r = records.at(i);
        if r.kind == Record::COMMIT {
            return last_step(r, low);
        }
    }
    low
}

// Whether a record is a commit later than a time.
pub(crate) fn is_late(r: Record, s: u64) -> bool
    ensures { result ≡ late s r }
{
    r.kind == Record::COMMIT && s < r.time
}

// Whether some commit is later than a time.
fn is_passed(records: Records<'_>, t: u64) -> bool
    ensures { result ≡ any (late t) (records_of records.entry) }
{
    let mut found = false;
    for i in 0..records.used {
        found |= is_late(records.at(i), t);
    }
    found
}

// The greatest of low and all commit times. Times rise in a journal that calls wrote, so that it is the newest commit's, and only to be seen that no
// other is later.
pub fn last(records: Records<'_>, low: u64) -> u64
    ensures { result ≡ last_in low (records_of records.entry) }
{
    let t = newest_time(records, low);
    if is_passed(records, t) {
        greatest(records, low)
    } else {
        t
    }
}

// Whether a record is a commit at or after a time.
fn reaches(r: Record, t: u64) -> bool
    ensures { result ≡ (is_commit r && leb t r.time) }
{
    r.kind == Record::COMMIT && t <= r.time
}

// Whether a time lies above last. The walk goes down from the newest record, since the latest commit tells most times.
pub fn is_future(records: Records<'_>, low: u64, t: u64) -> bool
    ensures { result ≡ ltb (last_in low (records_of records.entry)) t }
{
    for i in (0..records.used).rev() {
        if reaches(records.at(i), t) {
            return false;
        }
    }
    low < t
}

// The greater of best and one more than a number. In 64 bits, so that the greatest number has a successor.
pub(crate) fn at_least_after(best: u64, n: u32) -> u64
    ensures { result ≡ max best (n + 1) }
{
    best.max(n as u64 + 1)
}

// One record more: one more than a begin's number counts.
fn above_step(r: Record, best: u64) -> u64
    requires { best ≤ 4294967296 }
    ensures { Above r best result }
{
    if r.kind == Record::BEGIN {
        at_least_after(best, r.transaction)
    } else {
        best
    }
}

// The greater of floor and one more than the highest number in a begin, but never above 4,294,967,295.
pub fn next(records: Records<'_>, floor: u32) -> u32
    ensures { result ≡ next_in floor (records_of records.entry) }
{
    let mut best = floor as u64;
    for i in 0..records.used {
        best = above_step(records.at(i), best);
    }
    best.min(Journal::NO_NUMBER as u64) as u32
}

// The transactions that committed later than a time, into a column in the order of these commits; how many commits there are. The column is lent,
// since there is no heap for a list.
pub fn late_numbers(records: Records<'_>, s: u64, numbers: &mut [u32]) -> usize
    requires { records.used ≤ length numbers.old }
    ensures { Gathered (lates s (records_of records.entry)) records.entry.used result numbers.old numbers.new }
{
    let mut count = 0;
    for i in 0..records.used {
        let r = records.at(i);
        if is_late(r, s) {
            numbers[count] = r.transaction;
            count += 1;
        }
    }
    count
}
