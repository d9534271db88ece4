// Rule 3.2: which transactions run, and their snapshots.
ghost use Rattle.std.specs.Prelude.{◌≡◌, not, ◌&&◌, ◌-◌, ◌≤◌, length};
ghost use Rattle.rules.specs.Limits.{most_records};
ghost use Rattle.rules.specs.Kinds.{is_begin, is_end};
ghost use Rattle.rules.specs.Transactions.{any, of, opens, runs as runs_in, running};
ghost use Rattle.rules.specs.Checkpoints.{held_by, held as held_in};
ghost use Rattle.record.specs.Bytes.{records_in};
ghost use Rattle.record.specs.Records.{records_of};
ghost use Rattle.journal.specs.Walks.{traced, trace_of, Counted};
ghost use Rattle.journal.specs.Ends.{ends as ends_in, ended_from, top as top_in};
ghost use Rattle.journal.specs.Gathered.{Gathered};

use crate::{Journal, times};
use record::Records;
use rules::Record;

// Whether a record is a commit or an abort.
fn is_end(r: Record) -> bool
    ensures { result ≡ is_end r }
{
    matches!(r.kind, Record::COMMIT | Record::ABORT)
}

// What the records say of one transaction. `snapshot` stands beside `begun`, and is 0 where that is false: `trace_of` and `follow_unique` name the three.
#[derive(Clone, Copy, Default)]
pub struct Trace {
    pub begun: bool,
    pub ended: bool,
    pub snapshot: u64,
}

impl Trace {
    // It has begun and not ended.
    pub fn runs(self) -> bool
        ensures { result ≡ (self.begun && not self.ended) }
    {
        self.begun && !self.ended
    }

    // One record more: the first begin counts, and any end.
    fn step(mut self, n: u32, r: Record) -> Trace
        ensures { result ≡ traced n r self }
    {
        if r.transaction == n {
            if r.kind == Record::BEGIN && !self.begun {
                self.begun = true;
                self.snapshot = r.time;
            }
            self.ended |= is_end(r);
        }
        self
    }
}

// Whether a transaction has begun and ended, and the time of its first begin.
pub fn follow(records: Records<'_>, n: u32) -> Trace
    ensures { result ≡ trace_of (of n (records_of records.entry)) }
{
    let mut trace = Trace::default();
    for i in 0..records.used {
        trace = trace.step(n, records.at(i));
    }
    trace
}

// A transaction runs if the journal has its begin and neither its commit nor its abort.
pub fn runs(records: Records<'_>, n: u32) -> bool
    ensures { result ≡ runs_in n (records_of records.entry) }
{
    follow(records, n).runs()
}

// Whether a record is a commit or an abort of a transaction.
fn ends(r: Record, n: u32) -> bool
    ensures { result ≡ ends_in n r }
{
    r.transaction == n && is_end(r)
}

// Whether a record from a place on ends a transaction. The walk goes up and stops at the first: in a journal that calls wrote, the end of a
// transaction stands a few records behind its begin.
fn is_ended(records: Records<'_>, from: usize, n: u32) -> bool
    requires { from ≤ records.used }
    ensures { result ≡ ended_from n records.entry.bytes.now from (records.entry.used - from) }
{
    for i in from..records.used {
        if ends(records.at(i), n) {
            return true;
        }
    }
    false
}

// Whether a record, which stands at a place, is a begin with no end of its transaction behind it.
fn is_open(records: Records<'_>, i: usize, r: Record) -> bool
    requires { i ≤ records.used }
    ensures { result ≡ (is_begin r && not (ended_from r.transaction records.entry.bytes.now i (records.entry.used - i))) }
{
    r.kind == Record::BEGIN && !is_ended(records, i, r.transaction)
}

// Whether no record begins or ends a transaction.
fn is_unknown(records: Records<'_>, n: u32) -> bool
    ensures { result ≡ (not (any is_begin (of n (records_of records.entry))) && not (any is_end (of n (records_of records.entry)))) }
{
    let trace = follow(records, n);
    !trace.begun && !trace.ended
}

// Whether the record at a place is the first begin of a transaction that runs. Every number that stands before it lies below `top`, so that a
// number from `top` on has no record there. The numbers that calls give rise: only a damaged journal has the records before a begin walked.
fn opens_at(records: Records<'_>, i: usize, top: u64, r: Record) -> bool
    requires { (i ≤ records.used) × (top ≡ top_in (records_in i records.bytes.now)) }
    ensures { result ≡ opens (records_of records.entry) r (records_in i records.entry.bytes.now) }
{
    if !is_open(records, i, r) {
        return false;
    }
    top <= r.transaction as u64 || is_unknown(records.first(i), r.transaction)
}

// The running transactions, into a column in the order of their begins; how many they are. The column is lent, since there is no heap for a list.
pub fn running_numbers(records: Records<'_>, numbers: &mut [u32]) -> usize
    requires { records.used ≤ length numbers.old }
    ensures { Gathered (running (records_of records.entry)) records.entry.used result numbers.old numbers.new }
{
    let mut count = 0;
    let mut top = 0;
    for i in 0..records.used {
        let r = records.at(i);
        if opens_at(records, i, top, r) {
            numbers[count] = r.transaction;
            count += 1;
        }
        top = times::at_least_after(top, r.transaction);
    }
    count
}

// How many transactions run.
pub fn count_running(records: Records<'_>) -> usize
    requires { records.used ≤ most_records }
    ensures { Counted (records_of records.entry) records.entry.used result }
{
    let mut numbers = [0u32; Journal::RECORDS];
    running_numbers(records, &mut numbers)
}

// Whether the record at a place begins a running transaction whose snapshot lies below a time. The whole journal is walked only where no end stands
// behind it.
fn is_held(records: Records<'_>, i: usize, t: u64, r: Record) -> bool
    requires { i ≤ records.used }
    ensures { result ≡ held_by t (records_of records.entry) r }
{
    if !is_open(records, i, r) {
        return false;
    }
    let trace = follow(records, r.transaction);
    trace.runs() && trace.snapshot < t
}

// Whether a time lies above a running snapshot.
pub fn held(records: Records<'_>, t: u64) -> bool
    ensures { result ≡ held_in t (records_of records.entry) }
{
    let mut found = false;
    for i in 0..records.used {
        found |= is_held(records, i, t, records.at(i));
    }
    found
}
