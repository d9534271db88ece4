// Section 5: recovery's walk. Each record must be one that an accepted call would write at its place.
#![tactic(auto)]

ghost use Rattle.std.specs.Prelude.{◌≡◌, true, ◌<◌, ◌≤◌};
ghost use Rattle.rules.specs.Limits.{most_records, most_running};
ghost use Rattle.rules.specs.Kinds.{is_begin, is_commit};
ghost use Rattle.rules.specs.Transactions.{runs};
ghost use Rattle.rules.specs.Recovery.{formed as formed_in, limited as limited_in, clear as clear_in, judge as judge_in, walk as walk_in};
ghost use Rattle.record.specs.Records.{records_of};
ghost use Rattle.journal.specs.Past.{Past};
ghost use Rattle.walk.specs.Walk.{started, pushed, numbered_by, timely_by, is_blank, Without, Open, Tracks, Stepped, SnapshotOf};

use journal::Journal;
use record::Records;
use rules::Record;

// The highest number that a transaction has.
const LAST_NUMBER: u32 = Journal::NO_NUMBER - 1;

// What the records passed say: last, one more than the highest number begun, and the running transactions with their snapshots, the latest begun at
// the end. These stand in two columns, which `column` searches: eight pairs would want a search and laws of their own, which is no plainer.
#[derive(Clone, Copy)]
struct State {
    last: u64,
    above: u64,
    count: usize,
    numbers: [u32; Journal::RUNNING],
    snapshots: [u64; Journal::RUNNING],
}

impl State {
    // Nothing is passed: last is low, and nothing runs.
    fn start(low: u64) -> State
        ensures { result ≡ started low }
    {
        State {
            last: low,
            above: 1,
            count: 0,
            numbers: [0; Journal::RUNNING],
            snapshots: [0; Journal::RUNNING],
        }
    }

    // One transaction more runs.
    fn push(mut self, n: u32, snapshot: u64) -> State
        requires { self.count < most_running }
        ensures { result ≡ pushed self n snapshot }
    {
        let at = self.count;
        self.numbers[at] = n;
        self.snapshots[at] = snapshot;
        self.count = at + 1;
        self
    }

    // The running transactions but one.
    fn without(self, n: u32) -> State
        requires { self.count ≤ most_running }
        ensures { Without self n self.count result }
    {
        let mut rest = State { count: 0, ..self };
        for i in 0..self.count {
            if self.numbers[i] != n {
                rest = rest.push(self.numbers[i], self.snapshots[i]);
            }
        }
        rest
    }

    // One record more, which is accepted.
    fn step(self, r: Record) -> State
        requires { (self.count ≤ most_running) × (is_begin r ≡ true → self.count < most_running) }
        ensures { Stepped self r result }
    {
        match r.kind {
            Record::BEGIN => State {
                above: r.transaction as u64 + 1,
                ..self.push(r.transaction, r.time)
            },
            Record::COMMIT => State {
                last: r.time,
                ..self.without(r.transaction)
            },
            Record::ABORT => self.without(r.transaction),
            _ => self,
        }
    }

    // The snapshot of a running transaction.
    fn snapshot(self, n: u32) -> u64
        requires { self.count ≤ most_running }
        ensures { SnapshotOf self n result }
    {
        match column::find(&self.numbers, self.count, n) {
            Some(j) => self.snapshots[j],
            None => 0,
        }
    }

    // Whether a begin's number exceeds those of earlier begins and lies in range, or any other record's transaction runs.
    fn numbered(self, r: Record) -> bool
        ensures { result ≡ numbered_by self r }
    {
        if r.kind == Record::BEGIN {
            return self.above <= r.transaction as u64 && r.transaction <= LAST_NUMBER;
        }
        column::is_in(&self.numbers, self.count, r.transaction)
    }

    // Whether a snapshot lies from low to last, or a commit is later than last.
    fn timely(self, low: u64, r: Record) -> bool
        ensures { result ≡ timely_by low self r }
    {
        match r.kind {
            Record::BEGIN => low <= r.time && r.time <= self.last,
            Record::COMMIT => self.last < r.time,
            _ => true,
        }
    }
}

// Whether a record's key and value are zero.
fn is_blank(r: Record) -> bool
    ensures { result ≡ is_blank r }
{
    r.key == 0 && r.value == 0
}

// Whether a record is of a kind of section 4, its unused fields zero, and no update of key 0.
fn formed(r: Record) -> bool
    ensures { result ≡ formed_in r }
{
    r.zeros == 0
        && match r.kind {
            Record::BEGIN | Record::COMMIT => is_blank(r),
            Record::ASSIGN | Record::ADD => r.key != 0 && r.time == 0,
            Record::ABORT => is_blank(r) && r.time == 0,
            _ => false,
        }
}

// Whether at most 8 transactions run, and at most 32 keys are written in each.
fn limited(past: Records<'_>, r: Record, s: State) -> bool
    requires { (past.used ≤ most_records) × Open (records_of past) s }
    ensures { result ≡ limited_in (records_of past.entry) r }
{
    if r.kind == Record::BEGIN {
        return s.count < Journal::RUNNING;
    }
    !r.is_update() || conflict::may_write(past, r.transaction, r.key)
}

// Whether a commit does not conflict.
fn clear(past: Records<'_>, r: Record, s: State) -> bool
    requires { (past.used ≤ most_records) × Open (records_of past) s × Past s.last (records_of past) × (is_commit r ≡ true → runs r.transaction (records_of past) ≡ true) }
    ensures { result ≡ clear_in (records_of past.entry) r }
{
    if r.kind != Record::COMMIT {
        return true;
    }
    let snapshot = s.snapshot(r.transaction);
    !conflict::conflict(past, r.transaction, snapshot, s.last)
}

// Whether an accepted call would write a record behind those passed.
fn judge(past: Records<'_>, low: u64, r: Record, s: State) -> bool
    requires { (past.used ≤ most_records) × Tracks low (records_of past) s }
    ensures { result ≡ judge_in low (records_of past.entry) r }
{
    if !formed(r) {
        return false;
    }
    if !s.numbered(r) {
        return false;
    }
    if !s.timely(low, r) {
        return false;
    }
    limited(past, r, s) && clear(past, r, s)
}

// The place of the first record that fails, counted from 0, if there is one.
pub fn walk(records: Records<'_>, low: u64) -> Option<usize>
    requires { records.used ≤ most_records }
    ensures { result ≡ walk_in low (records_of records.entry) }
{
    let mut s = State::start(low);
    for i in 0..records.used {
        let r = records.at(i);
        if !judge(records.first(i), low, r, s) {
            return Some(i);
        }
        s = s.step(r);
    }
    None
}
