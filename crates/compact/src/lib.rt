// Checkpoint and recovery in place: the records that stay move up to the front of the journal, and what they leave behind becomes zero.
// Which ones stay is settled before the first byte moves.
#![tactic(auto)]

ghost use Rattle.std.specs.Prelude.{◌≡◌, true, ◌*◌, ◌%◌, ◌≤◌, length, replicate};
ghost use Rattle.rules.specs.Limits.{most_records};
ghost use Rattle.rules.specs.Kinds.{record_size};
ghost use Rattle.rules.specs.Lists.{among};
ghost use Rattle.rules.specs.Checkpoints.{raise as raised, kept};
ghost use Rattle.rules.specs.Recovery.{accepts, survivors};
ghost use Rattle.record.specs.Bytes.{records_in};
ghost use Rattle.compact.specs.Marks.{MarkSet, Marks};
ghost use Rattle.compact.specs.Compact.{kept_in, sifted, zeroed, Moved, Compacted};

use journal::{Journal, times, transactions};
use record::Records;
use rules::Record;

// A begin with a snapshot below a time gets that time.
fn raise(t: u64, r: Record) -> Record
    ensures { result ≡ raised t r }
{
    if r.kind == Record::BEGIN && r.time < t {
        return Record { time: t, ..r };
    }
    r
}

// How many places there are for marks.
const MARKS: usize = 1024;

// The place of a number's mark.
fn mark_place(n: u32) -> usize
    ensures { result ≡ n % 1024 }
{
    (n % 1024) as usize
}

// A number's mark set, where its place is free: whether the place is its own.
fn set_mark(marks: &mut [u32], n: u32) -> bool
    requires { length marks.old ≡ 1024 }
    ensures { MarkSet marks.old n result marks.new }
{
    let at = mark_place(n);
    let old = marks[at];
    if old != 0 {
        return old == n;
    }
    marks[at] = n;
    true
}

// Some numbers marked: whether each has a place of its own. Numbers rise by one from begin to begin, so that those of a journal mostly have.
fn mark(numbers: &[u32], marks: &mut [u32]) -> bool
    requires { marks.old ≡ replicate 1024 0 }
    ensures { Marks numbers.now marks.new result }
{
    let mut alone = true;
    for n in numbers {
        alone &= set_mark(marks, *n);
    }
    alone
}

// Some numbers with their marks, and whether each has a place of its own.
#[derive(Clone, Copy)]
struct Marked<'a> {
    numbers: &'a [u32],
    marks: &'a [u32],
    alone: bool,
    ghost told: { Marks numbers.now marks.now alone },
}

impl Marked<'_> {
    // Whether a number is one of them, by its mark where that can tell.
    fn has(self, n: u32) -> bool
        ensures { result ≡ among n self.entry.numbers.now }
    {
        if self.alone && n != 0 {
            return self.marks[mark_place(n)] == n;
        }
        column::is_in(self.numbers, self.numbers.len(), n)
    }
}

// Whether a record stays: it is of a known kind, and of a transaction that runs or committed late.
fn is_kept(r: Record, running: &[u32], lates: Marked<'_>) -> bool
    ensures { result ≡ kept_in running.now lates.entry.numbers.now r }
{
    Record::BEGIN <= r.kind
        && r.kind <= Record::ABORT
        && (column::is_in(running, running.len(), r.transaction) || lates.has(r.transaction))
}

// The records that stay move up, their begins raised; how many they are. Bytes and a count, and no `Records`: these cannot be lent while the bytes move.
fn keep(journal: &mut [u8], used: usize, t: u64, running: &[u32], lates: Marked<'_>) -> usize
    requires { used * record_size ≤ length journal.old }
    ensures { Moved (sifted (kept_in running.now lates.entry.numbers.now) t (records_in used journal.old)) journal.old used result journal.new }
{
    let mut count = 0;
    for i in 0..used {
        let r = record::read(journal, i);
        if is_kept(r, running, lates) {
            record::append(journal, count, raise(t, r));
            count += 1;
        }
    }
    count
}

// Zeros from one place to another.
fn zero(bytes: &mut [u8], from: usize, to: usize)
    requires { (from ≤ to) × (to ≤ length bytes.old) }
    ensures { bytes.new ≡ zeroed bytes.old from to }
{
    bytes[from..to].fill(0);
}

// The records of some running transactions and of those that committed late move up, their begins raised, and everything behind them, up to a place,
// becomes zero; how many they are.
fn keep_up_to(
    journal: &mut [u8],
    used: usize,
    t: u64,
    running: &[u32],
    lates: &[u32],
    end: usize,
) -> usize
    requires { (used * record_size ≤ end) × (end ≤ length journal.old) }
    ensures { Compacted (sifted (kept_in running.now lates.now) t (records_in used journal.old)) end journal.old result journal.new }
{
    let mut marks = [0u32; MARKS];
    let alone = mark(lates, &mut marks);
    let lates = Marked {
        numbers: lates,
        marks: &marks,
        alone,
    };
    let count = keep(journal, used, t, running, lates);
    zero(journal, count * Record::BYTES, end);
    count
}

// Rule 3.9: the records of the transactions that run or committed after a time stay, the begins raised to it; how many they are.
pub fn keep_running(journal: &mut [u8], used: usize, t: u64) -> usize
    requires { (used ≤ most_records) × (used * record_size ≤ length journal.old) }
    ensures { Compacted (kept t (records_in used journal.old)) (used * record_size) journal.old result journal.new }
{
    let records = Records::new(journal, used);
    let mut running = [0u32; Journal::RECORDS];
    let opened = transactions::running_numbers(records, &mut running);
    let mut lates = [0u32; Journal::RECORDS];
    let late = times::late_numbers(records, t, &mut lates);
    let end = used * Record::BYTES;
    keep_up_to(journal, used, t, &running[..opened], &lates[..late], end)
}

// Section 5: of the records that recovery's walk has accepted, those of the transactions with a commit stay; how many they are. Everything
// behind them, up to a place, becomes zero. An accepted commit is later than low, and an accepted snapshot not below it.
pub fn keep_done(journal: &mut [u8], used: usize, low: u64, end: usize) -> usize
    requires { (used ≤ most_records) × (used * record_size ≤ end) × (end ≤ length journal.old) × (accepts low (records_in used journal.old) ≡ true) }
    ensures { Compacted (survivors (records_in used journal.old)) end journal.old result journal.new }
{
    let records = Records::new(journal, used);
    let mut lates = [0u32; Journal::RECORDS];
    let late = times::late_numbers(records, low, &mut lates);
    keep_up_to(journal, used, low, &[], &lates[..late], end)
}
