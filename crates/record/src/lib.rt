// The journal record of section 4: its 24 bytes read as numbers, and a new record written straight into the unused end of the journal.
#![tactic(auto)]

ghost use Rattle.std.specs.Prelude.{◌≡◌, ◌++◌, ◌+◌, ◌*◌, ◌≤◌, ◌<◌, length, drop};
ghost use Rattle.rules.specs.Kinds.{record_size};
ghost use Rattle.record.specs.Bytes.{width_of, Field, record_at, bytes_of, written, appended};

use rules::Record;

// How wide a number of a record is.
#[derive(Clone, Copy)]
pub enum Width {
    Four,
    Eight,
}

// The first records of a journal's bytes, all of which are there.
#[derive(Clone, Copy)]
pub struct Records<'a> {
    pub bytes: &'a [u8],
    pub used: usize,
    ghost there: { used * record_size ≤ length bytes.now },
}

impl<'a> Records<'a> {
    pub fn new(bytes: &'a [u8], used: usize) -> Self
        requires { used * record_size ≤ length bytes.now }
        ensures { (result.bytes.now ≡ bytes.now) × (result.used ≡ used) }
    {
        Records { bytes, used }
    }

    // The record at a place, counted from 0.
    pub fn at(self, place: usize) -> Record
        requires { place < self.used }
        ensures { result ≡ record_at self.entry.bytes.now (place * record_size) }
    {
        read(self.bytes, place)
    }

    // As many of them as a count says, the oldest ones.
    pub fn first(self, count: usize) -> Self
        requires { count ≤ self.used }
        ensures { (result.bytes.now ≡ self.entry.bytes.now) × (result.used ≡ count) }
    {
        Records {
            bytes: self.bytes,
            used: count,
        }
    }
}

// How many numbers a byte tells apart.
const BYTE: u64 = 256;

// How many numbers four bytes tell apart.
const FOUR_BYTES: u64 = 4294967296;

// Section 4: where the numbers of a record stand, and how many bytes they take.
const KIND_AT: usize = 0;

const KIND_BYTES: usize = 1;

const ZEROS_AT: usize = 1;

const ZEROS_BYTES: usize = 3;

const TRANSACTION_AT: usize = 4;

const KEY_AT: usize = 8;

const VALUE_AT: usize = 12;

const NUMBER_BYTES: usize = 4;

const TIME_AT: usize = 16;

const TIME_BYTES: usize = 8;

// The number that four bytes spell, the lowest first.
fn four(bytes: &[u8], at: usize) -> u64
    requires { at + 4 ≤ length bytes.now }
    ensures { Field bytes.now at Width.Four result }
{
    let spelt = [bytes[at], bytes[at + 1], bytes[at + 2], bytes[at + 3]];
    u64::from(u32::from_le_bytes(spelt))
}

// A number of a record: four bytes as they stand, eight as two fours.
pub fn field(bytes: &[u8], at: usize, width: Width) -> u64
    requires { at + width_of width ≤ length bytes.now }
    ensures { Field bytes.now at width result }
{
    match width {
        Width::Four => four(bytes, at),
        Width::Eight => {
            let low = four(bytes, at);
            let high = four(bytes, at + NUMBER_BYTES);
            low + high * FOUR_BYTES
        }
    }
}

// The record at a place of the journal, counted from 0.
pub fn read(journal: &[u8], place: usize) -> Record
    requires { place * record_size + record_size ≤ length journal.now }
    ensures { result ≡ record_at journal.now (place * record_size) }
{
    let at = place * Record::BYTES;
    Record {
        kind: journal[at],
        zeros: (four(journal, at) / BYTE) as u32,
        transaction: field(journal, at + TRANSACTION_AT, Width::Four) as u32,
        key: field(journal, at + KEY_AT, Width::Four) as u32,
        value: field(journal, at + VALUE_AT, Width::Four) as u32,
        time: field(journal, at + TIME_AT, Width::Eight),
    }
}

// The lowest bytes of a number, as many as the width, the lowest first.
fn put(bytes: &mut [u8], at: usize, width: usize, v: u64)
    requires { (at + width ≤ length bytes.old) × (width ≤ 8) }
    ensures { bytes.new ≡ written bytes.old at width v }
{
    bytes[at..at + width].copy_from_slice(&v.to_le_bytes()[..width]);
}

// A record at the front of what is unused; it knows nothing of places.
pub fn write(unused: &mut [u8], r: Record)
    requires { record_size ≤ length unused.old }
    ensures { unused.new ≡ bytes_of r ++ drop record_size unused.old }
{
    put(unused, KIND_AT, KIND_BYTES, r.kind as u64);
    put(unused, ZEROS_AT, ZEROS_BYTES, r.zeros as u64);
    put(unused, TRANSACTION_AT, NUMBER_BYTES, r.transaction as u64);
    put(unused, KEY_AT, NUMBER_BYTES, r.key as u64);
    put(unused, VALUE_AT, NUMBER_BYTES, r.value as u64);
    put(unused, TIME_AT, TIME_BYTES, r.time);
}

// A record behind the used ones: the journal's unused end is lent on to the writer.
pub fn append(journal: &mut [u8], used: usize, r: Record)
    requires { used * record_size + record_size ≤ length journal.old }
    ensures { journal.new ≡ appended journal.old used r }
{
    let at = used * Record::BYTES;
    write(&mut journal[at..], r);
}
