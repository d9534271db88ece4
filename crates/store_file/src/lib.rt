// A whole store in a file, layout 1 of docs/FILE.md: a signature, the head, the base rows, a check sum of all that, and the journal's bytes, as many
// as were written. Reading tells a whole store from anything else, and takes nothing from a file that is none.
#![tactic(auto)]

ghost use Rattle.std.specs.Prelude.{◌≡◌, ◌+◌, ◌*◌, ◌%◌, ◌^◌, ◌≤◌, ◌++◌, length, drop};
ghost use Rattle.rules.specs.Limits.{most_rows};
ghost use Rattle.store_file.specs.Layout.{base_row_bytes, head_bytes, sum_factor, sum_of, is_whole, head_of, column_of};
ghost use Rattle.store_file.specs.Opened.{OpenedBy};

use journal::{Base, Journal};
use journal_store::Head;
use record::Width;
use rules::Record;
use std::num::wrapping_add_u64;

// The most bytes of a file that recovery takes.
pub const BYTES: usize = HEAD_BYTES + Base::ROWS * ROW_BYTES + SUM_BYTES + JOURNAL_BYTES;

// The letters r, e, g and the layout number 1, as the number that these four bytes spell.
const SIGNATURE: u64 = 114 + 101 * 256 + 103 * 65536 + 16777216;

// Where the numbers of the head stand.
const SIGNATURE_AT: usize = 0;

const LOW_AT: usize = 4;

const FLOOR_AT: usize = 12;

const ROWS_AT: usize = 16;

// The bytes before the base rows.
const HEAD_BYTES: usize = 20;

// A base row: the key, and behind it the value.
const ROW_BYTES: usize = 8;

const VALUE_IN_ROW: usize = 4;

const SUM_BYTES: usize = 8;

// The most bytes of a journal.
const JOURNAL_BYTES: usize = Journal::RECORDS * Record::BYTES;

// What the check sum of no bytes is.
const SUM_START: u64 = 14695981039346656037;

// The factor of the check sum is 2 to the power 40, and this.
const SUM_REST: u64 = 435;

// How many numbers four bytes tell apart.
const FOUR_BYTES: u64 = 4294967296;

// The check sum with one byte more. The product is taken in halves of the sum, since it has to wrap.
fn more(sum: u64, byte: u8) -> u64
    ensures { result ≡ (sum * sum_factor + byte) % 2 ^ 64 }
{
    let low = sum % FOUR_BYTES * SUM_REST;
    let high = sum / FOUR_BYTES * SUM_REST << 32;
    let product = wrapping_add_u64(sum << 40, wrapping_add_u64(low, high));
    wrapping_add_u64(product, byte as u64)
}

// The check sum of some bytes.
pub fn sum(bytes: &[u8]) -> u64
    ensures { result ≡ sum_of bytes.now }
{
    let mut s = SUM_START;
    for byte in bytes {
        s = more(s, *byte);
    }
    s
}

// Whether the bytes are those of a whole store.
pub fn is_whole(file: &[u8]) -> bool
    ensures { result ≡ is_whole file.now }
{
    if file.len() < HEAD_BYTES + SUM_BYTES {
        return false;
    }
    if record::field(file, SIGNATURE_AT, Width::Four) != SIGNATURE {
        return false;
    }
    let rows = record::field(file, ROWS_AT, Width::Four) as usize;
    if rows > Base::ROWS {
        return false;
    }
    let end = HEAD_BYTES + rows * ROW_BYTES;
    file.len() >= end + SUM_BYTES && sum(&file[..end]) == record::field(file, end, Width::Eight)
}

// The head, whose used count recovery works out.
fn head(file: &[u8]) -> Head
    requires { head_bytes ≤ length file.now }
    ensures { result ≡ head_of file.now }
{
    Head {
        low: record::field(file, LOW_AT, Width::Eight),
        floor: record::field(file, FLOOR_AT, Width::Four) as u32,
        base: Base {
            rows: record::field(file, ROWS_AT, Width::Four) as usize,
        },
        journal: Journal::empty(),
    }
}

// One number of each row, into the front of a lent column: the keys, or the values, which stand from another byte on.
fn column(file: &[u8], at: usize, rows: usize, to: &mut [u32])
    requires { (at + rows * base_row_bytes ≤ length file.now) × (rows ≤ length to.old) }
    ensures { to.new ≡ column_of file.now at rows ++ drop rows to.old }
{
    for i in 0..rows {
        to[i] = record::field(file, at + i * ROW_BYTES, Width::Four) as u32;
    }
}

// Reads a whole store: its head, and at which byte its journal starts; its base rows go to the front of two lent columns. A file that is no whole
// store leaves them as they were.
pub fn open(file: &[u8], keys: &mut [u32], values: &mut [u32]) -> Option<(Head, usize)>
    requires { (most_rows ≤ length keys.old) × (most_rows ≤ length values.old) }
    ensures { OpenedBy file.now keys.old values.old result keys.new values.new }
{
    if !is_whole(file) {
        return None;
    }
    let head = head(file);
    let rows = head.base.rows;
    column(file, HEAD_BYTES, rows, keys);
    column(file, HEAD_BYTES + VALUE_IN_ROW, rows, values);
    Some((head, HEAD_BYTES + rows * ROW_BYTES + SUM_BYTES))
}
