// Section 7: the text of the listing program, from a head, its base and the bytes of a journal; a journal alone has the head of an empty store. A text
// is written into a lent buffer, piece by piece, each behind the one before.
#![tactic(auto)]

ghost use Rattle.std.specs.Prelude.{◌+◌, ◌*◌, ◌≤◌, length};
ghost use Rattle.rules.specs.Columns.{first_rows};
ghost use Rattle.answer.specs.Reply.{number_of, place_number};
ghost use Rattle.record.specs.Bytes.{records_in};
ghost use Rattle.journal_store.specs.Shape.{Shaped};
ghost use Rattle.report.specs.Text.{field as field_text, line as line_text, pair_line, row_lines, list_text, refused_text, base_of, row_bytes, text_bytes};
ghost use Rattle.report.specs.Written.{Written, Reported};

use answer::{Outcome, Refusal};
use journal::{Base, Journal};
use journal_store::Head;
use record::Records;

// The most bytes of a text: the lines of time and count, and one line for each row.
pub const TEXT: usize = TIME_LINE + COUNT_LINE + ROWS * ROW_LINE;

// The most rows of a list: one for each row of the base and for each record.
const ROWS: usize = Base::ROWS + Journal::RECORDS;

// The most bytes of time=LAST, a number of 64 bits, and its newline.
const TIME_LINE: usize = 26;

// The most bytes of keys=COUNT, at most 2,560, and its newline.
const COUNT_LINE: usize = 10;

// The most bytes of key=K value=V, two numbers of 32 bits, and its newline.
const ROW_LINE: usize = 32;

// Copies a text to a place and answers the next place.
pub fn put(out: &mut [u8], at: usize, text: &[u8]) -> usize
    requires { at + length text.now ≤ length out.old }
    ensures { Written out.old at text.now result out.new }
{
    let end = at + text.len();
    out[at..end].copy_from_slice(text);
    end
}

// A name and its number.
fn field(out: &mut [u8], at: usize, name: &[u8], n: u64) -> usize
    requires { at + length (field_text name.now n) ≤ length out.old }
    ensures { Written out.old at (field_text name.now n) result out.new }
{
    let next = put(out, at, name);
    decimal::print(out, next, n)
}

// A line of one number.
fn line(out: &mut [u8], at: usize, name: &[u8], n: u64) -> usize
    requires { at + length (line_text name.now n) ≤ length out.old }
    ensures { Written out.old at (line_text name.now n) result out.new }
{
    let next = field(out, at, name, n);
    put(out, next, b"\n")
}

// A line of two numbers.
fn pair(out: &mut [u8], at: usize, first: &[u8], n: u64, second: &[u8], m: u64) -> usize
    requires { at + length (pair_line first.now n second.now m) ≤ length out.old }
    ensures { Written out.old at (pair_line first.now n second.now m) result out.new }
{
    let next = field(out, at, first, n);
    line(out, next, second, m)
}

// One row a line, from the first rows of two columns, of which `first_rows` says the same.
fn rows(out: &mut [u8], at: usize, keys: &[u32], values: &[u32], count: usize) -> usize
    requires { (count ≤ length keys.now) × (count ≤ length values.now) × (at + count * row_bytes ≤ length out.old) }
    ensures { Written out.old at (row_lines (first_rows count keys.now values.now)) result out.new }
{
    let mut next = at;
    for i in 0..count {
        let (key, value) = (keys[i] as u64, values[i] as u64);
        next = pair(out, next, b"key=", key, b" value=", value);
    }
    next
}

// The line of a refusal: its number and, for 13, its place.
fn refused(out: &mut [u8], refusal: Refusal) -> usize
    requires { text_bytes ≤ length out.old }
    ensures { Written out.old 0 (refused_text (number_of refusal) (place_number refusal)) result out.new }
{
    let number = refusal.number() as u64;
    let place = refusal.place().unwrap_or(0) as u64;
    pair(out, 0, b"refused=", number, b" record=", place)
}

// The list at last: there are as many rows as it can need, so that it is never refused.
fn listing(out: &mut [u8], h: Head, keys: &[u32], values: &[u32], journal: &[u8]) -> usize
    requires { Shaped h (length keys.now) (length values.now) (length journal.now) × (text_bytes ≤ length out.old) }
    ensures { Written out.old 0 (list_text h.low (base_of h keys.now values.now) (records_in h.journal.used journal.now)) result out.new }
{
    let mut listed = [0u32; ROWS];
    let mut contents = [0u32; ROWS];
    let records = Records::new(journal, h.journal.used);
    let last = journal::times::last(records, h.low);
    match journal_list::list(h, keys, values, journal, last, &mut listed, &mut contents) {
        Err(refusal) => refused(out, refusal),
        Ok(count) => {
            let time = line(out, 0, b"time=", last);
            let head = line(out, time, b"keys=", count as u64);
            rows(out, head, &listed, &contents, count)
        }
    }
}

// The whole text for a head, its base and the bytes that survived, and its length.
pub fn report(
    h: Head,
    keys: &[u32],
    values: &[u32],
    journal: &mut [u8],
    survived: usize,
    out: &mut [u8],
) -> usize
    requires { text_bytes ≤ length out.old }
    ensures { Reported h keys.now values.now journal.old survived out.old result journal.new out.new }
{
    let Outcome { head, answer } = journal_recovery::recover(h, keys, values, journal, survived);
    match answer {
        Err(refusal) => refused(out, refusal),
        Ok(()) => listing(out, head, keys, values, journal),
    }
}
