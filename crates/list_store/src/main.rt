// The listing program for a whole store, docs/FILE.md: a file from standard input, its listing in section 7's form to standard output. It ends as
// `list` does: one line on standard error says how.
#![tactic(auto)]

ghost use Rattle.std.specs.Prelude.{◌≡◌, ◌≤◌, length, take};
ghost use Rattle.report.specs.Text.{text_bytes};
ghost use Rattle.list_store.specs.Text.{ReportedFrom, Output, ending_of};

use journal::Base;
use journal_store::Head;
use streams::{input, output};

// What the file gave: a listing, a refusal by the store, or no whole store. `list` has other cases, so that one enum for both would have cases that
// neither meets.
#[derive(Clone, Copy, Debug, PartialEq, Eq)]
enum Ending {
    Listed,
    Refused,
    Broken,
}

impl Ending {
    // The line that says it on standard error.
    fn line(self) -> &'static [u8] {
        match self {
            Ending::Listed => b"listing: listed\n",
            Ending::Refused => b"listing: the store refuses this file\n",
            Ending::Broken => b"listing: this file is no whole store\n",
        }
    }
}

// The report of a head, its base and the journal that stands in a file from a byte on.
fn report_from(
    h: Head,
    keys: &[u32],
    values: &[u32],
    file: &mut [u8],
    start: usize,
    text: &mut [u8],
) -> usize
    requires { (h.base.rows ≤ length keys.now) × (h.base.rows ≤ length values.now) × (start ≤ length file.old) × (text_bytes ≤ length text.old) }
    ensures { ReportedFrom h (take h.base.rows keys.now) (take h.base.rows values.now) file.old start text.old result file.new text.new }
{
    let rows = h.base.rows;
    let survived = file.len() - start;
    report::report(
        h,
        &keys[..rows],
        &values[..rows],
        &mut file[start..],
        survived,
        text,
    )
}

// The text for the bytes of a file: its length, and what it is. That of a refusal alone starts with an r.
fn report_on(file: &mut [u8], text: &mut [u8]) -> (usize, Ending)
    requires { text_bytes ≤ length text.old }
    ensures output { Output file.old text.old result.0 file.new text.new }
    ensures ending_value { result.1 ≡ ending_of file.old }
{
    let mut keys = [0u32; Base::ROWS];
    let mut values = [0u32; Base::ROWS];
    let Some((head, start)) = store_file::open(file, &mut keys, &mut values) else {
        return (report::put(text, 0, b"no whole store\n"), Ending::Broken);
    };
    let count = report_from(head, &keys, &values, file, start, text);
    if text[0] == b'r' {
        return (count, Ending::Refused);
    }
    (count, Ending::Listed)
}

// It tries to read one byte more than recovery takes, so that a longer input is refused.
fn main(rt: HostRuntime) {
    let mut error = rt.stderr();
    let mut buffer = [0u8; store_file::BYTES + 1];
    let Ok(bytes) = input::read_all(&mut rt.stdin(), &mut buffer) else {
        output::say(&mut error, b"listing: the store could not be read\n");
        return;
    };
    let mut text = [0u8; report::TEXT];
    let (count, ending) = report_on(&mut buffer[..bytes], &mut text);
    output::print(&mut rt.stdout(), &mut error, &text[..count], ending.line());
}
