// The listing program of section 7: a journal from standard input, its listing to standard output. One line on standard
// error says how it ended, and `listing` takes its status from that. A run that says nothing has not come to its end.
#![tactic(auto)]

ghost use Rattle.std.specs.Prelude.{◌≡◌, ◌≤◌, length};
ghost use Rattle.report.specs.Text.{text_bytes};
ghost use Rattle.list.specs.Ending.{Output, ending_of};

use journal::Journal;
use journal_store::Head;
use rules::Record;
use streams::{input, output};

// What the journal gave: a listing of its records, one of no record at all, or a refusal. `list_store` has other cases, so that one enum for both would
// have cases that neither meets.
#[derive(Clone, Copy, Debug, PartialEq, Eq)]
enum Ending {
    Listed,
    Empty,
    Refused,
}

impl Ending {
    // The line that says it on standard error.
    fn line(self) -> &'static [u8] {
        match self {
            Ending::Listed => b"listing: listed\n",
            Ending::Empty =>
                b"listing: this journal has no record; a store that has taken a checkpoint has its registers in its base\n",
            Ending::Refused => b"listing: the store refuses this journal\n",
        }
    }
}

// The text for the bytes that survived: its length, and what it is. That of a refusal alone starts with an r.
fn report_on(journal: &mut [u8], survived: usize, text: &mut [u8]) -> (usize, Ending)
    requires { text_bytes ≤ length text.old }
    ensures output { Output journal.old survived text.old result.0 journal.new text.new }
    ensures ending_value { result.1 ≡ ending_of journal.old survived }
{
    let none = [0u32; 1];
    let count = report::report(Head::empty(), &none, &none, journal, survived, text);
    if text[0] == b'r' {
        return (count, Ending::Refused);
    }
    if survived < Record::BYTES {
        return (count, Ending::Empty);
    }
    (count, Ending::Listed)
}

// It tries to read one byte more than a journal has at the most, so that a longer input is refused.
fn main(rt: HostRuntime) {
    let mut error = rt.stderr();
    let mut journal = [0u8; Journal::RECORDS * Record::BYTES + 1];
    let Ok(survived) = input::read_all(&mut rt.stdin(), &mut journal) else {
        output::say(&mut error, b"listing: the journal could not be read\n");
        return;
    };
    let mut text = [0u8; report::TEXT];
    let (count, ending) = report_on(&mut journal, survived, &mut text);
    output::print(&mut rt.stdout(), &mut error, &text[..count], ending.line());
}
