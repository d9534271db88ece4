// The script's calls on the journal store. Those on the map store have other exported names and other columns: what both share is `script::run::follow`.
ghost use Rattle.std.specs.Prelude.{⊤};

use answer::shown::Answer;
use journal::{Base, Journal};
use journal_store::Head;
use registers::JournalResult;
use registers::journal_calls::{
    registers_journal_abort, registers_journal_add, registers_journal_assign,
    registers_journal_begin, registers_journal_checkpoint, registers_journal_commit,
    registers_journal_list, registers_journal_lookup, registers_journal_read,
    registers_journal_recover,
};
use script::line::{Call, Word};
use script::rows;
use script::run::Store;

// A journal store and what it is lent: so many rows of the base, and so many bytes.
#[derive(Drop)]
pub(crate) struct Lent<const ROWS: usize, const BYTES: usize> {
    head: Head,
    keys: [u32; ROWS],
    values: [u32; ROWS],
    bytes: [u8; BYTES],
}

impl<const ROWS: usize, const BYTES: usize> Lent<ROWS, BYTES> {
    pub(crate) fn empty() -> Self {
        Lent {
            head: Head::empty(),
            keys: [0; ROWS],
            values: [0; ROWS],
            bytes: [0; BYTES],
        }
    }
}

impl<const ROWS: usize, const BYTES: usize> Store for Lent<ROWS, BYTES> {
    // What the calls make of it is compared with the script when it runs, line by line, and no clause says it.
    ghost turns = { λ _ _ _ _. ⊤ };

    ghost sums = { λ _ _. ⊤ };

    fn turn(&mut self, call: Call) -> Answer {
        let JournalResult { head, answer } = turn(
            self.head,
            &mut self.keys,
            &mut self.values,
            &mut self.bytes,
            call,
        );
        self.head = head;
        answer
    }

    fn sum(&self) -> u64 {
        let h = self.head;
        let head = sums::three(
            h.low,
            h.floor as u64,
            h.base.rows as u64,
            h.journal.used as u64,
        );
        sums::of_bytes(
            sums::of_column(sums::of_column(head, &self.keys), &self.values),
            &self.bytes,
        )
    }
}

// An empty store whose next number is given.
fn numbered(floor: u32) -> JournalResult {
    let head = Head {
        low: 0,
        floor,
        base: Base::empty(),
        journal: Journal::empty(),
    };
    JournalResult {
        head,
        answer: Answer::alone(0),
    }
}

// The list at t into so many rows, or one of the rows after it.
fn listed(h: Head, keys: &[u32], values: &[u32], bytes: &[u8], call: Call) -> Answer {
    let lent = rows::lent(call.b);
    let mut listed = [rows::MARK; rows::ROWS];
    let mut contents = [rows::MARK; rows::ROWS];
    let answer = registers_journal_list(
        h,
        keys,
        values,
        bytes,
        call.a,
        &mut listed[0..lent],
        &mut contents[0..lent],
    );
    rows::told(answer, &listed, &contents, call.c)
}

// The calls that change nothing.
fn asked(h: Head, keys: &[u32], values: &[u32], bytes: &[u8], call: Call) -> Answer {
    let Call { b, n, k, .. } = call;
    match call.word {
        Word::Read => registers_journal_read(h, keys, values, bytes, n, k),
        Word::Lookup => registers_journal_lookup(h, keys, values, bytes, n, b),
        Word::List => listed(h, keys, values, bytes, call),
        _ => Answer::alone(Call::NO_CALL),
    }
}

// What a line asks.
fn turn(
    h: Head,
    keys: &mut [u32],
    values: &mut [u32],
    bytes: &mut [u8],
    call: Call,
) -> JournalResult {
    let Call { a, b, n, k, v, .. } = call;
    match call.word {
        Word::Begin => registers_journal_begin(h, keys, values, bytes, a),
        Word::Assign => registers_journal_assign(h, keys, values, bytes, n, k, v),
        Word::Add => registers_journal_add(h, keys, values, bytes, n, k, v),
        Word::Abort => registers_journal_abort(h, keys, values, bytes, n),
        Word::Commit => registers_journal_commit(h, keys, values, bytes, n, b),
        Word::Checkpoint => registers_journal_checkpoint(h, keys, values, bytes, a),
        Word::Recover => registers_journal_recover(h, keys, values, bytes, a as usize),
        Word::Store => numbered(n),
        Word::Fill => {
            sums::fill(bytes, a as usize, b as usize, (v % 256) as u8);
            JournalResult {
                head: h,
                answer: Answer::alone(0),
            }
        }
        _ => JournalResult {
            head: h,
            answer: asked(h, keys, values, bytes, call),
        },
    }
}
