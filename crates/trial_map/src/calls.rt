// The script's calls on the map store. Those on the journal store have other exported names and other columns: what both share is `script::run::follow`.
ghost use Rattle.std.specs.Prelude.{⊤};

use answer::shown::Answer;
use map_store::MapHead;
use registers::MapResult;
use registers::map_calls::{
    registers_map_abort, registers_map_add, registers_map_assign, registers_map_begin,
    registers_map_checkpoint, registers_map_commit, registers_map_list, registers_map_lookup,
    registers_map_read,
};
use script::line::{Call, Word};
use script::rows;
use script::run::Store;
use slot::{Slot, Slots};

// A map store and the rows that it is lent.
#[derive(Drop)]
pub(crate) struct Lent {
    head: MapHead,
    keys: [u32; rows::ROWS],
    times: [u64; rows::ROWS],
    values: [u32; rows::ROWS],
    marks: [u8; rows::ROWS],
}

impl Lent {
    pub(crate) fn empty() -> Self {
        Lent {
            head: MapHead::empty(),
            keys: [0; rows::ROWS],
            times: [0; rows::ROWS],
            values: [0; rows::ROWS],
            marks: [0; rows::ROWS],
        }
    }
}

impl Store for Lent {
    // What the calls make of it is compared with the script when it runs, line by line, and no clause says it.
    ghost turns = { λ _ _ _ _. ⊤ };

    ghost sums = { λ _ _. ⊤ };

    fn turn(&mut self, call: Call) -> Answer {
        let MapResult { head, answer } = turn(
            self.head,
            &mut self.keys,
            &mut self.times,
            &mut self.values,
            &mut self.marks,
            call,
        );
        self.head = head;
        answer
    }

    fn sum(&self) -> u64 {
        let h = self.head;
        let head = sums::three(h.low, h.last, h.next as u64, h.used as u64);
        let versions = sums::of_column(
            sums::of_times(sums::of_column(head, &self.keys), &self.times),
            &self.values,
        );
        let columns = sums::of_bytes(versions, &self.marks);
        let occupied = h.slots.occupied as u64;
        slots_sum(sums::three(columns, occupied, 0, 0), h.slots)
    }
}

// An empty store whose next number is given.
fn numbered(next: u32) -> MapResult {
    let head = MapHead {
        low: 0,
        last: 0,
        next,
        used: 0,
        slots: Slots::empty(),
    };
    MapResult {
        head,
        answer: Answer::alone(0),
    }
}

// The list at t into so many rows, or one of the rows after it.
fn listed(
    h: MapHead,
    keys: &[u32],
    times: &[u64],
    values: &[u32],
    marks: &[u8],
    call: Call,
) -> Answer {
    let lent = rows::lent(call.b);
    let mut listed = [rows::MARK; rows::ROWS];
    let mut contents = [rows::MARK; rows::ROWS];
    let answer = registers_map_list(
        h,
        keys,
        times,
        values,
        marks,
        call.a,
        &mut listed[0..lent],
        &mut contents[0..lent],
    );
    rows::told(answer, &listed, &contents, call.c)
}

// The calls that change nothing.
fn asked(
    h: MapHead,
    keys: &[u32],
    times: &[u64],
    values: &[u32],
    marks: &[u8],
    call: Call,
) -> Answer {
    let Call { b, n, k, .. } = call;
    match call.word {
        Word::Read => registers_map_read(h, keys, times, values, marks, n, k),
        Word::Lookup => registers_map_lookup(h, keys, times, values, marks, n, b),
        Word::List => listed(h, keys, times, values, marks, call),
        _ => Answer::alone(Call::NO_CALL),
    }
}

// What a line asks.
fn turn(
    h: MapHead,
    keys: &mut [u32],
    times: &mut [u64],
    values: &mut [u32],
    marks: &mut [u8],
    call: Call,
) -> MapResult {
    let Call { a, b, n, k, v, .. } = call;
    match call.word {
        Word::Begin => registers_map_begin(h, keys, times, values, marks, a),
        Word::Assign => registers_map_assign(h, keys, times, values, marks, n, k, v),
        Word::Add => registers_map_add(h, keys, times, values, marks, n, k, v),
        Word::Abort => registers_map_abort(h, keys, times, values, marks, n),
        Word::Commit => registers_map_commit(h, keys, times, values, marks, n, b),
        Word::Checkpoint => registers_map_checkpoint(h, keys, times, values, marks, a),
        Word::Store => numbered(n),
        _ => MapResult {
            head: h,
            answer: asked(h, keys, times, values, marks, call),
        },
    }
}

// A slot added to a sum.
fn slot_sum(sum: u64, s: Slot) -> u64 {
    let keys = s.keys;
    let values = s.values;
    let marks = s.marks;
    let head = sums::three(sum, s.number as u64, s.snapshot, s.count as u64);
    let rows = sums::of_column(sums::of_column(head, &keys), &values);
    sums::of_bytes(rows, &marks)
}

// The eight slots added to a sum.
fn slots_sum(sum: u64, slots: Slots) -> u64 {
    let mut s = sum;
    for i in 0..Slots::SLOTS {
        s = slot_sum(s, slots.at(i));
    }
    s
}
