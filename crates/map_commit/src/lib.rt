// The map store's commit: what a transaction's updates come to becomes versions at a time later than last. Refusals 1, 2, 10, 11, 12.
#![tactic(auto)]

ghost use Rattle.std.specs.Prelude.{◌≡◌, List, ℕ, ◌+◌, ◌≤◌, ◌<◌, length};
ghost use Rattle.answer.specs.Reply.{of_done};
ghost use Rattle.slot.specs.Formed.{Rowed};
ghost use Rattle.slot.specs.Places.{slot_rows};
ghost use Rattle.versions.specs.Versions.{columns};
ghost use Rattle.versions.specs.Stamps.{versions_in};
ghost use Rattle.versions.specs.Columns.{Spans};
ghost use Rattle.map_store.specs.Meaning.{firsts, clash, version_of};
ghost use Rattle.map_store.specs.Shape.{room_of};
ghost use Rattle.map_store.specs.CallContracts.{Committed};
ghost use Rattle.map_commit.specs.Commit.{row_at, is_first, newest_in, Stamped};

use answer::{Outcome, Refusal};
use map_store::MapHead;
use slot::Slot;
use versions::{Stamps, Version};

// How many versions the lent columns have room for, at most the limit.
fn room(rows: usize) -> usize
    ensures { result ≡ room_of rows }
{
    Version::ROWS.min(rows)
}

// The slot of a transaction, with at most 32 rows in use: what it wrote.
#[derive(Clone, Copy)]
struct Written<'a> {
    slot: &'a Slot,
    ghost rowed: { Rowed slot.now },
}

impl Written<'_> {
    // Whether row i is the first that has its key: of one key twice it alone counts.
    fn is_first(self, i: usize) -> bool
        requires { i < self.slot.now.count }
        ensures { result ≡ is_first self.entry.slot.now i }
    {
        let written = &self.slot.keys;
        column::find(written, i, written[i]).is_none()
    }

    // How many keys the transaction wrote.
    fn count(self) -> usize
        ensures { result ≡ length (firsts (slot_rows self.entry.slot.now)) }
    {
        let mut count = 0;
        for i in 0..self.slot.count {
            if self.is_first(i) {
                count += 1;
            }
        }
        count
    }

    // Rule 3.6: whether a key that the transaction wrote has a version later than its snapshot that met it.
    fn conflicts(self, stamps: Stamps<'_>, marks: &[u8]) -> bool
        requires { stamps.used ≤ length marks.now }
        ensures { (values : List ℕ) → result ≡ clash self.entry.slot.now.snapshot (firsts (slot_rows self.entry.slot.now)) (versions_in stamps.entry values marks.now) }
    {
        let s = self.slot;
        let from = versions::first_late(stamps.times, stamps.used, s.snapshot);
        for i in 0..s.count {
            if self.is_first(i) {
                let e = s.effect(i);
                if stamps.is_later(marks, from, s.keys[i], e.adds(), s.snapshot) {
                    return true;
                }
            }
        }
        false
    }

    // Rule 3.8: the version of row i at t: its effect on the newest committed value, which is that at last, marked if it only adds.
    fn version(self, i: usize, stamps: Stamps<'_>, values: &[u32], last: u64, t: u64) -> Version
        requires { (i < self.slot.now.count) × (stamps.used ≤ length values.now) }
        ensures { (marks : List ℕ) → result ≡ version_of (newest_in last stamps.entry.used (columns stamps.entry.keys.now stamps.entry.times.now values.now marks)) t (row_at self.entry.slot.now i) }
    {
        let s = self.slot;
        let k = s.keys[i];
        let e = s.effect(i);
        let value = versions::applied_at(stamps, values, k, last, e);
        Version {
            key: k,
            time: t,
            value: value.unwrap_or(0),
            mark: e.mark(),
        }
    }

    // Rule 3.8: a version at t for each key, in order of first update. Answers how many versions are used then. The columns come one by one, as the C
    // interface lends them.
    fn stamp(
        self,
        keys: &mut [u32],
        times: &mut [u64],
        values: &mut [u32],
        marks: &mut [u8],
        used: usize,
        last: u64,
        t: u64,
    ) -> usize
        requires { (used ≤ Version.ROWS) × Spans (used + length (firsts (slot_rows self.slot.now))) (columns keys.old times.old values.old marks.old) }
        ensures { Stamped (newest_in last used (columns keys.old times.old values.old marks.old)) t used (firsts (slot_rows self.entry.slot.now)) (columns keys.old times.old values.old marks.old) (columns keys.new times.new values.new marks.new) result }
    {
        let mut at = used;
        for i in 0..self.slot.count {
            if self.is_first(i) {
                let v = self.version(i, Stamps::new(keys, times, used), values, last, t);
                versions::append(keys, times, values, marks, at, v);
                at += 1;
            }
        }
        at
    }
}

// Commits a running transaction at t. The columns are written, so that the shape is tested and no `Store` made, which lends them to be read.
pub fn commit(
    h: MapHead,
    keys: &mut [u32],
    times: &mut [u64],
    values: &mut [u32],
    marks: &mut [u8],
    n: u32,
    t: u64,
) -> Outcome<MapHead, ()>
    ensures { Committed n t h (columns keys.old times.old values.old marks.old) (of_done result.answer) result.head (columns keys.new times.new values.new marks.new) }
{
    if !map_store::shaped(h, keys.len(), times.len(), values.len(), marks.len()) {
        return map_store::refused(h, Refusal::BadShape);
    }
    let slots = h.slots;
    let Some(i) = slots.find(n) else {
        return map_store::refused(h, Refusal::UnknownTransaction);
    };
    if t <= h.last {
        return map_store::refused(h, Refusal::NotLater);
    }
    let written = Written {
        slot: &slots.slots[i],
    };
    if written.conflicts(Stamps::new(keys, times, h.used), marks) {
        return map_store::refused(h, Refusal::Conflict);
    }
    if room(keys.len()) < h.used + written.count() {
        return map_store::refused(h, Refusal::NoRoom);
    }
    let used = written.stamp(keys, times, values, marks, h.used, h.last, t);
    Outcome {
        head: MapHead {
            last: t,
            used,
            slots: slots.closed(i),
            ..h
        },
        answer: Ok(()),
    }
}
