// Begin: a new transaction with a snapshot from low to last. Refusals 1, 4, 5, 6, 7.
ghost use Rattle.std.specs.Prelude.{◌≡◌, ℕ, ◌<◌, true, cond, is_ok};
ghost use Rattle.rules.specs.Limits.{numbers_end};
ghost use Rattle.rules.specs.Calls.{Begin};
ghost use Rattle.answer.specs.Reply.{of_begun};
ghost use Rattle.slot.specs.Formed.{Formed};
ghost use Rattle.versions.specs.Versions.{Columns, columns};
ghost use Rattle.map_store.specs.Shape.{meaning};
ghost use Rattle.map_store.specs.Heads.{begun_head};
ghost use Rattle.map_store.specs.CallContracts.{Decided, Answered};

use crate::MapHead;
use answer::{Outcome, Refusal};
use slot::Slots;

// What a store of good shape answers, whatever stands in its columns.
fn decide(h: MapHead, t: u64) -> Result<u32, Refusal>
    requires { Formed h.slots }
    ensures { (room : ℕ) (cs : Columns) → Decided (Begin t) room (meaning h cs) (of_begun result) }
{
    if t < h.low {
        return Err(Refusal::TooOld);
    }
    if h.last < t {
        return Err(Refusal::Future);
    }
    let slots = h.slots;
    if Slots::SLOTS <= slots.running() as usize {
        return Err(Refusal::TooMany);
    }
    if MapHead::NO_NUMBER <= h.next {
        return Err(Refusal::NoNumbers);
    }
    Ok(h.next)
}

// The head with the new transaction, if the call was accepted.
fn open(h: MapHead, answer: Result<u32, Refusal>, t: u64) -> MapHead
    requires { is_ok answer ≡ true → h.next < numbers_end }
    ensures { result ≡ cond (is_ok answer) (begun_head t h) h }
{
    if answer.is_err() {
        return h;
    }
    let slots = h.slots;
    MapHead {
        next: h.next + 1,
        slots: slots.opened(h.next, t),
        ..h
    }
}

// Begins a transaction that reads as of t, and answers its number. No column is read, so that the shape is tested and no `Store` made: a head that is lent
// to one, or that two ways out give back, is zeroed and copied once more (docs/DESIGN-PASS.md, Speed).
pub fn begin(
    h: MapHead,
    keys: &[u32],
    times: &[u64],
    values: &[u32],
    marks: &[u8],
    t: u64,
) -> Outcome<MapHead, u32>
    ensures { Answered (Begin t) h (columns keys.now times.now values.now marks.now) (of_begun result.answer) result.head }
{
    if !crate::shaped(h, keys.len(), times.len(), values.len(), marks.len()) {
        return Outcome {
            head: h,
            answer: Err(Refusal::BadShape),
        };
    }
    let answer = decide(h, t);
    let head = open(h, answer, t);
    Outcome { head, answer }
}
