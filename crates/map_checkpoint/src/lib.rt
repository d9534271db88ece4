// The map store's checkpoint: versions that no snapshot from a time on can see are dropped. Refusals 1, 4, 5, 9.
#![tactic(auto)]

mod keep;

ghost use Rattle.answer.specs.Reply.{of_done};
ghost use Rattle.versions.specs.Versions.{columns};
ghost use Rattle.map_store.specs.CallContracts.{Checkpointed};

use answer::{Outcome, Refusal};
use map_store::MapHead;

// A checkpoint at t, which writes the columns, so that the shape is tested and no `Store` made. Low becomes t. Kept are the versions after t and, for each key, its newest at or before t.
pub fn checkpoint(
    h: MapHead,
    keys: &mut [u32],
    times: &mut [u64],
    values: &mut [u32],
    marks: &mut [u8],
    t: u64,
) -> Outcome<MapHead, ()>
    ensures { Checkpointed t h (columns keys.old times.old values.old marks.old) (of_done result.answer) result.head (columns keys.new times.new values.new marks.new) }
{
    if !map_store::shaped(h, keys.len(), times.len(), values.len(), marks.len()) {
        return map_store::refused(h, Refusal::BadShape);
    }
    if t < h.low {
        return map_store::refused(h, Refusal::TooOld);
    }
    if h.last < t {
        return map_store::refused(h, Refusal::Future);
    }
    let slots = h.slots;
    if slots.holds(t) {
        return map_store::refused(h, Refusal::Held);
    }
    let used = keep::keep_from(keys, times, values, marks, h.used, t);
    Outcome {
        head: MapHead { low: t, used, ..h },
        answer: Ok(()),
    }
}
