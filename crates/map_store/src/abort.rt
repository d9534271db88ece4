// Abort: a running transaction ends without effect. Refusals 1, 2.
ghost use Rattle.rules.specs.Calls.{Abort};
ghost use Rattle.answer.specs.Reply.{of_done};
ghost use Rattle.versions.specs.Versions.{columns};
ghost use Rattle.map_store.specs.CallContracts.{Answered};

use crate::MapHead;
use answer::{Outcome, Refusal};

// Ends a running transaction; its updates have no effect. No column is read, so that the shape is tested and no `Store` made.
pub fn abort(
    h: MapHead,
    keys: &[u32],
    times: &[u64],
    values: &[u32],
    marks: &[u8],
    n: u32,
) -> Outcome<MapHead, ()>
    ensures { Answered (Abort n) h (columns keys.now times.now values.now marks.now) (of_done result.answer) result.head }
{
    if !crate::shaped(h, keys.len(), times.len(), values.len(), marks.len()) {
        return crate::refused(h, Refusal::BadShape);
    }
    let slots = h.slots;
    match slots.find(n) {
        Some(i) => crate::accepted(h, slots.closed(i)),
        None => crate::refused(h, Refusal::UnknownTransaction),
    }
}
