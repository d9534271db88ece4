// Update: a running transaction assigns or adds to a key. Refusals 1, 2, 3, 8.
ghost use Rattle.std.specs.Prelude.{◌≡◌, not, ◌||◌, ltb, length};
ghost use Rattle.rules.specs.Limits.{most_keys};
ghost use Rattle.rules.specs.Calls.{Update};
ghost use Rattle.answer.specs.Reply.{of_done};
ghost use Rattle.slot.specs.Formed.{Rowed};
ghost use Rattle.slot.specs.Places.{has_key, slot_rows};
ghost use Rattle.versions.specs.Versions.{columns};
ghost use Rattle.map_store.specs.CallContracts.{Answered};

use crate::MapHead;
use answer::{Outcome, Refusal};
use rules::Effect;
use slot::Slot;

// Whether the transaction of a slot has no row for k and none left.
fn is_full(s: Slot, k: u32) -> bool
    requires { Rowed s }
    ensures { result ≡ not (has_key k (slot_rows s) || ltb (length (slot_rows s)) most_keys) }
{
    s.find(k).is_none() && Slot::KEYS <= s.count
}

// Notes an effect of a running transaction on a key. The slots are copied once, changed at one place and returned within the head.
// No column is read, so that the shape is tested and no `Store` made.
pub fn update(
    h: MapHead,
    keys: &[u32],
    times: &[u64],
    values: &[u32],
    marks: &[u8],
    n: u32,
    k: u32,
    e: Effect,
) -> Outcome<MapHead, ()>
    ensures { Answered (Update n k e) h (columns keys.now times.now values.now marks.now) (of_done result.answer) result.head }
{
    if !crate::shaped(h, keys.len(), times.len(), values.len(), marks.len()) {
        return crate::refused(h, Refusal::BadShape);
    }
    let mut slots = h.slots;
    let Some(i) = slots.find(n) else {
        return crate::refused(h, Refusal::UnknownTransaction);
    };
    if k == 0 {
        return crate::refused(h, Refusal::BadKey);
    }
    let s = slots.slots[i];
    if is_full(s, k) {
        return crate::refused(h, Refusal::KeysFull);
    }
    slots.slots[i] = s.note(k, e);
    crate::accepted(h, slots)
}
