// The map store: its head, and what all its calls share. Every call is lent the whole store, head and version columns side by side as C lends them
// through `registers`, and makes the same shape test; it answers for all inputs and asks nothing of its caller.
#![tactic(auto)]

ghost use Rattle.std.specs.Prelude.{◌≡◌, true, List, ℕ, ◌≤◌, length};
ghost use Rattle.slot.specs.Formed.{Rowed};
ghost use Rattle.slot.specs.Places.{slot_rows};
ghost use Rattle.versions.specs.Stamps.{versions_in};
ghost use Rattle.map_store.specs.Meaning.{current};
ghost use Rattle.map_store.specs.Heads.{with_slots};
ghost use Rattle.map_store.specs.Shape.{empty_head, is_shaped, Shaped};

use answer::{Outcome, Refusal};
use rules::Value;
use slot::{Slot, Slots};
use versions::{Stamps, Version};

pub mod abort;
pub mod begin;
pub mod lookup;
pub mod read;
mod store;
pub mod update;

pub(crate) use store::Store;

// The map head: low, last, the next transaction number, how many versions are used, and the eight transaction slots.
#[repr(C)]
#[derive(Clone, Copy)]
pub struct MapHead {
    pub low: u64,
    pub last: u64,
    pub next: u32,
    pub used: usize,
    pub slots: Slots,
}

impl MapHead {
    // From here on there are no transaction numbers.
    pub const NO_NUMBER: u32 = 4294967295;

    // The head of an empty store: the constructor that the rule book names.
    pub fn empty() -> Self
        ensures { result ≡ empty_head }
    {
        MapHead {
            low: 0,
            last: 0,
            next: 1,
            used: 0,
            slots: Slots::empty(),
        }
    }
}

// Section 6, number 1, the same for every call: used versions within limit and lent room, four columns of one length, next not 0, no occupied
// slot with more than 32 keys.
pub fn shaped(h: MapHead, keys: usize, times: usize, values: usize, marks: usize) -> bool
    ensures value { result ≡ is_shaped h (record { keys = keys; times = times; values = values; marks = marks }) }
    ensures shaped { result ≡ true → Shaped h (record { keys = keys; times = times; values = values; marks = marks }) }
{
    let slots = h.slots;
    h.used <= Version::ROWS
        && h.used <= keys
        && keys == times
        && keys == values
        && keys == marks
        && h.next != 0
        && slots.shaped()
}

// A call that is refused changes nothing.
pub fn refused(h: MapHead, why: Refusal) -> Outcome<MapHead, ()>
    ensures { (result.head ≡ h) × (result.answer ≡ Err why) }
{
    Outcome {
        head: h,
        answer: Err(why),
    }
}

// A call that is accepted and changes the slots alone.
fn accepted(h: MapHead, slots: Slots) -> Outcome<MapHead, ()>
    ensures { (result.head ≡ with_slots h slots) × (result.answer ≡ Ok tt) }
{
    Outcome {
        head: MapHead { slots, ..h },
        answer: Ok(()),
    }
}

// Rule 3.5: what the transaction of a slot reads in k: what its row makes of the value at the snapshot, or that value where it has none.
fn current_value(s: Slot, stamps: Stamps<'_>, values: &[u32], k: u32) -> Value
    requires { Rowed s × (stamps.used ≤ length values.now) }
    ensures { (marks : List ℕ) → result ≡ current k s.snapshot (slot_rows s) (versions_in stamps.entry values.now marks) }
{
    match s.find(k) {
        Some(i) => {
            let e = s.effect(i);
            versions::applied_at(stamps, values, k, s.snapshot, e)
        }
        None => versions::value_at(stamps, values, k, s.snapshot),
    }
}
