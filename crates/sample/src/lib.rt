// A head of each store whose fields hold their own places, so that a host reads order, width and offset of all fields off one struct.
#![tactic(auto)]

ghost use Rattle.std.specs.Prelude.{◌≡◌, ◌≤◌, ◌%◌, ℕ};
ghost use Rattle.rules.specs.Limits.{most_running, most_keys};
ghost use Rattle.sample.specs.Sample.{journal_sample, map_sample, cells_from, slot_from, slots_from};

use journal::{Base, Journal};
use journal_store::Head;
use map_store::MapHead;
use slot::{Slot, Slots};

// A journal head whose fields hold their places, counted from 1.
pub fn journal_head() -> Head
    ensures { result ≡ journal_sample }
{
    Head {
        low: 1,
        floor: 2,
        base: Base { rows: 3 },
        journal: Journal { used: 4 },
    }
}

// A map head whose fields hold their places, counted from 1 through all slots and their rows; a mark, which is one byte, modulo 256.
pub fn map_head() -> MapHead
    ensures { result ≡ map_sample }
{
    let slots = slots_from(6);
    MapHead {
        low: 1,
        last: 2,
        next: 3,
        used: 4,
        slots: Slots { occupied: 5, slots },
    }
}

// As many fields as a slot has.
const SLOT_FIELDS: u32 = 3 + 3 * Slot::KEYS as u32;

// The eight slots, whose first field has the place given.
fn slots_from(place: u32) -> [Slot; 8]
    requires { place ≤ 1000 }
    ensures { result ≡ slots_from place most_running }
{
    let mut slots = [Slot::free(); Slots::SLOTS];
    for i in 0..Slots::SLOTS {
        slots[i] = slot_from(place + SLOT_FIELDS * i as u32);
    }
    slots
}

// A slot whose first field has the place given.
fn slot_from(place: u32) -> Slot
    requires { place ≤ 2000 }
    ensures { result ≡ slot_from place }
{
    let keys = cells_from(place + 3);
    let values = cells_from(place + 3 + Slot::KEYS as u32);
    let marks = cells_from(place + 3 + 2 * Slot::KEYS as u32);
    Slot {
        number: place,
        snapshot: (place + 1) as u64,
        count: (place + 2) as usize,
        keys,
        values,
        marks,
    }
}

// A cell that holds its place.
trait Placed {
    ghost placed: { ℕ → Self };

    fn placed(place: u32) -> Self
        ensures { result ≡ placed place };
}

// A row of a slot's keys or values.
impl Placed for u32 {
    ghost placed = { λ n. n };

    fn placed(place: u32) -> u32 {
        place
    }
}

// A row of a slot's marks, modulo 256.
impl Placed for u8 {
    ghost placed = { λ n. n % 256 };

    fn placed(place: u32) -> u8 {
        (place % 256) as u8
    }
}

// The rows of a slot's keys, values or marks, whose first has the place given.
fn cells_from<T: Placed + Copy>(place: u32) -> [T; 32]
    requires { place ≤ 3000 }
    ensures { result ≡ cells_from T.placed place most_keys }
{
    let mut cells = [T::placed(place); Slot::KEYS];
    for i in 0..Slot::KEYS {
        cells[i] = T::placed(place + i as u32);
    }
    cells
}
