// The transaction slots of the map store, rule 3.8: they pass by value, and each operation hands the changed one back.
#![tactic(auto)]

ghost use Rattle.std.specs.Prelude.{Bool, true, ◌≡◌, ℕ, ◌<◌, ◌≤◌};
ghost use Rattle.std.specs.Int.Count.{ones};
ghost use Rattle.rules.specs.Limits.{most_running, most_keys};
ghost use Rattle.slot.specs.Slot.{empty_slot, opened_slot, key_row, effect_at};
ghost use Rattle.slot.specs.Slot.{noted as noted_slot};
ghost use Rattle.slot.specs.Slots.{empty_slots, slot_at, is_occupied, lowest_free, first_slot, slot_of, slots_shaped, slots_hold, opened_in, closed_in};
ghost use Rattle.slot.specs.Formed.{Rowed, Formed};

use rules::Effect;

// A transaction's slot: its number and snapshot, and a row for each key that it wrote, with what its updates of it come to: the mark 0 assigns
// the value, any other adds it. count rows are in use. Three columns and a count: the C interface hands it over so (`c/registers.h`).
#[repr(C)]
#[derive(Clone, Copy)]
pub struct Slot {
    pub number: u32,
    pub snapshot: u64,
    pub count: usize,
    pub keys: [u32; 32],
    pub values: [u32; 32],
    pub marks: [u8; 32],
}

impl Slot {
    // How many distinct keys one transaction can write.
    pub const KEYS: usize = 32;

    // A free slot is all zero.
    pub fn free() -> Self
        ensures { result ≡ empty_slot }
    {
        Slot {
            number: 0,
            snapshot: 0,
            count: 0,
            keys: [0; Slot::KEYS],
            values: [0; Slot::KEYS],
            marks: [0; Slot::KEYS],
        }
    }

    // The slot freed: all zero, whatever was there.
    pub fn close(mut self) -> Self
        ensures { result ≡ empty_slot }
    {
        self.number = 0;
        self.snapshot = 0;
        self.count = 0;
        self.keys = [0; Slot::KEYS];
        self.values = [0; Slot::KEYS];
        self.marks = [0; Slot::KEYS];
        self
    }

    // The slot taken by a new transaction: all zero but for number and snapshot, whatever was there.
    pub fn open(mut self, number: u32, snapshot: u64) -> Self
        ensures { result ≡ opened_slot number snapshot }
    {
        self = self.close();
        self.number = number;
        self.snapshot = snapshot;
        self
    }

    // The row of a key: the first below the count that has it, one of the 32 whatever the count.
    pub fn find(self, key: u32) -> Option<usize>
        ensures value { result ≡ key_row self key }
        ensures by_index { (i : ℕ) → result ≡ Some i → i < most_keys }
    {
        let keys = self.keys;
        column::find(&keys, self.count, key)
    }

    // The effect in row i.
    pub fn effect(self, i: usize) -> Effect
        requires { i < most_keys }
        ensures { result ≡ effect_at self i }
    {
        Effect::by(self.marks[i], self.values[i])
    }

    // An update noted: the key's row takes it up, or a new one gets it; nothing changes where no row is left for a new key.
    pub fn note(mut self, key: u32, e: Effect) -> Self
        ensures { result ≡ noted_slot self key e }
    {
        let count = self.count;
        match self.find(key) {
            Some(i) => {
                let both = rules::join(self.effect(i), e);
                self.values[i] = both.amount();
                self.marks[i] = both.mark();
                self
            }
            None => {
                let amount = e.amount();
                if count >= Slot::KEYS {
                    return self;
                }
                self.keys[count] = key;
                self.values[count] = amount;
                self.marks[count] = e.mark();
                self.count = count + 1;
                self
            }
        }
    }
}

// The eight slots, and the number whose one bits are the occupied ones.
#[repr(C)]
#[derive(Clone, Copy)]
pub struct Slots {
    pub occupied: u8,
    pub slots: [Slot; 8],
}

impl Slots {
    // How many transactions can run.
    pub const SLOTS: usize = 8;

    // All slots free: the constructor for the empty store, which the rule book names.
    pub fn empty() -> Self
        ensures { result ≡ empty_slots }
    {
        let s = Slot::free();
        Slots {
            occupied: 0,
            slots: [s; Slots::SLOTS],
        }
    }

    // How many transactions run.
    pub fn running(self) -> u32
        ensures { result ≡ ones self.occupied }
    {
        u8::count_ones(self.occupied)
    }

    // The lowest-numbered free slot, 8 where none is free: trailing ones, by the trailing zeros of the complement.
    pub fn lowest_free(self) -> usize
        ensures { result ≡ lowest_free self }
    {
        u8::trailing_zeros(!self.occupied) as usize
    }

    // Slot i is occupied; from 8 on none is.
    pub fn is_occupied(self, i: usize) -> bool
        ensures { result ≡ is_occupied self i }
    {
        i < Slots::SLOTS && (self.occupied >> i) % 2 == 1
    }

    // The slot at an index.
    pub fn at(self, index: usize) -> Slot
        requires { index < most_running }
        ensures { result ≡ slot_at self index }
    {
        self.slots[index]
    }

    // The lowest occupied slot that meets a test, whichever function of a slot the test computes. Where none does, all were looked at.
    fn first<F: Fn(Slot) -> bool>(self, test: F) -> Option<usize>
        requires { F.IsAlwaysCallable test }
        ensures lowest { (p : Slot → Bool) → ((s : Slot) (b : Bool) → F.post test s b → b ≡ p s) → result ≡ first_slot p self }
        ensures passed { result ≡ None → (i : ℕ) → i < most_running → is_occupied self i ≡ true → (slot_at self i).count ≤ most_keys → Rowed (slot_at self i) }
    {
        for i in 0..Slots::SLOTS {
            if self.is_occupied(i) && test(self.at(i)) {
                return Some(i);
            }
        }
        None
    }

    // The lowest occupied slot with the number, one of the eight.
    pub fn find(self, number: u32) -> Option<usize>
        ensures value { result ≡ slot_of self number }
        ensures by_index { (i : ℕ) → result ≡ Some i → i < most_running }
    {
        self.first(|s| s.number == number)
    }

    // A new transaction in the lowest-numbered free slot; nothing changes where none is free.
    pub fn opened(mut self, number: u32, snapshot: u64) -> Self
        ensures { result ≡ opened_in self number snapshot }
    {
        let i = self.lowest_free();
        if i >= Slots::SLOTS {
            return self;
        }
        let s = self.slots[i];
        self.slots[i] = s.open(number, snapshot);
        self.occupied = self.occupied | 1u8 << i;
        self
    }

    // Slot i freed: all zero, its bit too.
    pub fn closed(mut self, i: usize) -> Self
        requires { i < most_running }
        ensures { result ≡ closed_in self i }
    {
        let s = self.slots[i];
        self.slots[i] = s.close();
        self.occupied = self.occupied & !(1u8 << i);
        self
    }

    // No occupied slot has more than 32 keys. Where that is so the slots are formed, which the laws of their meaning ask.
    pub fn shaped(self) -> bool
        ensures value { result ≡ slots_shaped self }
        ensures formed { result ≡ true → Formed self }
    {
        self.first(|s| s.count > Slot::KEYS).is_none()
    }

    // The time is above the snapshot of an occupied slot.
    pub fn holds(self, t: u64) -> bool
        ensures { result ≡ slots_hold self t }
    {
        self.first(|s| s.snapshot < t).is_some()
    }
}
