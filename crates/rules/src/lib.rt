// The kinds that everything speaks of: what a register holds, what an update does to it, and a record of the journal.
// Section 3 of the rule book stands beside them in specs/, a file for each rule.
#![tactic(auto)]

ghost use Rattle.std.specs.Prelude.{◌≡◌, ◌&&◌, nat_le};
ghost use Rattle.rules.specs.Kinds.{is_commit, is_update};
ghost use Rattle.rules.specs.Effects.{applied, joined, is_add, mark_of, amount_of, effect_by, effect_of};

// What a register holds: a number, or none, which is absent. 0 is an ordinary value and differs from absent.
pub type Value = Option<u32>;

// What an update does to a register.
#[derive(Clone, Copy)]
pub enum Effect {
    Assign(u32),
    Add(u32),
}

impl Effect {
    // The effect that a mark and an amount hold in cells. A mark is a byte, as the C interface lends it; of a pair `From` would not say which is which.
    pub fn by(mark: u8, amount: u32) -> Self
        ensures { result ≡ effect_by mark amount }
    {
        if mark == 0 {
            return Effect::Assign(amount);
        }
        Effect::Add(amount)
    }

    // Whether it adds.
    pub fn adds(self) -> bool
        ensures { result ≡ is_add self }
    {
        matches!(self, Effect::Add(_))
    }

    // Its mark in a cell.
    pub fn mark(self) -> u8
        ensures { result ≡ mark_of self }
    {
        u8::from(self.adds())
    }

    // Its amount in a cell.
    pub fn amount(self) -> u32
        ensures { result ≡ amount_of self }
    {
        match self {
            Effect::Assign(v) => v,
            Effect::Add(d) => d,
        }
    }
}

// Rule 3.1: what an effect makes of the value before it.
pub fn apply(e: Effect, old: Value) -> Value
    ensures { result ≡ applied e old }
{
    match e {
        Effect::Assign(v) => Some(v),
        Effect::Add(d) => Some(std::num::wrapping_add_u32(old.unwrap_or(0), d)),
    }
}

// What two effects, the newer after the older, come to as one.
pub fn join(older: Effect, newer: Effect) -> Effect
    ensures { result ≡ joined older newer }
{
    match newer {
        Effect::Assign(v) => Effect::Assign(v),
        Effect::Add(d) => match older {
            Effect::Assign(v) => Effect::Assign(std::num::wrapping_add_u32(v, d)),
            Effect::Add(t) => Effect::Add(std::num::wrapping_add_u32(t, d)),
        },
    }
}

// A record of the journal: all its 24 bytes as numbers. `zeros` are the bytes 1 to 3, which an accepted call writes as 0.
#[derive(Clone, Copy)]
pub struct Record {
    pub kind: u8,
    pub zeros: u32,
    pub transaction: u32,
    pub key: u32,
    pub value: u32,
    pub time: u64,
}

impl Record {
    // How many bytes a record takes.
    pub const BYTES: usize = 24;
    // The kinds of section 4. Numbers: a damaged journal may hold any byte, which `record_at` keeps, so that an enum would need a case for the others
    // with the byte in it, and every test would name the kinds as it does now.
    pub const BEGIN: u8 = 1;

    pub const ASSIGN: u8 = 2;

    pub const ADD: u8 = 3;

    pub const COMMIT: u8 = 4;

    pub const ABORT: u8 = 5;

    // Whether it is an update: an assign or an add.
    pub fn is_update(self) -> bool
        ensures { result ≡ is_update self }
    {
        matches!(self.kind, Record::ASSIGN | Record::ADD)
    }

    // The effect of an update record.
    pub fn effect(self) -> Effect
        ensures { result ≡ effect_of self }
    {
        if self.kind == Record::ASSIGN {
            return Effect::Assign(self.value);
        }
        Effect::Add(self.value)
    }

    // Whether it is a commit at or before t: its transaction's effects stand then.
    pub fn settles(self, t: u64) -> bool
        ensures { result ≡ (is_commit self && nat_le self.time t) }
    {
        self.kind == Record::COMMIT && self.time <= t
    }
}
