// What the records of a journal say of transactions and times: rules 3.2 and 3.3, read only. Damaged records are records like any
// other; unknown kinds are passed over. Every pass is lent `Records`, whose fact is that the used records are there.
#![tactic(auto)]

ghost use Rattle.std.specs.Prelude.{◌≡◌};
ghost use Rattle.journal.specs.Kinds.{empty_base, empty_journal};

pub mod times;
pub mod transactions;

// The base table below the journal: how many of its rows are used.
#[repr(C)]
#[derive(Clone, Copy)]
pub struct Base {
    pub rows: usize,
}

impl Base {
    // How many rows a base has at the most.
    pub const ROWS: usize = 512;

    // No row is used: the constructor for the empty store, which the rule book names.
    pub fn empty() -> Self
        ensures { result ≡ empty_base }
    {
        Base { rows: 0 }
    }
}

// The journal: how many of its records are used.
#[repr(C)]
#[derive(Clone, Copy)]
pub struct Journal {
    pub used: usize,
}

impl Journal {
    // How many records a journal has at the most.
    pub const RECORDS: usize = 2048;

    // How many records a short journal has at the most: its calls take short columns, since to zero long ones takes longer than the call.
    pub const FEW: usize = 64;

    // How many transactions run at the most.
    pub const RUNNING: usize = 8;

    // How many distinct keys a transaction writes at the most.
    pub const KEYS: usize = 32;

    // The number that no transaction has: next stays there.
    pub const NO_NUMBER: u32 = 4294967295;

    // No record is used: the constructor for the empty store, which the rule book names.
    pub fn empty() -> Self
        ensures { result ≡ empty_journal }
    {
        Journal { used: 0 }
    }
}
