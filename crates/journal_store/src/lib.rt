// The journal store: its head, and what all its calls share. Every call is lent the whole store, head, base columns and journal bytes, and makes
// the same shape test; it answers for all inputs and asks nothing of its caller. The calls take head, columns and bytes apart, not a `Store`, since C lends them so.
#![tactic(auto)]

ghost use Rattle.std.specs.Prelude.{◌≡◌, ◌+◌, ◌≤◌, length};
ghost use Rattle.rules.specs.Limits.{most_records};
ghost use Rattle.record.specs.Bytes.{appended};
ghost use Rattle.journal_store.specs.Shape.{empty_head, is_shaped, room_of};
ghost use Rattle.journal_store.specs.Heads.{grown};

use journal::{Base, Journal};
use rules::Record;

pub mod abort;
pub mod begin;
pub mod commit;
pub mod lookup;
pub mod read;
pub mod store;
pub mod update;

pub use store::Store;

// The journal head: low, floor, how many base rows and how many journal records are used.
#[repr(C)]
#[derive(Clone, Copy)]
pub struct Head {
    pub low: u64,
    pub floor: u32,
    pub base: Base,
    pub journal: Journal,
}

impl Head {
    // The head of an empty store: the constructor that the rule book names.
    pub fn empty() -> Self
        ensures { result ≡ empty_head }
    {
        Head {
            low: 0,
            floor: 1,
            base: Base::empty(),
            journal: Journal::empty(),
        }
    }

    // One record more.
    fn longer(self) -> Self
        requires { self.journal.used ≤ most_records }
        ensures { result ≡ grown self }
    {
        Head {
            journal: Journal {
                used: self.journal.used + 1,
            },
            ..self
        }
    }
}

// Section 6, number 1, the same for every call but recover: counts within limits and lent room, paired columns, floor not 0.
pub fn shaped(h: Head, keys: usize, values: usize, bytes: usize) -> bool
    ensures { result ≡ is_shaped h keys values bytes }
{
    let rows = h.base.rows;
    let used = h.journal.used;
    rows <= Base::ROWS
        && rows <= keys
        && keys == values
        && used <= Journal::RECORDS
        && used <= bytes / Record::BYTES
        && h.floor != 0
}

// A record of a transaction with a kind; key, value and time are 0.
fn blank(kind: u8, n: u32) -> Record
    ensures { result ≡ record { kind = kind; zeros = 0; transaction = n; key = 0; value = 0; time = 0 } }
{
    Record {
        kind,
        zeros: 0,
        transaction: n,
        key: 0,
        value: 0,
        time: 0,
    }
}

// The record of an accepted call goes into the unused end of the journal.
fn put(h: Head, journal: &mut [u8], r: Record) -> Head
    requires { h.journal.used + 1 ≤ room_of (length journal.old) }
    ensures { (result ≡ grown h) × (journal.new ≡ appended journal.old h.journal.used r) }
{
    record::append(journal, h.journal.used, r);
    h.longer()
}
