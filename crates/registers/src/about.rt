// What the library was built with: its limits, the numbers of its refusals, and a head of each store whose fields hold their own places. A host
// compares its constants and structs with them.
ghost use Rattle.std.specs.Prelude.{◌≡◌};
ghost use Rattle.sample.specs.Sample.{journal_sample, map_sample};
ghost use Rattle.registers.specs.About.{limits, numbers};

use answer::Refusal;
use journal::{Base, Journal};
use journal_store::Head;
use map_store::MapHead;
use rules::Record;
use versions::Version;

// The limits of section 2, how many refusals there are, and which layout the heads have.
#[repr(C)]
#[derive(Clone, Copy)]
pub struct Limits {
    pub layout: u32,
    pub running: u32,
    pub keys: u32,
    pub base_rows: u32,
    pub version_rows: u32,
    pub journal_bytes: u32,
    pub record_bytes: u32,
    pub refusals: u32,
}

impl Limits {
    // The layout of both heads: another number where a field is added, moved or made wider.
    pub const LAYOUT: u32 = 2;
}

// The number of each refusal, under the name of what happened.
#[repr(C)]
#[derive(Clone, Copy)]
pub struct Numbers {
    pub bad_shape: u32,
    pub unknown_transaction: u32,
    pub bad_key: u32,
    pub too_old: u32,
    pub future: u32,
    pub too_many: u32,
    pub no_numbers: u32,
    pub keys_full: u32,
    pub held: u32,
    pub not_later: u32,
    pub conflict: u32,
    pub no_room: u32,
    pub bad_record: u32,
}

// The limits.
pub fn registers_limits() -> Limits
    ensures { result ≡ limits }
{
    Limits {
        layout: Limits::LAYOUT,
        running: Journal::RUNNING as u32,
        keys: Journal::KEYS as u32,
        base_rows: Base::ROWS as u32,
        version_rows: Version::ROWS as u32,
        journal_bytes: (Journal::RECORDS * Record::BYTES) as u32,
        record_bytes: Record::BYTES as u32,
        refusals: Refusal::BadRecord(0).number(),
    }
}

// The numbers of the refusals.
pub fn registers_numbers() -> Numbers
    ensures { result ≡ numbers }
{
    Numbers {
        bad_shape: Refusal::BadShape.number(),
        unknown_transaction: Refusal::UnknownTransaction.number(),
        bad_key: Refusal::BadKey.number(),
        too_old: Refusal::TooOld.number(),
        future: Refusal::Future.number(),
        too_many: Refusal::TooMany.number(),
        no_numbers: Refusal::NoNumbers.number(),
        keys_full: Refusal::KeysFull.number(),
        held: Refusal::Held.number(),
        not_later: Refusal::NotLater.number(),
        conflict: Refusal::Conflict.number(),
        no_room: Refusal::NoRoom.number(),
        bad_record: Refusal::BadRecord(0).number(),
    }
}

// A journal head whose fields hold their places.
pub fn registers_journal_sample() -> Head
    ensures { result ≡ journal_sample }
{
    sample::journal_head()
}

// A map head whose fields hold their places.
pub fn registers_map_sample() -> MapHead
    ensures { result ≡ map_sample }
{
    sample::map_head()
}
