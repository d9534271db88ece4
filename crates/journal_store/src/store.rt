// The whole store as a call reads it, of good shape: low and floor, the rows of the base and the records of the journal.
ghost use Rattle.std.specs.Prelude.{◌≡◌, ◌+◌, ◌≤◌, None};
ghost use Rattle.rules.specs.Limits.{most_records, most_rows};

use crate::Head;
use answer::Refusal;
use journal::Journal;
use record::Records;
use rules::Record;
use values::base::BaseRows;

#[derive(Clone, Copy)]
pub struct Store<'a> {
    pub low: u64,
    pub floor: u32,
    pub base: BaseRows<'a>,
    pub records: Records<'a>,
    pub ghost few_rows: { base.count ≤ most_rows },
    pub ghost few_records: { records.used ≤ most_records },
}

impl<'a> Store<'a> {
    ghost use Rattle.rules.specs.Calls.{with_room};
    ghost use Rattle.answer.specs.Reply.{of_done, told};
    ghost use Rattle.journal_store.specs.Lent.{Opened, room_in};

    // Section 6, number 1: a store of bad shape is refused before anything of it is read.
    pub fn new(
        h: Head,
        keys: &'a [u32],
        values: &'a [u32],
        journal: &'a [u8],
    ) -> Result<Self, Refusal>
        ensures { Opened h keys.entry.now values.entry.now journal.entry.now result }
    {
        if !crate::shaped(h, keys.len(), values.len(), journal.len()) {
            return Err(Refusal::BadShape);
        }
        Ok(Store {
            low: h.low,
            floor: h.floor,
            base: BaseRows::new(keys, values, h.base.rows),
            records: Records::new(journal, h.journal.used),
        })
    }

    // The last test of begin, update, abort and commit: so many records more fit into the lent bytes, within the limit.
    pub(crate) fn with_room(self, more: usize) -> Result<(), Refusal>
        ensures { of_done result ≡ told (with_room 0 (self.entry.records.used + more) (room_in self.entry)) None }
    {
        let room = Journal::RECORDS.min(self.records.bytes.len() / Record::BYTES);
        if room - self.records.used < more {
            return Err(Refusal::NoRoom);
        }
        Ok(())
    }
}
