// The whole store as a call reads it, of good shape: the head, what a search reads of the versions, their values and their marks.
ghost use Rattle.std.specs.Prelude.{◌≤◌, length};
ghost use Rattle.slot.specs.Formed.{Formed};

use crate::MapHead;
use answer::Refusal;
use versions::Stamps;

// The head stays where it is: its slots are large.
#[derive(Clone, Copy)]
pub(crate) struct Store<'a> {
    pub head: &'a MapHead,
    pub stamps: Stamps<'a>,
    pub values: &'a [u32],
    pub marks: &'a [u8],
    pub ghost formed: { Formed head.now.slots },
    pub ghost valued: { stamps.used ≤ length values.now },
}

impl<'a> Store<'a> {
    ghost use Rattle.versions.specs.Versions.{columns};
    ghost use Rattle.map_store.specs.Lent.{Opened};

    // Section 6, number 1: a store of bad shape is refused before anything of it is read.
    pub(crate) fn new(
        head: &'a MapHead,
        keys: &'a [u32],
        times: &'a [u64],
        values: &'a [u32],
        marks: &'a [u8],
    ) -> Result<Self, Refusal>
        ensures { Opened head.entry.now (columns keys.entry.now times.entry.now values.entry.now marks.entry.now) result }
    {
        if !crate::shaped(*head, keys.len(), times.len(), values.len(), marks.len()) {
            return Err(Refusal::BadShape);
        }
        Ok(Store {
            head,
            stamps: Stamps::new(keys, times, head.used),
            values,
            marks,
        })
    }
}
