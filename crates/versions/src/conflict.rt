// Rule 3.6: whether a key has a version later than a snapshot; two that only added excuse each other. The versions in front that are not later are
// passed once for all keys of a commit: in a store that calls wrote these are all that were there when it began.
ghost use Rattle.std.specs.Prelude.{◌≡◌, false, not, ◌&&◌, List, ℕ, ◌≤◌, eqb, ltb, length};
ghost use Rattle.versions.specs.Versions.{columns, versions_of, later};
ghost use Rattle.versions.specs.Search.{Early, FirstLate};
ghost use Rattle.versions.specs.Stamps.{versions_in};

use crate::Stamps;

// The first row whose time is later than s, or how many rows there are.
pub fn first_late(times: &[u64], used: usize, s: u64) -> usize
    requires { used ≤ length times.now }
    ensures { FirstLate s times.now used result }
{
    let from = crate::pass(times, 0, used, |time| time > s);
    for i in from..used {
        if times[i] > s {
            return i;
        }
    }
    used
}

// Whether a later version meets a transaction: not if adds alone made it and the transaction only added. That it only added is a fact of the transaction,
// which `later` names: no step is chosen by it.
fn meets(mark: u8, adds: bool) -> bool
    ensures { result ≡ not (adds && not (eqb mark 0)) }
{
    !(adds & (mark != 0))
}

impl<'a> Stamps<'a> {
    // Whether there is a version of k later than s that meets the transaction up to row `to`, where there is none before row `from`: the rows between,
    // one by one.
    fn is_later_among(
        self,
        marks: &[u8],
        from: usize,
        to: usize,
        k: u32,
        adds: bool,
        s: u64,
    ) -> bool
        requires { (from ≤ to) × (to ≤ self.used) × (self.used ≤ length marks.now) × ((values : List ℕ) → later s k adds (versions_of from (columns self.keys.now self.times.now values marks.now)) ≡ false) }
        ensures { (values : List ℕ) → result ≡ later s k adds (versions_of to (columns self.entry.keys.now self.entry.times.now values marks.now)) }
    {
        for i in from..to {
            if self.keys[i] == k {
                if self.times[i] > s {
                    if meets(marks[i], adds) {
                        return true;
                    }
                }
            }
        }
        false
    }

    // Rule 3.6: whether there is a version of k later than s that meets a transaction which only added to k or not, where the rows before `from` have
    // no later time.
    pub fn is_later(self, marks: &[u8], from: usize, k: u32, adds: bool, s: u64) -> bool
        requires { (from ≤ self.used) × (self.used ≤ length marks.now) × Early s self.times.now from }
        ensures { (values : List ℕ) → result ≡ later s k adds (versions_in self.entry values marks.now) }
    {
        let mut i = from;
        // It goes on by as many rows as are passed or looked at in a turn: no `for` has such steps.
        loop {
            i = crate::pass(self.keys, i, self.used, |key| key == k);
            if i >= self.used {
                return false;
            }
            let end = crate::near(i, self.used);
            if self.is_later_among(marks, i, end, k, adds, s) {
                return true;
            }
            i = end;
        }
    }
}
