// Rule 3.8: the search for a key's newest version. Most rows have other keys and are passed 16 at a time.
ghost use Rattle.std.specs.Prelude.{◌≡◌, ◌+◌, ◌≤◌, ◌<◌};
ghost use Rattle.versions.specs.Versions.{Columns, keyed, versions_of, row_of, newest};
ghost use Rattle.versions.specs.Stamps.{versions_in};

use crate::Stamps;

impl<'a> Stamps<'a> {
    // Where the newest version of k at or before t is among the rows up to row i; best is where it is among those before.
    // A later time alone replaces it, so that the earliest row among equals stays.
    fn newer_row(self, i: usize, k: u32, t: u64, best: Option<usize>) -> Option<usize>
        requires { (i < self.used) × ((others : Columns) → best ≡ row_of (newest k t (versions_of i (keyed self.keys.now self.times.now others)))) }
        ensures { (others : Columns) → result ≡ row_of (newest k t (versions_of (i + 1) (keyed self.entry.keys.now self.entry.times.now others))) }
    {
        if self.keys[i] != k {
            return best;
        }
        if self.times[i] > t {
            return best;
        }
        match best {
            Some(j) => {
                if self.times[j] < self.times[i] {
                    return Some(i);
                }
                best
            }
            None => Some(i),
        }
    }

    // The same over the rows from `from` up to `to`, one by one.
    fn newer_rows(
        self,
        from: usize,
        to: usize,
        k: u32,
        t: u64,
        best: Option<usize>,
    ) -> Option<usize>
        requires { (from ≤ to) × (to ≤ self.used) × ((others : Columns) → best ≡ row_of (newest k t (versions_of from (keyed self.keys.now self.times.now others)))) }
        ensures { (others : Columns) → result ≡ row_of (newest k t (versions_of to (keyed self.entry.keys.now self.entry.times.now others))) }
    {
        let mut newest = best;
        for i in from..to {
            newest = self.newer_row(i, k, t, newest);
        }
        newest
    }

    // Rule 3.8: the row of the newest version of k at or before t: the greatest time, the earliest row among equals. The rule book names the form: a walk
    // whose loop yields the best row, left by break.
    pub fn newest_row(self, k: u32, t: u64) -> Option<usize>
        ensures { (others : Columns) → result ≡ row_of (newest k t (versions_in self.entry others.values others.marks)) }
    {
        let mut best = None;
        let mut i = 0;
        // The rule book has this walk as a loop that yields the best row, left by break.
        let found = loop {
            i = crate::pass(self.keys, i, self.used, |key| key == k);
            if i >= self.used {
                break best;
            }
            let end = crate::near(i, self.used);
            best = self.newer_rows(i, end, k, t, best);
            i = end;
        };
        found
    }
}
