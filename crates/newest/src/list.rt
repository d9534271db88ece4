// Rule 3.4 for versions: the list at a time. The table of the newest rows has its keys in order; each row is followed to its value.
ghost use Rattle.std.specs.Prelude.{◌≡◌, List, ◌++◌, ℕ, ◌≤◌, ◌<◌, length, take, drop, get_or};
ghost use Rattle.versions.specs.Versions.{list_at};
ghost use Rattle.versions.specs.Stamps.{versions_in};
ghost use Rattle.table.specs.Table.{Spare, Next};
ghost use Rattle.newest.specs.Newest.{followed};

use versions::{Stamps, Version};

// The first cells of a column of rows, each followed to its value.
fn follow(values: &[u32], n: usize, places: &mut [u32])
    requires { (n ≤ length places.old) × ((x : ℕ) → x < n → get_or places.old x 0 < length values.now) }
    ensures { places.new ≡ followed values.now (take n places.old) ++ drop n places.old }
{
    for i in 0..n {
        places[i] = values[places[i] as usize];
    }
}

// The list at t, in the first cells of two columns that have a cell for each version and a spare one: how many rows it has.
pub fn listing(
    stamps: Stamps<'_>,
    values: &[u32],
    t: u64,
    listed: &mut [u32],
    contents: &mut [u32],
) -> usize
    requires { (stamps.used ≤ Version.ROWS) × (stamps.used ≤ length values.now) × Spare listed.old contents.old stamps.used }
    ensures { (marks : List ℕ) → Next (list_at (versions_in stamps.entry values.now marks) t) listed.old contents.old listed.new contents.new result }
{
    let n = crate::newest_rows(stamps, t, listed, contents);
    follow(values, n, contents);
    n
}
