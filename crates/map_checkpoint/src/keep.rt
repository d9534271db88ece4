// Rule 3.10: a checkpoint keeps the versions after its time and, for each key, its newest at or before it.
ghost use Rattle.std.specs.Prelude.{◌≡◌, false, ◌||◌, ℕ, ◌≤◌, ◌<◌, ltb, length, get_or, take};
ghost use Rattle.rules.specs.Lists.{among};
ghost use Rattle.versions.specs.Versions.{Columns, columns, keyed, version_at, versions_of, newest, is_row, is_kept};
ghost use Rattle.versions.specs.Stamps.{versions_in};
ghost use Rattle.versions.specs.Columns.{Spans, picked, Moved, cleared, Kept};
ghost use Rattle.table.specs.Table.{Spare};

use versions::{Stamps, Version};

// Picks those of the first rows that are after t.
fn pick_late(times: &[u64], used: usize, t: u64, picks: &mut [bool])
    requires { (used ≤ length times.now) × (used ≤ length picks.old) }
    ensures { (i : ℕ) → i < used → get_or picks.new i false ≡ ltb t (get_or times.now i 0) }
{
    for i in 0..used {
        picks[i] = times[i] > t;
    }
}

// Picks the rows that the first cells of a column name.
fn pick_named(places: &[u32], n: usize, picks: &mut [bool])
    requires { (n ≤ length places.now) × ((x : ℕ) → x < n → get_or places.now x 0 < length picks.old) }
    ensures { (i : ℕ) → get_or picks.new i false ≡ (among i (take n places.now) || get_or picks.old i false) }
{
    for x in 0..n {
        picks[places[x] as usize] = true;
    }
}

// Picks the newest version of key 0, which no table has.
fn pick_zero(stamps: Stamps<'_>, t: u64, picks: &mut [bool])
    requires { stamps.used ≤ length picks.old }
    ensures { (others : Columns) (i : ℕ) → get_or picks.new i false ≡ (is_row i (newest 0 t (versions_in stamps.entry others.values others.marks)) || get_or picks.old i false) }
{
    if let Some(j) = stamps.newest_row(0, t) {
        picks[j] = true;
    }
}

// Picks the rows that are kept, by the table of the newest rows, for which two columns are lent. All are decided before one moves.
fn pick_kept(stamps: Stamps<'_>, t: u64, listed: &mut [u32], places: &mut [u32], picks: &mut [bool])
    requires { (stamps.used ≤ Version.ROWS) × Spare listed.old places.old stamps.used × (stamps.used ≤ length picks.old) }
    ensures { (others : Columns) (i : ℕ) → i < stamps.entry.used → get_or picks.new i false ≡ is_kept t (versions_in stamps.entry others.values others.marks) i (version_at i (keyed stamps.entry.keys.now stamps.entry.times.now others)) }
{
    let n = newest::newest_rows(stamps, t, listed, places);
    pick_late(stamps.times, stamps.used, t, picks);
    pick_named(places, n, picks);
    pick_zero(stamps, t, picks);
}

// Moves the picked rows up, in order, and answers how many there are. The columns come one by one, as the C interface lends them.
fn move_up(
    keys: &mut [u32],
    times: &mut [u64],
    values: &mut [u32],
    marks: &mut [u8],
    used: usize,
    picks: &[bool],
) -> usize
    requires { Spans used (columns keys.old times.old values.old marks.old) × (used ≤ length picks.now) }
    ensures { Moved (picked picks.now (versions_of used (columns keys.old times.old values.old marks.old))) (columns keys.old times.old values.old marks.old) (columns keys.new times.new values.new marks.new) result }
{
    let mut kept = 0;
    for i in 0..used {
        if picks[i] {
            keys[kept] = keys[i];
            times[kept] = times[i];
            values[kept] = values[i];
            marks[kept] = marks[i];
            kept += 1;
        }
    }
    kept
}

// Makes the rows from `from` up to `to` zero.
fn clear(
    keys: &mut [u32],
    times: &mut [u64],
    values: &mut [u32],
    marks: &mut [u8],
    from: usize,
    to: usize,
)
    requires { Spans to (columns keys.old times.old values.old marks.old) × (from ≤ to) }
    ensures { columns keys.new times.new values.new marks.new ≡ cleared from to (columns keys.old times.old values.old marks.old) }
{
    keys[from..to].fill(0);
    times[from..to].fill(0);
    values[from..to].fill(0);
    marks[from..to].fill(0);
}

// A checkpoint at t, for which two columns and picks are lent. Never within its callers: their columns share the stack with the head that is given back.
#[inline(never)]
fn keep_in(
    keys: &mut [u32],
    times: &mut [u64],
    values: &mut [u32],
    marks: &mut [u8],
    used: usize,
    t: u64,
    listed: &mut [u32],
    places: &mut [u32],
    picks: &mut [bool],
) -> usize
    requires { Spans used (columns keys.old times.old values.old marks.old) × (used ≤ Version.ROWS) × Spare listed.old places.old used × (used ≤ length picks.old) }
    ensures { Kept t used (columns keys.old times.old values.old marks.old) (columns keys.new times.new values.new marks.new) result }
{
    let stamps = Stamps::new(keys, times, used);
    pick_kept(stamps, t, listed, places, picks);
    let kept = move_up(keys, times, values, marks, used, picks);
    clear(keys, times, values, marks, kept, used);
    kept
}

// The same of fewer than N versions, in columns of N cells aside.
fn keep<const N: usize>(
    keys: &mut [u32],
    times: &mut [u64],
    values: &mut [u32],
    marks: &mut [u8],
    used: usize,
    t: u64,
) -> usize
    requires { Spans used (columns keys.old times.old values.old marks.old) × (used ≤ Version.ROWS) × (used < N) × (N ≤ Version.ASIDE) }
    ensures { Kept t used (columns keys.old times.old values.old marks.old) (columns keys.new times.new values.new marks.new) result }
{
    let mut listed = [0u32; N];
    let mut places = [0u32; N];
    let mut picks = [false; N];
    keep_in(
        keys,
        times,
        values,
        marks,
        used,
        t,
        &mut listed,
        &mut places,
        &mut picks,
    )
}

// A checkpoint at t: kept versions move up in order, freed rows are zero. Answers how many versions are kept. For few versions small columns aside
// are enough.
pub fn keep_from(
    keys: &mut [u32],
    times: &mut [u64],
    values: &mut [u32],
    marks: &mut [u8],
    used: usize,
    t: u64,
) -> usize
    requires { Spans used (columns keys.old times.old values.old marks.old) × (used ≤ Version.ROWS) }
    ensures { Kept t used (columns keys.old times.old values.old marks.old) (columns keys.new times.new values.new marks.new) result }
{
    if used < Version::FEW {
        return keep::<{ Version::FEW }>(keys, times, values, marks, used, t);
    }
    keep::<{ Version::ASIDE }>(keys, times, values, marks, used, t)
}
