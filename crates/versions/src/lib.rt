// The versions of the map store: lent columns of keys, commit times, values and marks, of which the first `used` rows count.
#![tactic(auto)]

mod conflict;
mod search;
mod stamps;

ghost use Rattle.std.specs.Prelude.{◌≡◌, Bool, false, List, ℕ, ◌+◌, ◌-◌, ◌≤◌, ◌<◌, min, length, take, drop};
ghost use Rattle.rules.specs.Effects.{applied};
ghost use Rattle.versions.specs.Versions.{columns, value_at};
ghost use Rattle.versions.specs.Columns.{Spans, with_version};
ghost use Rattle.std.specs.List.{list_any};
ghost use Rattle.versions.specs.Stamps.{versions_in};

pub use conflict::first_late;
use rules::{Effect, Value};
pub use stamps::Stamps;

// What a commit gave a key: a row of the four columns. The mark is 0 unless adds alone made the value.
#[derive(Clone, Copy)]
pub struct Version {
    pub key: u32,
    pub time: u64,
    pub value: u32,
    pub mark: u8,
}

impl Version {
    // How many versions a store keeps at most.
    pub const ROWS: usize = 4096;

    // A column beside the versions has a cell for each, and a spare one.
    pub const ASIDE: usize = Version::ROWS + 1;

    // Fewer versions than this have small columns beside them, since it takes time to make large ones.
    pub const FEW: usize = 64;

    // How many rows are compared side by side.
    const WIDE: usize = 16;
}

// Whether a cell passes a test. No cell ends the loop, so that the compiler tests them side by side.
fn some<T: Copy, F: Fn(T) -> bool>(cells: &[T], test: F) -> bool
    requires { F.IsAlwaysCallable test }
    ensures { (p : T → Bool) → ((x : T) (b : Bool) → F.post test x b → b ≡ p x) → result ≡ list_any p cells.now }
{
    let mut met = false;
    for x in cells {
        met |= test(*x);
    }
    met
}

// How far the cells from `from` on can be passed: up to 16 of which one passes the test, or to fewer than 16.
fn pass<T: Copy, F: Fn(T) -> bool>(cells: &[T], from: usize, used: usize, test: F) -> usize
    requires { F.IsAlwaysCallable test × (from ≤ used) × (used ≤ length cells.now) }
    ensures { (from ≤ result) × (result ≤ used) × ((p : T → Bool) → ((x : T) (b : Bool) → F.post test x b → b ≡ p x) → list_any p (take (result - from) (drop from cells.now)) ≡ false) }
{
    let mut i = from;
    // It goes on by 16 cells and answers where it stopped, which a `for` by steps would have to count beside its index.
    while used - i >= Version::WIDE {
        let end = i + Version::WIDE;
        if some(&cells[i..end], &test) {
            return i;
        }
        i = end;
    }
    i
}

// Where the rows end that are looked at one by one before passing goes on.
fn near(i: usize, used: usize) -> usize
    requires { i < used }
    ensures { result ≡ min used (i + 16) }
{
    i + Version::WIDE.min(used - i)
}

// The value of k at t, or absent.
pub fn value_at(stamps: Stamps<'_>, values: &[u32], k: u32, t: u64) -> Value
    requires { stamps.used ≤ length values.now }
    ensures { (marks : List ℕ) → result ≡ value_at k t (versions_in stamps.entry values.now marks) }
{
    let i = stamps.newest_row(k, t)?;
    Some(values[i])
}

// What an effect makes of the value of k at t: an assign asks for no old value, and so for no search.
pub fn applied_at(stamps: Stamps<'_>, values: &[u32], k: u32, t: u64, e: Effect) -> Value
    requires { stamps.used ≤ length values.now }
    ensures { (marks : List ℕ) → result ≡ applied e (value_at k t (versions_in stamps.entry values.now marks)) }
{
    match e {
        Effect::Assign(v) => Some(v),
        Effect::Add(_) => rules::apply(e, value_at(stamps, values, k, t)),
    }
}

// Rule 3.8: one version more, in row `used`. Four columns and a count, as the C interface lends them: a struct of columns lent mutably would be built and
// taken apart at each call.
pub fn append(
    keys: &mut [u32],
    times: &mut [u64],
    values: &mut [u32],
    marks: &mut [u8],
    used: usize,
    v: Version,
)
    requires { Spans (used + 1) (columns keys.old times.old values.old marks.old) }
    ensures { columns keys.new times.new values.new marks.new ≡ with_version used v (columns keys.old times.old values.old marks.old) }
{
    keys[used] = v.key;
    times[used] = v.time;
    values[used] = v.value;
    marks[used] = v.mark;
}
