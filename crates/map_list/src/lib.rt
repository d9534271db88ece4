// The map store's list: every key that has a value at a time from low to last, rising, with its value. Refusals 1, 4, 5, 12.
#![tactic(auto)]

ghost use Rattle.std.specs.Prelude.{◌≡◌, List, ℕ, ◌≤◌, ◌<◌, length};
ghost use Rattle.answer.specs.Reply.{of_listed};
ghost use Rattle.versions.specs.Versions.{columns, list_at};
ghost use Rattle.versions.specs.Stamps.{versions_in};
ghost use Rattle.map_store.specs.CallContracts.{ListedAt};
ghost use Rattle.map_list.specs.List.{ListedIn};

use answer::Refusal;
use map_store::MapHead;
use versions::{Stamps, Version};

// The list at t: computed in two columns of N cells aside, and copied where the lent ones have a row for each of its own.
fn write<const N: usize>(
    stamps: Stamps<'_>,
    values: &[u32],
    t: u64,
    out_keys: &mut [u32],
    out_values: &mut [u32],
) -> Result<usize, Refusal>
    requires { (stamps.used ≤ length values.now) × (stamps.used ≤ Version.ROWS) × (stamps.used < N) × (N ≤ Version.ASIDE) × (length out_keys.old ≡ length out_values.old) }
    ensures { (marks : List ℕ) → ListedIn (list_at (versions_in stamps.entry values.now marks) t) out_keys.old out_values.old (of_listed result) out_keys.new out_values.new }
{
    let mut listed = [0u32; N];
    let mut contents = [0u32; N];
    let count = newest::listing(stamps, values, t, &mut listed, &mut contents);
    if out_keys.len() < count {
        return Err(Refusal::NoRoom);
    }
    column::copy(&listed, count, out_keys);
    column::copy(&contents, count, out_values);
    Ok(count)
}

// The list at t, in the first rows of two lent columns. Answers how many rows it has.
pub fn list(
    h: MapHead,
    keys: &[u32],
    times: &[u64],
    values: &[u32],
    marks: &[u8],
    t: u64,
    out_keys: &mut [u32],
    out_values: &mut [u32],
) -> Result<usize, Refusal>
    ensures { ListedAt t h (columns keys.now times.now values.now marks.now) out_keys.old out_values.old (of_listed result) out_keys.new out_values.new }
{
    if out_keys.len() != out_values.len() {
        return Err(Refusal::BadShape);
    }
    if !map_store::shaped(h, keys.len(), times.len(), values.len(), marks.len()) {
        return Err(Refusal::BadShape);
    }
    if t < h.low {
        return Err(Refusal::TooOld);
    }
    if h.last < t {
        return Err(Refusal::Future);
    }
    let stamps = Stamps::new(keys, times, h.used);
    if h.used < Version::FEW {
        return write::<{ Version::FEW }>(stamps, values, t, out_keys, out_values);
    }
    write::<{ Version::ASIDE }>(stamps, values, t, out_keys, out_values)
}
