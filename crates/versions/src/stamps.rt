// What a search reads of the versions.
ghost use Rattle.std.specs.Prelude.{◌≡◌, ◌≤◌, length};

// The keys and times of the versions, of which the first `used` count: what a search reads.
#[derive(Clone, Copy)]
pub struct Stamps<'a> {
    pub keys: &'a [u32],
    pub times: &'a [u64],
    pub used: usize,
    ghost there: { (used ≤ length keys.now) × (used ≤ length times.now) },
}

impl<'a> Stamps<'a> {
    pub fn new(keys: &'a [u32], times: &'a [u64], used: usize) -> Self
        requires { (used ≤ length keys.now) × (used ≤ length times.now) }
        ensures { (result.keys.now ≡ keys.now) × (result.times.now ≡ times.now) × (result.used ≡ used) }
    {
        Stamps { keys, times, used }
    }
}
