// A sum of cells, by which a change is seen.
#![tactic(auto)]

ghost use Rattle.std.specs.Prelude.{◌≡◌};
ghost use Rattle.sums.specs.Sums.{more, three as three_more, total, Totals, filled};

// A sum with one number more. Its bits turn round and none is lost, so that sums which differ in one number differ.
fn more(sum: u64, x: u64) -> u64
    ensures { result ≡ more sum x }
{
    (sum << 7 | sum >> 57).wrapping_add(x)
}

// A sum with three numbers more.
pub fn three(sum: u64, x: u64, y: u64, z: u64) -> u64
    ensures { result ≡ three_more sum x y z }
{
    more(more(more(sum, x), y), z)
}

// Every byte from one place up to another gets a value. The second may lie below the first, or behind the bytes, where no part of them could be taken.
pub fn fill(bytes: &mut [u8], from: usize, to: usize, value: u8)
    ensures { bytes.new ≡ filled bytes.old from to value }
{
    for i in from..to.min(bytes.len()) {
        bytes[i] = value;
    }
}

// A sum with every cell of a column more, of whatever width: `of_bytes`, `of_column` and `of_times` say the sum itself where the cell's type is known.
pub fn of<T: Copy + Into<u64>>(sum: u64, column: &[T]) -> u64
    ensures { Totals T.converts sum column.now result }
{
    let mut s = sum;
    for x in column {
        s = more(s, (*x).into());
    }
    s
}

// A sum with every byte of a column more; the others likewise with wider cells.
pub fn of_bytes(sum: u64, column: &[u8]) -> u64
    ensures { result ≡ total sum column.now }
{
    of::<u8>(sum, column)
}

pub fn of_column(sum: u64, column: &[u32]) -> u64
    ensures { result ≡ total sum column.now }
{
    of::<u32>(sum, column)
}

pub fn of_times(sum: u64, column: &[u64]) -> u64
    ensures { result ≡ total sum column.now }
{
    of::<u64>(sum, column)
}
