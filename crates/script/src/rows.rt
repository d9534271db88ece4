// The rows that are lent to a list.
ghost use Rattle.std.specs.Prelude.{◌≡◌, ◌≤◌, min, slice_index};
ghost use Rattle.script.specs.Rows.{most_lent, place_of, told};

use answer::shown::Answer;
use std::num::wrapping_add_u64;

// How many there are, and what they hold before a list.
pub const ROWS: usize = 64;

pub const MARK: u32 = 7;

// How many are lent where a line asks for so many: at most as many as there are.
pub fn lent(count: u64) -> usize
    ensures { (result ≡ min count most_lent) × (result ≤ most_lent) }
{
    (count as usize).min(ROWS)
}

// The cell of a row, counted from 1.
fn cell(column: &[u32; ROWS], row: u64) -> u32
    ensures { result ≡ slice_index column.now (place_of row) }
{
    let place = (wrapping_add_u64(row, 63) % 64) as usize;
    column[place]
}

// What a list is answered; or, where a line asks for one of the rows after it, the key and the value there.
pub fn told(answer: Answer, keys: &[u32; ROWS], values: &[u32; ROWS], row: u64) -> Answer
    ensures { result ≡ told answer keys.now values.now row }
{
    if row == 0 {
        return answer;
    }
    Answer::beside(cell(keys, row), cell(values, row) as u64)
}
