// Numbers as text: decimal, no leading zero, the most significant digit first.
#![tactic(auto)]

ghost use Rattle.std.specs.Prelude.{◌+◌, ◌≤◌, length};
ghost use Rattle.decimal.specs.Digits.{digits};
ghost use Rattle.decimal.specs.Printed.{Printed};

// How many values a digit has.
const TEN: u64 = 10;

// The byte of the digit 0; the other nine follow it.
const ZERO: u8 = b'0';

// Writes n in decimal at a place of a lent buffer and answers the next place. It calls itself and writes the remainder behind: the form that the rule book
// names.
pub fn print(out: &mut [u8], at: usize, n: u64) -> usize
    requires { at + length (digits n) ≤ length out.old }
    ensures { Printed out.old at n result out.new }
{
    if n < TEN {
        out[at] = ZERO + n as u8;
        return at + 1;
    }
    let next = print(out, at, n / TEN);
    out[next] = ZERO + (n % TEN) as u8;
    next + 1
}
