// What the library was built with, under the names that a host in C, C++ or Rust calls.
ghost use Rattle.std.specs.Prelude.{◌≡◌};
ghost use Rattle.sample.specs.Sample.{journal_sample, map_sample};
ghost use Rattle.registers.specs.About.{limits, numbers};

use journal_store::Head;
use map_store::MapHead;
use registers::about::{Limits, Numbers};

// The limits.
#[unsafe(no_mangle)]
pub extern "C" fn registers_limits() -> Limits
    ensures { result ≡ limits }
{
    registers::about::registers_limits()
}

// The numbers of the refusals.
#[unsafe(no_mangle)]
pub extern "C" fn registers_numbers() -> Numbers
    ensures { result ≡ numbers }
{
    registers::about::registers_numbers()
}

// A journal head whose fields hold their places.
#[unsafe(no_mangle)]
pub extern "C" fn registers_journal_sample() -> Head
    ensures { result ≡ journal_sample }
{
    registers::about::registers_journal_sample()
}

// A map head whose fields hold their places.
#[unsafe(no_mangle)]
pub extern "C" fn registers_map_sample() -> MapHead
    ensures { result ≡ map_sample }
{
    registers::about::registers_map_sample()
}
