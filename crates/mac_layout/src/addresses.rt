//! The addresses of a job's memory.

ghost use Rattle.std.specs.Prelude.{◌≡◌, min};

use whole_numbers::Natural;
use word36::ADDRESSES;

/// How many addresses there are: an address has 18 bits.
pub const MEMORY_SIZE: usize = ADDRESSES as usize;

/// The address of the first statement, and the start where END names none.
pub const FIRST: u32 = 0o140;

/// The lesser of a number and `most`.
pub fn clamped(number: &Natural, most: usize) -> usize
    ensures { result ≡ min number.now most }
{
    match number.to_u64() {
        None => most,
        Some(number) => number.min(most as u64) as usize,
    }
}
