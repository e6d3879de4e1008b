//! Numbers by which parts are found in a table.
ghost use Rattle.std.specs.Prelude.{◌≡◌};
ghost use Rattle.kept_parts.specs.Slots.{digest};

use word36::Word;

/// A number for some words; two lists with two numbers are not the same.
pub(crate) fn digest(words: &[Word]) -> u64
    ensures { result ≡ digest 0 words.now }
{
    let mut sum: u64 = 0;
    for word in words {
        sum = sum.wrapping_mul(31).wrapping_add(word.number());
    }
    sum
}
