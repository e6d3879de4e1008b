//! Leading zeros.

ghost use Rattle.std.specs.Prelude.{◌≡◌};
ghost use Rattle.std.specs.Int.Count.{count_leading_zeros};

use word36::Word;

/// The number of zeros before the first bit that is set.
#[tactic(auto, using(crate::proofs::ZeroCount::zeros_of_36))]
pub fn leading_zeros(word: Word) -> Word
    ensures { result ≡ count_leading_zeros 36 word }
{
    let zeros = word.number().leading_zeros();
    Word::low_bits(zeros.saturating_sub(28) as u64)
}
