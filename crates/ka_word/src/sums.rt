//! Negation.

ghost use Rattle.std.specs.Prelude.{◌≡◌};
ghost use Rattle.ka_word.specs.Sums.{negated};

use word36::Word;

/// The negated number; -2^35 stays.
#[inline(always)]
pub fn negate(word: Word) -> Word
    ensures { result ≡ negated word }
{
    word.not().sum(Word::new(1), false)
}
