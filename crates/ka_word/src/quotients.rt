//! Quotients of two words.

ghost use Rattle.std.specs.Prelude.{◌≡◌, ◌≤◌, ◌^◌, false};
ghost use Rattle.ka_word.specs.Magnitudes.{with_sign};
ghost use Rattle.ka_word.specs.Quotients.{no_quotient, quotient_of, remainder_of};

use crate::products::{differ, magnitude_of};
use word36::{MODULUS, SIGN, Word};

/// The word of a sign and a magnitude.
fn signed_word(negative: bool, size: u64) -> Word
    requires { size ≤ 2 ^ 35 }
    ensures { result ≡ with_sign negative size }
{
    if negative {
        Word::low_bits(MODULUS - size)
    } else {
        Word::new(size)
    }
}

/// Whether a division is not done: the divisor is 0, or the quotient would be 2 ^ 35.
pub fn has_no_quotient(a: Word, b: Word) -> bool
    ensures { result ≡ no_quotient a b }
{
    b.number() == 0 || a.number() == SIGN && b.number() == MODULUS - 1
}

/// The quotient toward 0, and the remainder, which has the sign of the dividend.
#[tactic(auto, using(crate::proofs::ProductBounds::quotients, crate::proofs::QuotientLaws::divisions))]
pub fn divide(a: Word, b: Word) -> (Word, Word)
    requires { no_quotient a b ≡ false }
    ensures quotient { result.0 ≡ quotient_of a b }
    ensures remainder { result.1 ≡ remainder_of a b }
{
    let size = magnitude_of(a);
    let divisor = magnitude_of(b);
    let quotient = signed_word(differ(a, b), size / divisor);
    let remainder = signed_word(a.is_negative(), size % divisor);
    (quotient, remainder)
}
