//! The eight conditions.

ghost use Rattle.std.specs.Prelude.{◌≡◌, ◌<◌, ◌^◌, ◌+◌, ◌-◌, ◌%◌, pos};
ghost use Rattle.word36.specs.Words.{signed_value};
ghost use Rattle.ka_word.specs.Conditions.{holds};

use word36::{SIGN, Word};

/// A number whose order is that of the signed words.
#[inline(always)]
fn order_key(word: Word) -> u64
    ensures { result ≡ (word + (2 ^ 64 - 2 ^ 35)) % 2 ^ 64 }
{
    word.number().wrapping_sub(SIGN)
}

/// Whether a condition holds of a and b, by the low digit of the operation.
#[inline(always)]
#[tactic(auto, unfolding(crate::specs::Conditions::holds))]
pub fn compare(digit: u32, a: Word, b: Word) -> bool
    requires { digit < 8 }
    ensures { result ≡ holds digit (signed_value a) (signed_value b) }
{
    let a = order_key(a);
    let b = order_key(b);
    match digit {
        0 => false,
        1 => a < b,
        2 => a == b,
        3 => a <= b,
        4 => true,
        5 => b <= a,
        6 => a != b,
        _ => b < a,
    }
}

/// Whether a condition holds of a and 0, by the low digit of the operation.
#[inline(always)]
#[tactic(auto, unfolding(crate::specs::Conditions::holds))]
pub fn compare_zero(digit: u32, a: Word) -> bool
    requires { digit < 8 }
    ensures { result ≡ holds digit (signed_value a) (pos 0) }
{
    let number = a.number();
    match digit {
        0 => false,
        1 => number >= SIGN,
        2 => number == 0,
        3 => number == 0 || number >= SIGN,
        4 => true,
        5 => number < SIGN,
        6 => number != 0,
        _ => number.wrapping_sub(1) < SIGN - 1,
    }
}
