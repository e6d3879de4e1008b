//! Products of two words.

ghost use Rattle.std.specs.Prelude.{◌≡◌, ◌<◌, ◌≤◌, ◌/◌, ◌^◌, true};
ghost use Rattle.ka_word.specs.Magnitudes.{is_past, low_of, magnitude, product_is_negative, signs_differ, size_of_product, wide};
ghost use Rattle.ka_word.specs.Products.{high_word, low_word, overflows};

use word36::{MODULUS, SIGN, Word};

/// How far a signed number is from 0.
pub fn magnitude_of(word: Word) -> u64
    ensures value { result ≡ magnitude word }
    ensures most { result ≤ 2 ^ 35 }
{
    let number = word.number();
    if number >= SIGN {
        MODULUS - number
    } else {
        number
    }
}

/// Whether just one of two numbers is negative.
pub fn differ(a: Word, b: Word) -> bool
    ensures { result ≡ signs_differ a b }
{
    a.is_negative() != b.is_negative()
}

/// The product of the magnitudes, and whether the product is negative.
#[tactic(auto, using(crate::proofs::ProductBounds::product_below))]
fn multiply(a: Word, b: Word) -> (u128, bool)
    ensures size { result.0 ≡ size_of_product a b }
    ensures negative { result.1 ≡ product_is_negative a b }
    ensures most { result.0 ≤ 2 ^ 70 }
{
    let size = magnitude_of(a) as u128 * magnitude_of(b) as u128;
    (size, differ(a, b) && size != 0)
}

/// The words of a product whose size and sign are known.
fn split_size(size: u128, negative: bool) -> (Word, Word, bool)
    requires most { size ≤ 2 ^ 70 }
    requires some { negative ≡ true → 0 < size }
    ensures high { result.0 ≡ wide negative size / 2 ^ 35 }
    ensures low { result.1 ≡ low_of negative size }
    ensures fits { result.2 ≡ is_past negative size }
{
    let product = if negative { (1u128 << 71) - size } else { size };
    let sign = if negative { SIGN } else { 0 };
    let high = Word::new((product >> 35) as u64);
    let low = Word::new(sign + (product % (1u128 << 35)) as u64);
    let overflows = if negative {
        size > 1u128 << 35
    } else {
        size >= 1u128 << 35
    };
    (high, low, overflows)
}

/// The high word of a product, the low word with its sign, and whether the product does not fit in one.
#[tactic(auto, using(crate::proofs::ProductLaws::split_products))]
pub fn split_product(a: Word, b: Word) -> (Word, Word, bool)
    ensures high { result.0 ≡ high_word a b }
    ensures low { result.1 ≡ low_word a b }
    ensures fits { result.2 ≡ overflows a b }
{
    let (size, negative) = multiply(a, b);
    split_size(size, negative)
}
