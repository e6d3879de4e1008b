//! Numbers as words and halves, and the operators that take words.

ghost use Rattle.std.specs.Prelude.{◌≡◌, ◌<◌, ◌^◌};
ghost use Rattle.std.specs.Option.{SomeIff};
ghost use Rattle.macro_values.specs.Values.{HasWord, word_at, HasHalf, half_at, product_of, quotient_of, shift_of, halves_sum};

use word36::{MODULUS, SIGN, Word};

/// One more than the largest half of a word.
const HALF: i64 = 0o1_000_000;

/// The word of a number, read as signed or not: -2^35 to 2^36-1 has one (this project's profile).
pub fn word_of(number: i64) -> Option<Word>
    ensures { SomeIff result (HasWord number) (word_at number) }
{
    if number < -(SIGN as i64) || number >= MODULUS as i64 {
        None
    } else if number < 0 {
        Some(Word::new((number + MODULUS as i64) as u64))
    } else {
        Some(Word::new(number as u64))
    }
}

/// The half of a word, or the address, of a number: -777777 to 777777 octal has one (this project's profile).
pub fn half_of(number: i64) -> Option<u32>
    ensures { SomeIff result (HasHalf number) (half_at number) }
{
    if number <= -HALF || number >= HALF {
        None
    } else if number < 0 {
        Some((number + HALF) as u32)
    } else {
        Some(number as u32)
    }
}

/// `*`: the product of two words as signed numbers. None where no word holds it (MACRO-10 Assembler Manual).
pub fn multiply(a: Word, b: Word) -> Option<Word>
    ensures { SomeIff result (HasWord (product_of a b)) (word_at (product_of a b)) }
{
    match a.signed().checked_mul(b.signed()) {
        Some(product) => word_of(product),
        None => None,
    }
}

/// `/`: the quotient of two words as signed numbers, toward 0. None for a divisor of 0 (MACRO-10 Assembler Manual).
pub fn divide(a: Word, b: Word) -> Option<Word>
    ensures { SomeIff result (0 < b) (word_at (quotient_of a b)) }
{
    if b.number() == 0 {
        return None;
    }
    match a.signed().checked_div(b.signed()) {
        Some(quotient) => word_of(quotient),
        None => None,
    }
}

/// `_` and `B`: a word moved to the left by so many bits, or to the right where that is negative. Bits that leave
/// the word are lost (MACRO-10 Assembler Manual, LSH).
#[tactic(auto, using(crate::proofs::Shifting::gone))]
pub fn shift(word: Word, by: i64) -> Word
    ensures { result ≡ shift_of word by }
{
    let places = by.unsigned_abs();
    if places >= 36 {
        Word::new(0)
    } else if by < 0 {
        Word::new(word.number() >> places)
    } else {
        Word::low_bits(word.number() << places)
    }
}

/// The sum of two words, half by half, each modulo 2^18: how the fields of an instruction are put together.
pub fn add_halves(a: Word, b: Word) -> Word
    ensures { result ≡ halves_sum a b }
{
    Word::join(
        (a.left() + b.left()) & 0o777_777,
        (a.right() + b.right()) & 0o777_777,
    )
}
