//! Numbers, and what they are taken as.

ghost use Rattle.std.specs.Prelude.{◌≡◌, ◌≤◌, pos, IfOk, Ok};
ghost use Rattle.std.specs.List.{list_all};
ghost use Rattle.std.specs.Option.{option_map};
ghost use Rattle.mac_text.specs.Numbers.{is_digit_of, number_of};
ghost use Rattle.macro_expressions.specs.declared.fault.Stop.TheVariants.{Wrong};
ghost use Rattle.macro_expressions.specs.Reading.{Gives, or_stop};
ghost use Rattle.macro_expressions.specs.Values.{as_word, as_natural, combined};

use crate::fault::{Fault, WRONG};
use crate::kinds::Infix;
use macro_values::{Operator, Whole, operate};
use std::alloc::{AllocError, Global};
use whole_numbers::Natural;
use word36::Word;

fn are_digits(radix: u8, digits: &[u8]) -> bool
    requires { radix ≤ 10 }
    ensures { result ≡ list_all (is_digit_of radix) digits.now }
{
    digits.iter().all(|d| *d >= b'0' && *d < b'0' + radix)
}

/// The number of digits of a radix: at least one, and each one of it.
#[tactic(auto, unfolding(mac_text::specs::Numbers::number_of))]
pub fn number(alloc: Global, radix: u8, digits: &[u8]) -> Result<Whole, Fault>
    requires { radix ≤ 10 }
    ensures { Gives (λ z. z) result (or_stop Wrong (option_map pos (number_of radix digits.now))) }
{
    if digits.is_empty() || !are_digits(radix, digits) {
        return Err(WRONG);
    }
    let number = Natural::from_digits(alloc, radix, digits)?;
    Ok(Whole::from_natural(number))
}

/// The word of a number, where it has one.
pub fn as_word(alloc: Global, number: &Whole) -> Result<Word, Fault>
    ensures { Gives (λ w. w) result (as_word number.now) }
{
    match number.word(alloc)? {
        Some(word) => Ok(word),
        None => Err(WRONG),
    }
}

/// The word of a number that is used up, if it has one.
pub fn into_word(alloc: Global, number: Whole) -> Result<Word, Fault>
    ensures { Gives (λ w. w) result (as_word number) }
{
    as_word(alloc, &number)
}

/// A number from 0 to a greatest.
pub fn as_natural(alloc: Global, most: u32, number: &Whole) -> Result<u32, Fault>
    ensures value { Gives (λ n. n) result (as_natural most number.now) }
    ensures most { IfOk result (λ n. n ≤ most) }
{
    match number.small(alloc)? {
        Some(small) if small >= 0 && small <= i64::from(most) => Ok(small as u32),
        _ => Err(WRONG),
    }
}

fn sum(alloc: Global, a: Whole, b: &Whole) -> Result<Whole, AllocError>
    ensures { IfOk result (λ z. combined Infix.Plus a b.now ≡ Ok z) }
{
    let mut sum = a;
    sum.add(alloc, b)?;
    Ok(sum)
}

fn difference(alloc: Global, a: Whole, b: &Whole) -> Result<Whole, AllocError>
    ensures { IfOk result (λ z. combined Infix.Minus a b.now ≡ Ok z) }
{
    let mut rest = a;
    rest.subtract(alloc, b)?;
    Ok(rest)
}

fn of_words(alloc: Global, operator: Operator, a: &Whole, b: &Whole) -> Result<Whole, Fault>
    ensures { Gives (λ z. z) result (combined (Infix.OfWords operator) a.now b.now) }
{
    let one = as_word(alloc, a)?;
    let other = as_word(alloc, b)?;
    match operate(operator, one, other) {
        Some(word) => Ok(Whole::from_small(word.signed())),
        None => Err(WRONG),
    }
}

/// What an operator gives of two numbers.
pub fn combined(alloc: Global, between: Infix, a: Whole, b: Whole) -> Result<Whole, Fault>
    ensures { Gives (λ z. z) result (combined between a b) }
{
    match between {
        Infix::Plus => Ok(sum(alloc, a, &b)?),
        Infix::Minus => Ok(difference(alloc, a, &b)?),
        Infix::OfWords(operator) => of_words(alloc, operator, &a, &b),
    }
}
