//! Numbers as they are written.

ghost use Rattle.std.specs.Prelude.{◌≡◌, ◌≤◌, Some, IfSome, length};
ghost use Rattle.std.specs.List.{list_all};
ghost use Rattle.mac_text.specs.Scan.{Gives, word_of};
ghost use Rattle.mac_text.specs.Expressions.{term_of_word};
ghost use Rattle.mac_text.specs.declared.syntax.Term.TheVariants.{Number};
ghost use Rattle.mac_text.specs.Numbers.{is_digit_of, number_of};

use crate::characters::is_name_character;
use crate::fault::{Fault, Wanted};
use std::alloc::Global;
use whole_numbers::Natural;

/// The number of these digits; `wanted` is what is wanted where there are none.
#[tactic(auto, unfolding(crate::specs::Numbers::number_of))]
pub fn number(alloc: Global, radix: u8, digits: &[u8], wanted: Wanted) -> Result<Natural, Fault>
    requires { radix ≤ 10 }
    ensures { Gives (λ n. n) result (number_of radix digits.now) }
{
    if digits.is_empty() {
        return Err(Fault::Syntax(wanted));
    }
    if !has_digits_only(radix, digits) {
        return Err(Fault::Syntax(Wanted::Digits(radix)));
    }
    Ok(Natural::from_digits(alloc, radix, digits)?)
}

/// The number that a text begins with, and how many characters it has, where it is a word of digits and below 2^64.
#[tactic(auto, using(crate::proofs::DigitLemmas::digits_length, crate::proofs::DigitLemmas::leading_term))]
pub fn leading_number(radix: u8, text: &[u8]) -> Option<(u64, usize)>
    requires { radix ≤ 10 }
    ensures within { IfSome result (λ x. x.1 ≤ length text.now) }
    ensures word { IfSome result (λ x. length (word_of text.now) ≡ x.1) }
    ensures term { IfSome result (λ x. term_of_word radix (word_of text.now) ≡ Some (Number x.0)) }
{
    let mut number = 0u64;
    for (i, c) in text.iter().enumerate() {
        if *c < b'0' || *c >= b'0' + radix {
            if i == 0 || is_name_character(*c) {
                return None;
            }
            return Some((number, i));
        }
        let (low, high) = number.carrying_mul(u64::from(radix), u64::from(*c - b'0'));
        if high != 0 {
            return None;
        }
        number = low;
    }
    if text.is_empty() {
        None
    } else {
        Some((number, text.len()))
    }
}

fn has_digits_only(radix: u8, digits: &[u8]) -> bool
    requires { radix ≤ 10 }
    ensures { result ≡ list_all (is_digit_of radix) digits.now }
{
    digits.iter().all(|d| *d >= b'0' && *d < b'0' + radix)
}
