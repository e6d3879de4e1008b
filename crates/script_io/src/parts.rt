//! The parts of a line or of an item.
ghost use Rattle.std.specs.Prelude.{◌≡◌, ◌==◌, ◌<◌, ◌≤◌, ◌^◌, ◌↔◌, ℕ};
ghost use Rattle.std.specs.Prelude.{List, [], ◌∷◌, None, IsTrue, IfSome, MatchOption};
ghost use Rattle.script_io.specs.Numbers.{parts, texts_in, number, front, IsFront};

use crate::numbers::digit_number;
use std::marker::Model;

/// The parts of a text, between separators, that are still to be read.
#[derive(Drop)]
pub struct Parts<'a> {
    rest: Option<&'a [u8]>,
    separator: u8,
}

impl<'a> Model for Parts<'a> {
    ghost Value = { List (List ℕ) };

    ghost view = { λ s. texts_in s.separator s.rest };
}

impl<'a> Parts<'a> {
    /// All parts of a text.
    pub fn of(text: &'a [u8], separator: u8) -> Self
        ensures { result ≡ parts separator text.now }
    {
        Parts {
            rest: Some(text),
            separator,
        }
    }

    /// The parts of a text between blanks; none if there is no text.
    #[inline(always)]
    pub fn between_blanks(rest: Option<&'a [u8]>) -> Self
        ensures { result ≡ texts_in 32 rest.entry }
    {
        Parts {
            rest,
            separator: b' ',
        }
    }

    /// The text that is left, if blanks separate its parts.
    #[inline(always)]
    pub fn left(&self) -> Option<&'a [u8]>
        ensures { IfSome result (λ text. self.now ≡ parts 32 text.now) }
    {
        if self.separator == b' ' {
            self.rest
        } else {
            None
        }
    }

    /// Takes the first part.
    pub fn next(&mut self) -> Option<&'a [u8]>
        ensures { MatchOption result (self.old ≡ []) (λ part. self.old ≡ part.now ∷ self.new) }
    {
        let rest = self.rest?;
        let (part, others) = split_part(rest, self.separator);
        self.rest = others;
        Some(part)
    }

    /// Takes the first part, and returns the number of at most `most` that it spells in decimal, if it does.
    #[inline(always)]
    pub fn next_number(&mut self, most: u64) -> Option<u64>
        requires { most < 2 ^ 56 }
        ensures value { MatchOption result (front (number 10 most) self.old ≡ None) (λ n. IsFront (number 10 most) n self.old self.new) }
        ensures small { IfSome result (λ n. n ≤ most) }
    {
        let rest = self.rest?;
        let (number, others) = split_number(most, rest, self.separator)?;
        self.rest = others;
        Some(number)
    }

    /// Whether none is left.
    pub fn is_empty(&self) -> bool
        ensures { IsTrue result ↔ (self.now ≡ []) }
    {
        self.rest.is_none()
    }
}

/// The first part of a text, and what stands behind its separator.
#[tactic(auto, unfolding(crate::specs::Numbers::parts))]
pub fn split_part(text: &[u8], separator: u8) -> (&[u8], Option<&[u8]>)
    ensures { parts separator text.now ≡ result.0.now ∷ texts_in separator result.1 }
{
    for (i, byte) in text.iter().enumerate() {
        if *byte == separator {
            return (&text[..i], Some(&text[i + 1..]));
        }
    }
    (text, None)
}

/// The number of one digit that the first part of a text spells, and the text behind its separator. None if the part is
/// longer or the last.
#[inline(always)]
fn split_digit(most: u64, text: &[u8], separator: u8) -> Option<(u64, Option<&[u8]>)>
    ensures value { IfSome result (λ r. IsFront (number 10 most) r.0 (parts separator text.now) (texts_in separator r.1)) }
    ensures small { IfSome result (λ r. r.0 ≤ most) }
{
    if text.len() < 2 {
        return None;
    }
    if text[1] != separator {
        return None;
    }
    if text[0] == separator {
        return None;
    }
    let number = digit_number(10, most, text[0])?;
    Some((number, Some(&text[2..])))
}

/// The number of at most `most` that the first part of a text spells in decimal, and the text behind its separator, read in
/// one pass.
#[inline(always)]
fn split_number(most: u64, text: &[u8], separator: u8) -> Option<(u64, Option<&[u8]>)>
    requires { most < 2 ^ 56 }
    ensures value { MatchOption result (front (number 10 most) (parts separator text.now) ≡ None)
        (λ r. IsFront (number 10 most) r.0 (parts separator text.now) (texts_in separator r.1)) }
    ensures small { IfSome result (λ r. r.0 ≤ most) }
{
    match split_digit(most, text, separator) {
        Some(digit) => return Some(digit),
        None => {}
    }
    let mut value = 0;
    let mut i = 0;
    'digits: while i < text.len() {
        let byte = text[i];
        let digit = byte.wrapping_sub(b'0');
        if digit >= 10 || byte == separator {
            if byte != separator {
                return None;
            }
            if i == 0 {
                return None;
            }
            return Some((value, Some(&text[i + 1..])));
        }
        value = 10 * value + u64::from(digit);
        if value > most {
            return None;
        }
        i += 1;
    }
    if text.is_empty() {
        return None;
    }
    Some((value, None))
}
