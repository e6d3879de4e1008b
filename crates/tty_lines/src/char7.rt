//! Characters of seven bits.

ghost use Rattle.std.specs.Prelude.{◌≡◌, ◌<◌, ◌%◌, ◌^◌, ◌↔◌, IsSome, IfSome};
ghost use Rattle.tty_lines.specs.Breaks.{is_break};

use std::marker::Model;

/// A character of seven bits, 0 to 177 octal, which contracts see as its number.
#[derive(Clone, Copy, Debug, Default, PartialEq, Eq)]
pub struct Char7 {
    number: u8,
}

impl Model for Char7 {
    ghost use Rattle.std.specs.Prelude.{ℕ, ◌<◌, ◌^◌};

    ghost Value = { ℕ };

    ghost view = { λ c. c.number };

    ghost inverse = { λ n. record { number = n } };

    ghost invariant = { λ c. c.number < 2 ^ 7 };
}

impl Char7 {
    /// The character of this number.
    pub fn new(number: u8) -> Char7
        requires { number < 2 ^ 7 }
        ensures { result ≡ number }
    {
        Char7 { number }
    }

    /// The character of this number, where it is below 200 octal.
    pub fn try_new(number: u8) -> Option<Char7>
        ensures variant { IsSome result ↔ (number < 2 ^ 7) }
        ensures value { IfSome result (λ c. c ≡ number) }
    {
        if number < 0o200 {
            Some(Char7 { number })
        } else {
            None
        }
    }

    /// The character of the low seven bits.
    pub fn low_bits(number: u64) -> Char7
        ensures { result ≡ number % 2 ^ 7 }
    {
        Char7 {
            number: (number & 0o177) as u8,
        }
    }

    /// The number of the character.
    pub fn number(self) -> u8
        ensures value { result ≡ self }
        ensures below { result < 2 ^ 7 }
    {
        self.number
    }

    /// Whether the character ends a line of input: bell, line feed, vertical tab, form feed,
    /// control-Z or escape (7, 12, 13, 14, 32 and 33 octal).
    pub fn is_break(self) -> bool
        ensures { result ≡ is_break self }
    {
        matches!(self.number, 0o7 | 0o12 | 0o13 | 0o14 | 0o32 | 0o33)
    }
}
