//! Words of 36 bits.

ghost use Rattle.std.specs.Prelude.{◌≡◌, ◌+◌, ◌-◌, ◌*◌, ◌/◌, ◌%◌, ◌^◌, ◌<◌, ◌≤◌, ◌≤ℤ◌, ◌<ℤ◌, bit_and, bit_or, bit_xor, ◌↔◌};
ghost use Rattle.std.specs.Prelude.{IfSome, IsSome, if◌then◌else◌, pos, negsuc, length, Some};
ghost use Rattle.word36.specs.Words.{left_half, right_half, joined, is_negative, signed_value, complement, sum_of, carry_0, carry_1};
ghost use Rattle.word36.specs.Octal.{word_text};

use crate::octal_half;
use arrayvec::ArrayString;
use std::fmt;
use std::marker::Model;

/// A word of 36 bits, which contracts see as its number.
#[derive(Clone, Copy, Debug, PartialEq, Eq)]
pub struct Word {
    number: u64,
}

impl Model for Word {
    ghost use Rattle.std.specs.Prelude.{ℕ, ◌<◌, ◌^◌};

    ghost Value = { ℕ };

    ghost view = { λ w. w.number };

    ghost inverse = { λ n. record { number = n } };

    ghost invariant = { λ w. w.number < 2 ^ 36 };
}

/// 2^36, one more than the largest word.
pub const MODULUS: u64 = 0o1_000_000_000_000;

/// All 36 bits.
const MASK: u64 = 0o777_777_777_777;

/// Bit 0 alone, 2^35: also the magnitude of the least number.
pub const SIGN: u64 = 0o400_000_000_000;

/// Bits 1 to 35.
const LOW: u64 = 0o377_777_777_777;

impl Word {
    /// The word of the low 36 bits of a number.
    pub fn low_bits(number: u64) -> Word
        ensures { result ≡ number % 2 ^ 36 }
    {
        Word {
            number: number & MASK,
        }
    }

    /// The word of this number, which is below 2^36.
    pub fn new(number: u64) -> Word
        requires { number < 2 ^ 36 }
        ensures { result ≡ number }
    {
        Word { number }
    }

    /// The word as a number of 36 bits.
    pub fn number(self) -> u64
        ensures value { result ≡ self }
        ensures below { result < 2 ^ 36 }
    {
        self.number
    }

    /// The left half, bits 0 to 17.
    pub fn left(self) -> u32
        ensures value { result ≡ left_half self }
        ensures below { result < 2 ^ 18 }
    {
        (self.number >> 18) as u32
    }

    /// The right half, bits 18 to 35.
    pub fn right(self) -> u32
        ensures value { result ≡ right_half self }
        ensures below { result < 2 ^ 18 }
    {
        (self.number & 0o777_777) as u32
    }

    /// Both halves, the left one first.
    pub fn halves(self) -> (u32, u32)
        ensures value { result ≡ (left_half self, right_half self) }
        ensures below { (result.0 < 2 ^ 18) × (result.1 < 2 ^ 18) }
    {
        (self.left(), self.right())
    }

    /// The word of two halves, `left,,right`.
    pub fn join(left: u32, right: u32) -> Word
        requires left { left < 2 ^ 18 }
        requires right { right < 2 ^ 18 }
        ensures { result ≡ joined left right }
    {
        Word {
            number: (left as u64) << 18 | right as u64,
        }
    }

    /// This word with another left half.
    pub fn with_left(self, left: u32) -> Word
        requires { left < 2 ^ 18 }
        ensures { result ≡ joined left (right_half self) }
    {
        Word::join(left, self.right())
    }

    /// This word with another right half.
    pub fn with_right(self, right: u32) -> Word
        requires { right < 2 ^ 18 }
        ensures { result ≡ joined (left_half self) right }
    {
        Word::join(self.left(), right)
    }

    /// The word with its halves exchanged.
    pub fn swapped(self) -> Word
        ensures { result ≡ joined (right_half self) (left_half self) }
    {
        Word::join(self.right(), self.left())
    }

    /// Whether bit 0, the sign, is set.
    pub fn is_negative(self) -> bool
        ensures { result ≡ is_negative self }
    {
        self.number & SIGN != 0
    }

    /// The value of the word in two's complement, -2^35 to 2^35-1.
    pub fn signed(self) -> i64
        ensures value { result ≡ signed_value self }
        ensures low { negsuc 34359738367 ≤ℤ result }
        ensures high { result <ℤ pos 34359738368 }
    {
        if self.number >= SIGN {
            self.number as i64 - MODULUS as i64
        } else {
            self.number as i64
        }
    }

    /// The word of a value in two's complement. None below -2^35, and from 2^35 on.
    pub fn from_signed(value: i64) -> Option<Word>
        ensures variant { IsSome result ↔ ((negsuc 34359738367 ≤ℤ value) × (value <ℤ pos 34359738368)) }
        ensures some { IfSome result (λ w. signed_value w ≡ value) }
    {
        if value < -(SIGN as i64) || value >= SIGN as i64 {
            None
        } else if value < 0 {
            Some(Word {
                number: (value + MODULUS as i64) as u64,
            })
        } else {
            Some(Word {
                number: value as u64,
            })
        }
    }

    /// Bit by bit, where both words have a one.
    pub fn and(self, other: Word) -> Word
        ensures { result ≡ bit_and self other }
    {
        Word {
            number: self.number & other.number,
        }
    }

    /// Bit by bit, where at least one word has a one.
    #[tactic(auto, using(crate::proofs::Bits36::or_36))]
    pub fn or(self, other: Word) -> Word
        ensures { result ≡ bit_or self other }
    {
        Word {
            number: self.number | other.number,
        }
    }

    /// Bit by bit, where just one of the words has a one.
    #[tactic(auto, using(crate::proofs::Bits36::xor_36))]
    pub fn xor(self, other: Word) -> Word
        ensures { result ≡ bit_xor self other }
    {
        Word {
            number: self.number ^ other.number,
        }
    }

    /// All 36 bits inverted.
    pub fn not(self) -> Word
        ensures { result ≡ complement self }
    {
        Word {
            number: self.number ^ MASK,
        }
    }

    /// The sum of two words, and of 1 for a carry into bit 35, modulo 2^36.
    pub fn sum(self, other: Word, carry: bool) -> Word
        ensures { result ≡ sum_of self other (if carry then 1 else 0) }
    {
        Word {
            number: (self.number + other.number + carry as u64) & MASK,
        }
    }

    /// Whether that sum carries out of bit 0, and out of bit 1, as ADD sets Carry 0 and Carry 1.
    pub fn carries(self, other: Word, carry: bool) -> (bool, bool)
        ensures zero { result.0 ≡ carry_0 self other (if carry then 1 else 0) }
        ensures one { result.1 ≡ carry_1 self other (if carry then 1 else 0) }
    {
        let carry = carry as u64;
        let zero = self.number + other.number + carry > MASK;
        let one = (self.number & LOW) + (other.number & LOW) + carry >= SIGN;
        (zero, one)
    }

    /// The word as the manuals print it, each half in six octal digits: `254000,,000140`.
    pub fn octal(self) -> ArrayString<14>
        ensures text { result.bytes ≡ word_text self }
        ensures length { length result.bytes ≡ 14 }
    {
        let mut text = ArrayString::new();
        text.push_str(octal_half(self.left()).as_str());
        text.push_str(",,");
        text.push_str(octal_half(self.right()).as_str());
        text
    }
}

impl fmt::Display for Word {
    ghost output = { λ w. Some (word_text w) };

    fn fmt<W: fmt::Write>(&self, f: &mut fmt::Formatter<W>) -> fmt::Result {
        f.pad(self.octal().as_str())
    }
}
