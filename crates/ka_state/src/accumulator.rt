//! Numbers of accumulators.

ghost use Rattle.std.specs.Prelude.{◌≡◌, ◌+◌, ◌%◌, ◌<◌};

use std::marker::Model;

/// The number of an accumulator, 0 to 17 octal, which contracts see as that number.
#[derive(Clone, Copy, Debug, PartialEq, Eq)]
pub struct Accumulator {
    number: u8,
}

impl Model for Accumulator {
    ghost use Rattle.std.specs.Prelude.{ℕ, ◌<◌};

    ghost Value = { ℕ };

    ghost view = { λ a. a.number };

    ghost inverse = { λ n. record { number = n } };

    ghost invariant = { λ a. a.number < 16 };
}

impl Accumulator {
    /// The accumulator of this number.
    #[inline(always)]
    pub fn new(number: u8) -> Accumulator
        requires { number < 16 }
        ensures { result ≡ number }
    {
        Accumulator { number }
    }

    /// Its number.
    #[inline(always)]
    pub fn number(self) -> u8
        ensures value { result ≡ self }
        ensures below { result < 16 }
    {
        self.number
    }

    /// Its index in `Regs::ac`.
    #[inline(always)]
    pub fn index(self) -> usize
        ensures value { result ≡ self }
        ensures below { result < 16 }
    {
        self.number as usize
    }

    /// The accumulator after it; after 17 octal comes 0.
    #[inline(always)]
    pub fn next(self) -> Accumulator
        ensures { result ≡ (self + 1) % 16 }
    {
        Accumulator {
            number: (self.number + 1) % 16,
        }
    }
}
