//! Addresses in memory.

ghost use Rattle.std.specs.Prelude.{◌≡◌, ◌+◌, ◌%◌, ◌^◌, ◌<◌, IsSome, IfSome, ◌↔◌, Some};
ghost use Rattle.word36.specs.Octal.{octal};

use crate::octal_half;
use crate::sizes::ADDRESSES;
use arrayvec::ArrayString;
use std::fmt;
use std::marker::Model;

/// An address in memory: a number of 18 bits, 0 to 777777 octal.
#[derive(Clone, Copy, Debug, PartialEq, Eq, PartialOrd, Ord)]
pub struct Address {
    number: u32,
}

impl Model for Address {
    ghost use Rattle.std.specs.Prelude.{ℕ, ◌<◌, ◌^◌};

    ghost Value = { ℕ };

    ghost view = { λ a. a.number };

    ghost inverse = { λ n. record { number = n } };

    ghost invariant = { λ a. a.number < 2 ^ 18 };
}

impl Address {
    /// The address of this number.
    pub fn new(number: u32) -> Address
        requires { number < 2 ^ 18 }
        ensures { result ≡ number }
    {
        Address { number }
    }

    /// The address of this number. None from 1000000 octal on.
    pub fn try_new(number: u32) -> Option<Address>
        ensures variant { IsSome result ↔ (number < 2 ^ 18) }
        ensures value { IfSome result (λ a. a ≡ number) }
    {
        if number < ADDRESSES {
            Some(Address { number })
        } else {
            None
        }
    }

    /// The number of the address.
    pub fn number(self) -> u32
        ensures value { result ≡ self }
        ensures below { result < 2 ^ 18 }
    {
        self.number
    }

    /// The address `more` words further on; 0 follows 777777 octal.
    pub fn plus(self, more: u32) -> Address
        requires { more < 2 ^ 20 }
        ensures { result ≡ (self + more) % 2 ^ 18 }
    {
        Address {
            number: (self.number + more) & 0o777_777,
        }
    }

    /// The address as the manuals print it, in six octal digits: `000140`.
    pub fn octal(self) -> ArrayString<6>
        ensures { result.bytes ≡ octal 6 self }
    {
        octal_half(self.number)
    }
}

impl fmt::Display for Address {
    ghost output = { λ a. Some (octal 6 a) };

    fn fmt<W: fmt::Write>(&self, f: &mut fmt::Formatter<W>) -> fmt::Result {
        f.pad(self.octal().as_str())
    }
}
