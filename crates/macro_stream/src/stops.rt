//! Why the stream gives no character.

ghost use Rattle.std.specs.Prelude.{◌≡◌};
ghost use Rattle.macro_stream.specs.Limits.{most_of};

use std::alloc::{AllocError, AllocFailed};

/// The limits that make every source end, in decimal.
#[derive(Clone, Copy)]
pub enum Limit {
    /// Texts one inside another.
    Depth,
    /// Calls, rounds and true conditions.
    Calls,
    /// Lines that these produce.
    Lines,
    /// Characters that these produce.
    Characters,
    /// Literals one inside another.
    Literals,
    /// Brackets one inside another.
    Brackets,
    /// Errors.
    Errors,
}

impl Limit {
    /// The greatest number that is taken.
    pub fn most(self) -> u32
        ensures { result ≡ most_of self }
    {
        match self {
            Limit::Depth => 200,
            Limit::Calls => 50_000,
            Limit::Lines => 200_000,
            Limit::Characters => 8_000_000,
            Limit::Literals => 20,
            Limit::Brackets => 60,
            Limit::Errors => 500,
        }
    }

    /// The name in the line of the refusal.
    pub fn name(self) -> &'static str {
        match self {
            Limit::Depth => "DEPTH",
            Limit::Calls => "CALLS",
            Limit::Lines => "LINES",
            Limit::Characters => "CHARS",
            Limit::Literals => "LITERALS",
            Limit::Brackets => "BRACKETS",
            Limit::Errors => "ERRORS",
        }
    }
}

/// Why the stream gives no character.
#[derive(Clone, Copy)]
pub enum Stop {
    /// The next byte is not ASCII.
    NotAscii,
    /// A limit is reached.
    Limit(Limit),
    /// There is no memory.
    Memory,
}

impl From<AllocError> for Stop {
    fn from(_error: AllocError) -> Stop {
        Stop::Memory
    }
}

impl<T: Drop> From<AllocFailed<T>> for Stop {
    fn from(_error: AllocFailed<T>) -> Stop {
        Stop::Memory
    }
}
