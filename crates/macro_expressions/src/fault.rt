//! Why nothing was read.

ghost use Rattle.std.specs.Prelude.{◌≡◌};
ghost use Rattle.macro_expressions.specs.declared.fault.Fault.TheVariants.{Memory};

use std::alloc::AllocError;

/// Why a text means nothing.
#[derive(Clone, Copy, PartialEq, Eq)]
pub enum Stop {
    /// It is wrong: a value does not fit, or a name stands for nothing or is defined twice.
    Wrong,
    /// It has something that is not judged.
    Beyond,
}

/// Why nothing was read.
#[derive(Clone, Copy, PartialEq, Eq)]
pub enum Fault {
    /// There was no memory.
    Memory,
    /// The text means nothing.
    Stopped(Stop),
}

/// A value is wrong.
pub const WRONG: Fault = Fault::Stopped(Stop::Wrong);

/// The text has something that is not judged.
pub const BEYOND: Fault = Fault::Stopped(Stop::Beyond);

impl From<AllocError> for Fault {
    ghost from_gives = { λ _ e. e ≡ Memory };

    fn from(_e: AllocError) -> Fault {
        Fault::Memory
    }
}
