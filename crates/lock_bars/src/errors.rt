//! Why a script is not drawn.
ghost use Rattle.std.specs.Prelude.{◌≡◌};
ghost use Rattle.lock_bars.specs.declared.errors.ScriptError.TheVariants.{Memory};

use std::alloc::AllocError;

/// The most lines of a script that is drawn.
pub const MOST_LINES: usize = 10_000;

/// Why a script is not drawn.
#[derive(Clone, Copy, PartialEq, Eq, Debug, Drop)]
pub enum ScriptError {
    /// There was no memory.
    Memory,
    /// The line of this number is refused.
    Line(usize),
    /// It has more than 10,000 lines.
    TooLong,
    /// It ends at this line, before the one that was asked for.
    Short(usize),
    /// It ends within a source, after this line.
    NoEnd(usize),
    /// A source in it is not assembled.
    Source(SourceFault),
}

/// A source that is not assembled.
#[derive(Clone, Copy, PartialEq, Eq, Debug, Drop)]
pub struct SourceFault {
    /// The line of the script with its ASSEMBLE.
    pub begins: usize,
    /// The line of the source that is refused, or 0 where there is none.
    pub line: usize,
    /// Why: a code of the assembler, 1 to 7.
    pub code: u8,
}

impl From<AllocError> for ScriptError {
    ghost from_gives = { λ _ e. e ≡ Memory };

    fn from(_: AllocError) -> Self {
        ScriptError::Memory
    }
}
