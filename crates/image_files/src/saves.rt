//! What may be wrong with a core image: a program as TOPS-10 keeps it in a .SAV file.
ghost use Rattle.std.specs.Prelude.{◌≡◌};
ghost use Rattle.image_files.specs.declared.saves.SaveError.TheVariants.{Memory};

use std::alloc::{AllocError, AllocFailed};

/// What is wrong with a word of a core image.
#[derive(Clone, Copy, Debug, PartialEq, Eq)]
pub enum SaveErrorKind {
    /// Neither an IOWD nor a JRST stands where a block or the end is looked for.
    NoBlock,
    /// A block begins below the end of the one before it.
    NotRising,
    /// A block does not end below 1000000 octal.
    TooHigh,
    /// The words of a block are not all there.
    CutShort,
    /// No JRST stands behind the last block.
    NoStart,
    /// Something other than 0 stands behind the JRST.
    Behind,
}

/// Why words are not those of a core image.
#[derive(Debug, Drop)]
pub enum SaveError {
    /// A word of the file, numbered from 1, and what is wrong with it.
    Word { number: usize, kind: SaveErrorKind },
    /// There was no memory.
    Memory,
}

impl From<AllocError> for SaveError {
    ghost from_gives = { λ _ e. e ≡ Memory };

    fn from(_: AllocError) -> Self {
        SaveError::Memory
    }
}

impl<T: Drop> From<AllocFailed<T>> for SaveError {
    ghost from_gives = { λ _ e. e ≡ Memory };

    fn from(_: AllocFailed<T>) -> Self {
        SaveError::Memory
    }
}
