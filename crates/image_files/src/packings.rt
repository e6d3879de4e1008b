//! How 36-bit words are packed in bytes, and what may be wrong with such bytes.
ghost use Rattle.std.specs.Prelude.{◌≡◌};
ghost use Rattle.image_files.specs.declared.packings.PackError.TheVariants.{Memory};

use std::alloc::{AllocError, AllocFailed};

/// A packing of 36-bit words in bytes.
#[derive(Clone, Copy, Debug, PartialEq, Eq)]
pub enum Packing {
    /// "Core dump": five bytes a word, four of 8 bits from the left and one with the last 4 bits in
    /// its low half.
    CoreDump,
    /// "High density": nine bytes for two words; a last word alone has five, and the low 4 bits of
    /// its fifth byte are 0.
    HighDensity,
    /// "ANSI-ASCII": five bytes a word, each a 7-bit character; bit 35 is the top bit of the fifth.
    AnsiAscii,
    /// As SIMH keeps words: eight bytes a word, the lowest byte first.
    Simh,
    /// Text: a line a word, its two halves in octal, as `254000,,000140`.
    Octal,
}

/// What is wrong with the bytes of a word.
#[derive(Clone, Copy, Debug, PartialEq, Eq)]
pub enum PackErrorKind {
    /// The bytes end within the word.
    CutShort,
    /// A bit is set that the packing leaves 0.
    ExtraBits,
    /// A line is no word in octal.
    NotOctal,
}

/// Why bytes are not those of words.
#[derive(Debug, Drop)]
pub enum PackError {
    /// A word, numbered from 1, and what is wrong with its bytes.
    Word { number: usize, kind: PackErrorKind },
    /// There was no memory.
    Memory,
}

impl From<AllocError> for PackError {
    ghost from_gives = { λ _ e. e ≡ Memory };

    fn from(_: AllocError) -> Self {
        PackError::Memory
    }
}

impl<T: Drop> From<AllocFailed<T>> for PackError {
    ghost from_gives = { λ _ e. e ≡ Memory };

    fn from(_: AllocFailed<T>) -> Self {
        PackError::Memory
    }
}
