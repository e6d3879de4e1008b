//! What may be wrong with the file of a core image.

use crate::packings::PackErrorKind;
use crate::saves::SaveErrorKind;

/// What is wrong with the file of a core image. Its words are numbered from 1.
#[derive(Clone, Copy, Debug, PartialEq, Eq, Drop)]
pub enum ImageFault {
    /// The bytes of a word are not those of its packing: `?WORD n KIND` of `image`.
    Word { number: usize, kind: PackErrorKind },
    /// A word is none of a core image there: `?SAVE n KIND` of `image`.
    Save { number: usize, kind: SaveErrorKind },
}

/// Why there is no image.
#[derive(Clone, Copy, Debug, PartialEq, Eq, Drop)]
pub enum ImageError {
    /// The file is at fault.
    Fault(ImageFault),
    /// There was no memory.
    Memory,
}
