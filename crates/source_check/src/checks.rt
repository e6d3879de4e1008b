//! A source that is assembled, and its image beside another.
ghost use Rattle.std.specs.Prelude.{◌≡◌, IfOk, IsTrue};
ghost use Rattle.source_check.specs.Same.{ComesTo, assembled};

use mac_asm::{AsmError, assemble};
use std::alloc::{AllocError, Global};
use word36::{Image, Word};

/// Whether the same words stand at the same addresses, in the same order.
fn are_same(words: &[(u32, Word)], others: &[(u32, Word)]) -> bool
    ensures { IsTrue result → words.now ≡ others.now }
{
    words == others
}

/// Whether two images have the same words and the same start.
fn is_same(image: &Image, other: &Image) -> bool
    ensures { IsTrue result → assembled image.now ≡ assembled other.now }
{
    image.start == other.start && are_same(image.words.as_slice(), other.words.as_slice())
}

/// Whether the assembler makes exactly this image of a source: its words, each at its address, and its start.
pub fn assembles_to(alloc: Global, source: &[u8], image: &Image) -> Result<bool, AllocError>
    ensures { IfOk result (λ holds. IsTrue holds → ComesTo source.now image.now) }
{
    match assemble(alloc, source) {
        Ok(other) => Ok(is_same(&other, image)),
        Err(AsmError::Line { .. }) => Ok(false),
        Err(AsmError::Memory) => Err(AllocError),
    }
}
