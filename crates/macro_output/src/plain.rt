//! A source of the subset, as it is written.
ghost use Rattle.std.specs.Prelude.{IfOk};
ghost use Rattle.macro_output.specs.Plain.{IsPlain};

use crate::subset::{PlacedName, source_for};
use crate::written::Written;
use mac_asm::{AsmError, assemble_with_symbols};
use mac_layout::{Labels, MEMORY_SIZE, clamped};
use source_check::assembles_to;
use std::alloc::{AllocError, Global};

/// What the subset assembler made of a source.
#[derive(Drop)]
pub enum Plain {
    /// The source that is written for it.
    Written(Written),
    /// It is not in the subset.
    NotInSubset,
    /// What was written for it assembles to another image.
    NotReadBack,
}

/// The labels by place and name.
fn placed_names(alloc: Global, symbols: &Labels) -> Result<Vec<PlacedName>, AllocError> {
    let mut names = Vec::with_capacity(alloc, symbols.len())?;
    for (name, place) in symbols {
        let place = clamped(place, MEMORY_SIZE) as u32;
        names.push(PlacedName { place, name: *name })?;
    }
    names.sort()?;
    Ok(names)
}

/// The source that is written for one of the subset: the same image, with the same labels.
pub fn plain_source(alloc: Global, source: &[u8]) -> Result<Plain, AllocError>
    ensures { IfOk result (λ plain. IsPlain source.now plain) }
{
    let listing = match assemble_with_symbols(alloc, source) {
        Ok(listing) => listing,
        Err(AsmError::Line { .. }) => return Ok(Plain::NotInSubset),
        Err(AsmError::Memory) => return Err(AllocError),
    };
    let names = placed_names(alloc, &listing.symbols)?;
    let text = source_for(alloc, &listing.image, names.as_slice())?;
    if !assembles_to(alloc, text.as_slice(), &listing.image)? {
        return Ok(Plain::NotReadBack);
    }
    Ok(Plain::Written(Written {
        text,
        image: listing.image,
    }))
}
