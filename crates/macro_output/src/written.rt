//! The source of the subset that stands for an image.
ghost use Rattle.std.specs.Prelude.{◌≡◌, [], IfOk, IfSome, IsTrue};
ghost use Rattle.macro_output.specs.Shown.{Shows};
ghost use Rattle.source_check.specs.Same.{ComesTo};
ghost use Rattle.macro_meaning.specs.Meaning.{IsMeant};

use crate::shown::rows_show;
use crate::subset::{PlacedName, source_for};
use macro_meaning::{Table, is_meant};
use macro_state::{Assembly, Row};
use macro_symbols::DefinitionKind;
use source_check::assembles_to;
use std::alloc::{AllocError, Global};
use word36::{Image, Word};

/// The labels and variables that are written, by place and name.
fn placed_names(state: &Assembly) -> Result<Vec<PlacedName>, AllocError> {
    let mut names = Vec::new(state.alloc);
    for at in 0..state.symbols.len() {
        if let Some((name, definition)) = state.symbols.at(at) {
            if definition.kind != DefinitionKind::Assigned && !definition.phased {
                match definition.value {
                    Some(value) if value >= 0 && value <= 0o1_000_000 => {
                        let place = value as u32;
                        names.push(PlacedName { place, name })?;
                    }
                    Some(_) | None => (),
                }
            }
        }
    }
    names.sort()?;
    Ok(names)
}

/// The words of an assembly by rising places, and its start.
fn image_of(state: &Assembly) -> Result<Image, AllocError> {
    let mut places = Vec::new(state.alloc);
    for index in 0..state.image.len() {
        if let Some(place) = state.image.place_at(index) {
            places.push(place)?;
        }
    }
    places.sort()?;
    let mut words = Vec::new(state.alloc);
    for place in &places {
        if let Some(number) = state.image.get(*place) {
            words.push((*place, Word::low_bits(number)))?;
        }
    }
    Ok(Image {
        words,
        start: state.start,
    })
}

/// A source of the subset, and the image that it assembles to.
#[derive(Drop)]
pub struct Written {
    /// The source.
    pub text: Vec<u8>,
    /// The image.
    pub image: Image,
}

/// Whether a source of the subset assembles to an image, and rows of the listing show its words, each once.
fn is_right(alloc: Global, text: &[u8], rows: &[Row], image: &Image) -> Result<bool, AllocError>
    ensures read_back { IfOk result (λ holds. IsTrue holds → ComesTo text.now image.now) }
    ensures listed { IfOk result (λ holds. IsTrue holds → Shows rows.now image.now.words.items) }
{
    if !rows_show(alloc, rows, image.words.as_slice())? {
        return Ok(false);
    }
    assembles_to(alloc, text, image)
}

/// The last values of the symbols of an assembly.
fn values_of(state: &Assembly) -> Result<Table, AllocError> {
    let mut values = Table::new(state.alloc);
    for at in 0..state.symbols.len() {
        if let Some((name, definition)) = state.symbols.at(at) {
            if let Some(value) = definition.value {
                values.insert(name, value)?;
            }
        }
    }
    Ok(values)
}

/// Whether an image is what its source means, as far as that is judged. A source that uses operations or calls of other machines or
/// other monitors is not.
fn is_meant_by(state: &Assembly, source: &[u8], image: &Image) -> Result<bool, AllocError>
    ensures { state.now.others.items ≡ [] → IfOk result (λ holds. IsTrue holds → IsMeant source.now image.now.words.items image.now.start) }
{
    if !state.others.is_empty() {
        return Ok(true);
    }
    let values = values_of(state)?;
    let pools = state.pool_bases.as_slice();
    is_meant(state.alloc, &values, pools, source, image)
}

/// The source of the subset that stands for the assembly of a source, with its image: a line a word, its labels before it, and END with
/// the start. None where the assembler of the subset does not make that image of it, the rows of the listing do not show
/// its words, or the image is not what the source means, as far as that is judged. A source that uses operations or calls of other
/// machines or other monitors is not judged.
pub fn source_of(state: &Assembly, source: &[u8]) -> Result<Option<Written>, AllocError>
    ensures read_back { IfOk result (λ found. IfSome found (λ written. ComesTo written.text.items written.image)) }
    ensures listed { IfOk result (λ found. IfSome found (λ written. Shows state.now.listing.rows.items written.image.words.items)) }
    ensures meant { state.now.others.items ≡ [] → IfOk result (λ found. IfSome found (λ written. IsMeant source.now written.image.words.items written.image.start)) }
{
    let image = image_of(state)?;
    if !is_meant_by(state, source, &image)? {
        return Ok(None);
    }
    let names = placed_names(state)?;
    let text = source_for(state.alloc, &image, names.as_slice())?;
    let rows = state.listing.rows.as_slice();
    if is_right(state.alloc, text.as_slice(), rows, &image)? {
        return Ok(Some(Written { text, image }));
    }
    Ok(None)
}
