//! The lines of a source of the subset.

use macro_names::{Name, text_of};
use script_io::push_word;
use std::alloc::{AllocError, Global};
use word36::{Image, Word, octal_text};

/// The place of the first statement, where no LOC stands before it.
const FIRST: u32 = 0o140;

/// A label and its place.
#[derive(Clone, Copy, PartialEq, Eq, PartialOrd, Ord)]
pub struct PlacedName {
    pub place: u32,
    /// Its six characters in SIXBIT.
    pub name: u64,
}

fn push_octal(out: &mut Vec<u8>, number: u32) -> Result<(), AllocError> {
    out.extend_from_slice(octal_text(u64::from(number)).as_bytes())
}

/// The place of the first of these words and names.
fn first_place(words: &[(u32, Word)], names: &[PlacedName]) -> Option<u32> {
    match (words.first(), names.first()) {
        (Some(word), Some(name)) => Some(name.place.min(word.0)),
        (Some(word), None) => Some(word.0),
        (None, Some(name)) => Some(name.place),
        (None, None) => None,
    }
}

/// Adds the line that sets a place, where another is next.
fn push_place(out: &mut Vec<u8>, place: u32, next: u32) -> Result<(), AllocError> {
    if place != next {
        out.extend_from_slice(b" LOC ")?;
        push_octal(out, place)?;
        out.push(b'\n')?;
    }
    Ok(())
}

/// Adds the labels of a place, the first of these names; gives the names behind them.
fn push_labels<'a>(
    out: &mut Vec<u8>,
    names: &'a [PlacedName],
    place: u32,
) -> Result<&'a [PlacedName], AllocError> {
    for (at, name) in names.iter().enumerate() {
        if name.place != place {
            return Ok(names.split_at(at).1);
        }
        if at > 0 {
            out.push(b' ')?;
        }
        out.extend_from_slice(text_of(Name::of_sixbit(name.name)).as_slice())?;
        out.push(b':')?;
    }
    Ok(&[])
}

/// How many of the words that are left the statement of a place gives: those of zero from there on, before the first of the
/// names that are left; or one that is not zero; or none, where the place has no word.
fn statement_size(words: &[(u32, Word)], names: &[PlacedName], place: u32) -> u32 {
    let end = match names.first() {
        Some(name) => name.place,
        None => u32::MAX,
    };
    let mut size = 0u32;
    for word in words {
        let next = place.saturating_add(size);
        if word.0 != next || next >= end {
            break;
        }
        if word.1.number() != 0 {
            return size.max(1);
        }
        size = size.saturating_add(1);
    }
    size
}

/// Adds the statement of a place, whose labels stand before it, with so many of these words; gives the words behind it.
fn push_statement<'a>(
    out: &mut Vec<u8>,
    words: &'a [(u32, Word)],
    size: u32,
) -> Result<&'a [(u32, Word)], AllocError> {
    match words.first() {
        Some(word) if size == 1 => {
            out.push(b' ')?;
            push_word(out, word.1)?;
        }
        Some(_) if size > 1 => {
            out.extend_from_slice(b" BLOCK ")?;
            push_octal(out, size)?;
        }
        Some(_) | None => (),
    }
    out.push(b'\n')?;
    Ok(words.split_at(words.len().min(size as usize)).1)
}

/// The source of the subset with the words and the start of an image, by place, and with labels, by place and name: a line a
/// word, its labels before it, and END with the start.
pub fn source_for(
    alloc: Global,
    image: &Image,
    names: &[PlacedName],
) -> Result<Vec<u8>, AllocError> {
    let mut out = Vec::new(alloc);
    let mut words = image.words.as_slice();
    let mut names = names;
    let mut next = FIRST;
    for _ in 0..words.len().saturating_add(names.len()) {
        let Some(place) = first_place(words, names) else {
            break;
        };
        push_place(&mut out, place, next)?;
        names = push_labels(&mut out, names, place)?;
        let size = statement_size(words, names, place);
        words = push_statement(&mut out, words, size)?;
        next = place.saturating_add(size);
    }
    out.extend_from_slice(b" END ")?;
    push_octal(&mut out, image.start)?;
    out.push(b'\n')?;
    Ok(out)
}
