//! Names that are not defined, and labels that are defined twice.

use crate::pieces::{Mark, Piece, has_label, is_defined, pieces_of};
use crate::reasons::{Fault, Reason};
use crate::texts::{behind, position_of_name, word_of};
use mac_text::Line;
use std::alloc::{AllocError, Global};

/// The fault of a value with a name that is not defined, if it has one.
fn unknown_at<'a>(piece: &Piece, text: &'a [u8]) -> Option<Fault<'a>> {
    let label = piece.unknown?;
    let from = match piece.mark {
        Mark::Span(span) => span.from as usize,
        Mark::Number(_) | Mark::Character(_) => 0,
    };
    let position = position_of_name(text, from, label)?;
    let name = word_of(behind(text, position));
    Some(Fault::at(
        position.saturating_add(1),
        Reason::Unknown(name, piece.is_statement),
    ))
}

/// The fault of a line with a name that is not defined: the first of those that no line defines.
pub fn unknown_name<'a>(
    alloc: Global,
    lines: &[Line],
    line: &Line,
    text: &'a [u8],
) -> Result<Fault<'a>, AllocError> {
    let pieces = pieces_of(alloc, lines, line)?;
    for piece in &pieces {
        if let Some(fault) = unknown_at(piece, text) {
            return Ok(fault);
        }
    }
    Ok(Fault::whole(Reason::UnknownName))
}

/// The fault of a line with a label that is defined twice, or whose place is taken. `earlier` are the lines before it.
pub fn twice<'a>(earlier: &[Line], line: &Line, text: &'a [u8]) -> Fault<'a> {
    let labels = line.labels.as_slice();
    for (i, label) in labels.iter().enumerate() {
        if !is_defined(earlier, *label) && !has_label(&labels[..i], *label) {
            continue;
        }
        if let Some(position) = position_of_name(text, 0, *label) {
            return Fault::at(
                position.saturating_add(1),
                Reason::Twice(word_of(behind(text, position))),
            );
        }
    }
    Fault::whole(Reason::Taken)
}
