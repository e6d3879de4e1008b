//! Values that do not fit.

use crate::pieces::{Mark, Piece, pieces_of};
use crate::reasons::{Fault, Reason};
use crate::texts::{behind, position_of_number, word_of};
use mac_text::{Line, Span};
use std::alloc::{AllocError, Global};

/// The position in a line of what stands there, without the blanks around it, and its bytes.
fn text_at(line: &[u8], span: Span) -> (usize, &[u8]) {
    let until = (span.until as usize).min(line.len());
    let from = (span.from as usize).min(until);
    let text = &line[from..until];
    let trimmed = text.trim_ascii_start();
    let blanks = text.len().saturating_sub(trimmed.len());
    (from.saturating_add(blanks), trimmed.trim_ascii_end())
}

/// Where a value stands in a line, and how it is written, if that is found.
fn found_in<'a>(line: &'a [u8], piece: &Piece) -> Option<(usize, &'a [u8])> {
    match piece.mark {
        Mark::Span(span) => Some(text_at(line, span)),
        Mark::Number(number) => {
            let position = position_of_number(line, number)?;
            Some((position, word_of(behind(line, position))))
        }
        Mark::Character(character) => {
            let position = line.iter().position(|c| *c == character)?;
            Some((position, behind(line, position).get(..1).unwrap_or(&[])))
        }
    }
}

/// The fault of a value.
fn fault_at<'a>(line: &'a [u8], piece: &Piece) -> Fault<'a> {
    match found_in(line, piece) {
        Some((position, text)) => Fault::at(
            position.saturating_add(1),
            Reason::Misfit(text, piece.limit),
        ),
        None => Fault::whole(Reason::MisfitOfLine),
    }
}

/// The fault of a line with a value that does not fit: the first that does not, or else the first of which that is not
/// known.
pub fn misfit<'a>(
    alloc: Global,
    lines: &[Line],
    line: &Line,
    text: &'a [u8],
) -> Result<Fault<'a>, AllocError> {
    let pieces = pieces_of(alloc, lines, line)?;
    for piece in &pieces {
        if piece.is_misfit() {
            return Ok(fault_at(text, piece));
        }
    }
    for piece in &pieces {
        if piece.number.is_none() {
            return Ok(fault_at(text, piece));
        }
    }
    Ok(Fault::whole(Reason::MisfitOfLine))
}
