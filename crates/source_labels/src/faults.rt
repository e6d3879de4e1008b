//! The lines on a fault of a source, for a person.

use crate::lines::line_at;
use crate::sources::Source;
use shown_bytes::{MOST_SHOWN, push_shown, shown_width};
use std::alloc::AllocError;

/// The most faults that are reported where no other number is given.
pub const MOST_REPORTED: usize = 20;

/// The line and the column of what is wrong, counted from 1. The line is 0 where the source has none.
#[derive(Clone, Copy)]
pub struct ErrorPlace {
    /// The line.
    pub line: usize,
    /// The column, in bytes.
    pub column: usize,
}

/// How many bytes of a long line are shown before the column of its fault.
const SHOWN_BEFORE: usize = 80;

/// The position in a line from which on it is shown, so that the column of its fault is seen: 0 where that is near enough.
fn first_shown(line: &[u8], column: usize) -> usize {
    if column <= MOST_SHOWN {
        0
    } else {
        column.saturating_sub(SHOWN_BEFORE).min(line.len())
    }
}

/// Adds blanks below some bytes as they are shown, with tabs where these have them.
fn push_indent(text: &mut String, bytes: &[u8]) -> Result<(), AllocError> {
    for byte in bytes {
        if *byte == b'\t' {
            text.push('\t')?;
            continue;
        }
        for _ in 0..shown_width(*byte) {
            text.push(' ')?;
        }
    }
    Ok(())
}

/// Adds a line of a source as it is shown, and a caret below a column of it.
fn push_line(text: &mut String, line: &[u8], column: usize) -> Result<(), AllocError> {
    let first = first_shown(line, column);
    let head = if first > 0 { "    .." } else { "    " };
    let below = if first > 0 { "\n      " } else { "\n    " };
    let shown = line.get(first..).unwrap_or(&[]);
    let before = shown
        .get(..column.saturating_sub(1).saturating_sub(first))
        .unwrap_or(shown);
    text.push_str(head)?;
    push_shown(text, shown)?;
    text.push_str(below)?;
    push_indent(text, before)?;
    text.push_str("^\n")
}

/// Adds the lines on what is wrong at a column of a line: `FILE:LINE:COLUMN: error:` with what it is, and with its mark in
/// parentheses, if it has one; and the source's line with a caret below, if it is not empty.
pub fn push_error(
    text: &mut String,
    source: &Source<'_>,
    place: ErrorPlace,
    reason: &str,
    mark: &str,
) -> Result<(), AllocError> {
    let line = line_at(source.text.as_slice(), place.line);
    let (file, number, column) = (source.file, place.line.max(1), place.column);
    write!(text, "{file}:{number}:{column}: error: {reason}")?;
    if !mark.is_empty() {
        write!(text, " ({mark})")?;
    }
    text.push('\n')?;
    if line.is_empty() {
        Ok(())
    } else {
        push_line(text, line, column)
    }
}

/// Adds how many faults there are beyond those that are reported.
pub fn push_more(
    text: &mut String,
    file: &str,
    count: usize,
    most: usize,
) -> Result<(), AllocError> {
    let more = count.saturating_sub(most);
    if more == 0 {
        return Ok(());
    }
    write!(text, "{file}: {more} more\n")
}
