//! Names as the source has them, of which six characters count.

use macro_names::{Name, is_name_character, text_of};
use std::alloc::AllocError;

/// The source from a line on.
fn from_line(source: &[u8], line: u32) -> &[u8] {
    let mut rest = source;
    for _ in 1..line {
        match rest.iter().position(|c| *c == b'\n') {
            Some(end) => rest = rest.get(end.saturating_add(1)..).unwrap_or(&[]),
            None => return &[],
        }
    }
    rest
}

/// The first word of a text that is this name.
fn spelling_in(text: &[u8], name: Name) -> Option<&[u8]> {
    let mut rest = text;
    for _ in 0..text.len() {
        let end = match rest.iter().position(|c| !is_name_character(*c)) {
            Some(end) => end,
            None => rest.len(),
        };
        let word = rest.get(..end).unwrap_or(rest);
        if !word.is_empty() && Name::of(word) == name {
            return Some(word);
        }
        rest = rest.get(end.saturating_add(1)..).unwrap_or(&[]);
    }
    None
}

/// Adds a name as a line of a source has it, or else the lines behind that, or else the source; or the characters that count,
/// where nothing has it.
pub fn push_name(
    out: &mut Vec<u8>,
    name: Name,
    source: &[u8],
    line: u32,
) -> Result<(), AllocError> {
    let found = match spelling_in(from_line(source, line), name) {
        Some(word) => Some(word),
        None => spelling_in(source, name),
    };
    match found {
        Some(word) => out.extend_from_slice(word),
        None => out.extend_from_slice(text_of(name).as_slice()),
    }
}
