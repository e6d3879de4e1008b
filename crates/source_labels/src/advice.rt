//! Advice on a faulty line: what to write instead.

use crate::lines::{line_at, split_label};
use crate::near_names::near_operation;
use mac_text::folded;
use std::alloc::{AllocError, Global};
use std::str;

/// Advice on a word that is no operation, if there is any: the operation that was meant.
pub fn advice_on_word(alloc: Global, word: &[u8]) -> Result<Option<String>, AllocError> {
    match near_operation(alloc, word)? {
        Some(name) => Ok(Some(format!(in alloc; "did you mean {}?", name.as_str())?)),
        None => Ok(None),
    }
}

/// The number of the first line before another where a label stands, if it stands on one.
fn first_line_of(source: &[u8], label: &[u8], before: usize) -> Option<usize> {
    let wanted = folded(label);
    for number in 1..before {
        let mut rest = line_at(source, number);
        for _ in 0..rest.len() {
            let Some((word, behind)) = split_label(rest) else {
                break;
            };
            if folded(word).as_slice() == wanted.as_slice() {
                return Some(number);
            }
            rest = behind;
        }
    }
    None
}

/// Advice on a line whose label is defined twice, by its number.
pub fn advice_on_label(
    alloc: Global,
    source: &[u8],
    line: usize,
) -> Result<Option<String>, AllocError> {
    let mut rest = line_at(source, line);
    for _ in 0..rest.len() {
        let Some((word, behind)) = split_label(rest) else {
            break;
        };
        if let Some(first) = first_line_of(source, word, line) {
            let characters = folded(word);
            let name = str::from_utf8(characters.as_slice()).unwrap_or("it");
            return Ok(Some(format!(in alloc;
                "line {first} has the label {name} already. Of a name the first six characters count."
            )?));
        }
        rest = behind;
    }
    Ok(None)
}
