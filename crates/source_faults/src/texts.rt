//! Parts of a source's text.

use mac_text::Symbol;
use macro_names::{is_blank, is_name_character};

/// The text behind its first `count` lines.
pub fn behind_lines(text: &[u8], count: u128) -> &[u8] {
    let mut rest = text;
    let mut left = count;
    for _ in 0..text.len() {
        if left == 0 {
            return rest;
        }
        match rest.iter().position(|c| *c == b'\n') {
            Some(end) => rest = rest.get(end.saturating_add(1)..).unwrap_or(&[]),
            None => return &[],
        }
        left = left.saturating_sub(1);
    }
    rest
}

/// The first line of a text, without its line end.
pub fn first_line(text: &[u8]) -> &[u8] {
    match text.iter().position(|c| *c == b'\n') {
        Some(end) => {
            let line = text.get(..end).unwrap_or(text);
            line.strip_suffix(b"\r".as_slice()).unwrap_or(line)
        }
        None => text,
    }
}

/// What stands in a line from a position on.
pub fn behind(line: &[u8], position: usize) -> &[u8] {
    line.get(position..).unwrap_or(&[])
}

/// The letters, digits and the like that a text begins with.
pub fn word_of(text: &[u8]) -> &[u8] {
    match text.iter().position(|c| !is_name_character(*c)) {
        Some(length) => text.get(..length).unwrap_or(text),
        None => text,
    }
}

/// The position of the first character from `from` on that is no blank.
pub fn skip_blanks(line: &[u8], from: usize) -> usize {
    match behind(line, from).iter().position(|c| !is_blank(*c)) {
        Some(blanks) => from.saturating_add(blanks),
        None => line.len(),
    }
}

/// What stands at a position of a line: a word, a character, or nothing.
pub fn found_at(line: &[u8], position: usize) -> &[u8] {
    let rest = behind(line, position);
    let length = word_of(rest).len().max(1);
    rest.get(..length).unwrap_or(rest)
}

/// The position, from `from` on, at which a name first stands in a line, if it does.
pub fn position_of_name(line: &[u8], from: usize, name: Symbol) -> Option<usize> {
    let mut position = from;
    for _ in 0..line.len() {
        let word = word_of(behind(line, position));
        if !word.is_empty() && Symbol::of(word).sixbit() == name.sixbit() {
            return Some(position);
        }
        position = position.saturating_add(word.len().max(1));
    }
    None
}

/// The number of some digits in decimal, or a greater one than any that fits.
fn decimal(word: &[u8]) -> Option<i64> {
    let mut number = 0i64;
    for c in word {
        if !c.is_ascii_digit() {
            return None;
        }
        number = number
            .saturating_mul(10)
            .saturating_add(i64::from(c.saturating_sub(b'0')));
    }
    Some(number)
}

/// The position at which a number first stands in a line in decimal, if it does.
pub fn position_of_number(line: &[u8], number: i64) -> Option<usize> {
    let mut position = 0usize;
    for _ in 0..line.len() {
        let word = word_of(behind(line, position));
        if !word.is_empty() && decimal(word) == Some(number) {
            return Some(position);
        }
        position = position.saturating_add(word.len().max(1));
    }
    None
}
