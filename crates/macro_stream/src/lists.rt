//! The elements of IRP's list.

use crate::stops::Stop;
use crate::stream::Stream;
use crate::texts::{Item, Range, character_of, is_character, item_at};
use macro_names::is_blank;

/// Whether an item is a blank or a line end.
fn is_space(item: Item) -> bool {
    match character_of(item) {
        Some(character) => is_blank(character) || character == b'\n',
        None => false,
    }
}

/// The position of the `>` that closes the `<` at the start of a text; the text's end where there is none.
fn closed_at(items: &[Item], range: Range) -> usize {
    let mut depth = 0usize;
    for at in range.start..range.end {
        if is_character(items, at, b'<') {
            depth = depth.saturating_add(1);
        } else if is_character(items, at, b'>') {
            depth = depth.saturating_sub(1);
            if depth == 0 {
                return at;
            }
        }
    }
    range.end
}

/// A text without the spaces around it, and then without the `< >` around all of it.
fn trimmed(items: &[Item], range: Range) -> Range {
    let mut start = range.start;
    for at in range.start..range.end {
        if !is_space(item_at(items, at)) {
            break;
        }
        start = at + 1;
    }
    let mut end = range.end;
    for at in (start..range.end).rev() {
        if !is_space(item_at(items, at)) {
            break;
        }
        end = at;
    }
    let inner = Range { start, end };
    if end.saturating_sub(start) >= 2
        && is_character(items, start, b'<')
        && closed_at(items, inner) == end.saturating_sub(1)
    {
        return Range {
            start: start.saturating_add(1),
            end: end.saturating_sub(1),
        };
    }
    inner
}

impl Stream {
    /// Parts a list at its commas outside of brackets, and keeps its elements: the first, and the one behind the last.
    pub fn keep_elements(&mut self, list: Range) -> Result<(usize, usize), Stop> {
        let first = self.ranges.len();
        if list.is_empty() {
            return Ok((first, first));
        }
        let mut angles = 0i64;
        let mut others = 0i64;
        let mut start = list.start;
        for at in list.start..list.end {
            match character_of(item_at(self.items.as_slice(), at)) {
                Some(b'<') => angles = angles.saturating_add(1),
                Some(b'>') => angles = angles.saturating_sub(1),
                Some(b'(' | b'[') => others = others.saturating_add(1),
                Some(b')' | b']') => others = others.saturating_sub(1),
                Some(b',') => {
                    if angles == 0 && others == 0 {
                        let element = trimmed(self.items.as_slice(), Range { start, end: at });
                        self.ranges.push(element)?;
                        start = at + 1;
                    }
                }
                Some(_) | None => (),
            }
        }
        let end = list.end;
        let element = trimmed(self.items.as_slice(), Range { start, end });
        self.ranges.push(element)?;
        Ok((first, self.ranges.len()))
    }

    /// Keeps the characters of a text as texts of their own: the first, and the one behind the last.
    pub fn keep_characters(&mut self, list: Range) -> Result<(usize, usize), Stop> {
        let first = self.ranges.len();
        for at in list.start..list.end {
            let end = at + 1;
            self.ranges.push(Range { start: at, end })?;
        }
        Ok((first, self.ranges.len()))
    }
}
