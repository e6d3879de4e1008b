//! Texts that are stored: arguments, and the bodies of macros.

use crate::frames::Arguments;
use crate::stops::Stop;
use crate::stream::Stream;
use crate::texts::{Item, MARK, Range, character_of, is_character, item_at, push_digits};
use macro_names::{Name, NameReader, is_digit, is_name_character};

impl Stream {
    /// Stores a text.
    pub fn store(&mut self, text: &[u8]) -> Result<Range, Stop> {
        let start = self.items.len();
        for character in text {
            self.items.push(Item::from(*character))?;
        }
        Ok(Range {
            start,
            end: self.items.len(),
        })
    }

    /// Stores the digits of a number in a radix.
    pub fn store_digits(&mut self, number: u64, radix: u8) -> Result<Range, Stop> {
        let start = self.items.len();
        push_digits(&mut self.items, number, radix, 1)?;
        Ok(Range {
            start,
            end: self.items.len(),
        })
    }

    /// Stores the created name of a number, as `..0001`.
    pub fn store_created(&mut self, number: u32) -> Result<Range, Stop> {
        let start = self.items.len();
        self.items.push(Item::from(b'.'))?;
        self.items.push(Item::from(b'.'))?;
        push_digits(&mut self.items, u64::from(number), 10, 4)?;
        Ok(Range {
            start,
            end: self.items.len(),
        })
    }

    /// Stores a text with the arguments put in for its marks.
    pub fn store_expanded(&mut self, range: Range, arguments: Arguments) -> Result<Range, Stop> {
        let start = self.items.len();
        for at in range.start..range.end {
            let item = item_at(self.items.as_slice(), at);
            if item < MARK {
                self.items.push(item)?;
            } else {
                let argument = self.argument(arguments, item - MARK);
                for position in argument.start..argument.end {
                    let inner = item_at(self.items.as_slice(), position);
                    self.items.push(inner)?;
                }
            }
        }
        Ok(Range {
            start,
            end: self.items.len(),
        })
    }

    /// Stores the body of a macro from its text: the names of dummies become marks, with one `'` on each side dropped,
    /// and comments from `;;` on go.
    pub fn store_body(&mut self, text: Range, dummies: &[Name]) -> Result<Range, Stop> {
        let start = self.items.len();
        let mut next = text.start;
        let mut in_comment = false;
        for at in text.start..text.end {
            let item = item_at(self.items.as_slice(), at);
            let character = character_of(item).unwrap_or(b' ');
            if in_comment && character != b'\n' || at < next {
                continue;
            }
            in_comment = character == b';'
                && at + 1 < text.end
                && is_character(self.items.as_slice(), at + 1, b';');
            if in_comment {
                continue;
            }
            if is_name_character(character) {
                next = self.store_run(at, text.end, start, dummies)?;
            } else {
                self.items.push(item)?;
            }
        }
        Ok(Range {
            start,
            end: self.items.len(),
        })
    }

    /// Stores one run of name characters, or the mark of the dummy that it is; gives the position behind it.
    fn store_run(
        &mut self,
        from: usize,
        end: usize,
        start: usize,
        dummies: &[Name],
    ) -> Result<usize, Stop> {
        let mut name = NameReader::new();
        let mut behind = end;
        for at in from..end {
            let character = character_of(item_at(self.items.as_slice(), at)).unwrap_or(b' ');
            if !is_name_character(character) {
                behind = at;
                break;
            }
            name.push(character);
        }
        let first = character_of(item_at(self.items.as_slice(), from)).unwrap_or(b' ');
        match mark_of(name.name(), dummies) {
            Some(mark) if !is_digit(first) => {
                let last = self.items.len();
                if last > start && is_character(self.items.as_slice(), last - 1, b'\'') {
                    let _quote = self.items.pop();
                }
                self.items.push(mark)?;
                if behind < end && is_character(self.items.as_slice(), behind, b'\'') {
                    return Ok(behind + 1);
                }
            }
            Some(_) | None => {
                for at in from..behind {
                    let item = item_at(self.items.as_slice(), at);
                    self.items.push(item)?;
                }
            }
        }
        Ok(behind)
    }
}

/// The mark of a dummy.
fn mark_of(name: Name, dummies: &[Name]) -> Option<Item> {
    for (at, dummy) in dummies.iter().enumerate() {
        if *dummy == name && at < 1_000_000 {
            return Some(MARK + at as Item);
        }
    }
    None
}
