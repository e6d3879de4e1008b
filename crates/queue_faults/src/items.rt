//! The items of a script's line.

use crate::fault::{Fault, Reason};
use script_io::LINE_LENGTH;
use shown_bytes::{NOT_ASCII, column_not_ascii};

/// A part of a line, and the column where it begins.
#[derive(Clone, Copy)]
pub struct Item<'a> {
    pub text: &'a [u8],
    pub column: usize,
}

impl<'a> Item<'a> {
    /// The fault that something else is expected here.
    pub fn expects(self, wanted: &'static str) -> Fault<'a> {
        Fault::at(self.column, Reason::Expected(wanted, self.text))
    }

    /// The fault with this reason here.
    pub fn fault(self, reason: Reason<'a>) -> Fault<'a> {
        Fault::at(self.column, reason)
    }

    /// The fault that a sentence tells of it.
    pub fn is(self, sentence: &'static str) -> Fault<'a> {
        Fault::at(self.column, Reason::Is(self.text, sentence))
    }

    /// What stands behind its first `length` bytes.
    pub fn after(self, length: usize) -> Item<'a> {
        let text = self.text;
        let length = length.min(text.len());
        Item {
            text: &text[length..],
            column: self.column.saturating_add(length),
        }
    }

    /// Cuts it at the first separator: what stands before it, and what stands behind it. Without one, all of it and None.
    pub fn cut(self, separator: u8) -> (Item<'a>, Option<Item<'a>>) {
        let text = self.text;
        for (i, byte) in text.iter().enumerate() {
            if *byte == separator {
                let front = Item {
                    text: &text[..i],
                    column: self.column,
                };
                let behind = Item {
                    text: &text[i + 1..],
                    column: self.column.saturating_add(i).saturating_add(1),
                };
                return (front, Some(behind));
            }
        }
        (self, None)
    }
}

/// The items of a line, with separators between them.
#[derive(Clone, Copy)]
pub struct Items<'a> {
    /// What is left; None behind the last item.
    rest: Option<Item<'a>>,
    separator: u8,
    /// The column behind the line.
    end: usize,
}

impl<'a> Items<'a> {
    /// The items of a text.
    pub fn of(item: Item<'a>, separator: u8) -> Self {
        Items {
            rest: Some(item),
            separator,
            end: item.column.saturating_add(item.text.len()),
        }
    }

    /// The next item.
    pub fn next(&mut self) -> Option<Item<'a>> {
        let (item, rest) = self.rest?.cut(self.separator);
        self.rest = rest;
        Some(item)
    }

    /// The next item, or the fault that it is missing.
    pub fn wanted(&mut self, what: &'static str) -> Result<Item<'a>, Fault<'a>> {
        match self.next() {
            Some(item) => Ok(item),
            None => Err(Fault::at(self.end, Reason::Expected(what, &[]))),
        }
    }

    /// The next item, or an empty one behind the line.
    pub fn next_or_end(&mut self) -> Item<'a> {
        let (text, column) = (&[], self.end);
        self.next().unwrap_or(Item { text, column })
    }

    /// Checks that nothing is left.
    pub fn end(&mut self) -> Result<(), Fault<'a>> {
        match self.rest {
            None => Ok(()),
            Some(item) if item.text.first() == Some(&b';') => {
                Err(Fault::at(item.column, Reason::Said(COMMENT)))
            }
            Some(item) => Err(item.expects("the end of the line")),
        }
    }
}

const COMMENT: &str = "a comment stands on a line of its own";

/// What is wrong with the form of a line, whatever its command.
pub fn check_form(line: &[u8]) -> Result<(), Fault<'_>> {
    if let Some(column) = column_not_ascii(line) {
        return Err(Fault::at(column, Reason::Said(NOT_ASCII)));
    }
    if line.len() > LINE_LENGTH {
        return Err(Fault::at(0, Reason::TooLong));
    }
    Ok(())
}

/// What is wrong with the blanks of a line of items.
pub fn check_blanks(line: &[u8]) -> Result<(), Fault<'_>> {
    let mut previous = b' ';
    for (i, byte) in line.iter().enumerate() {
        let column = i.saturating_add(1);
        if *byte == b'\t' {
            let reason = Reason::Said("a tab, where items stand behind single spaces");
            return Err(Fault::at(column, reason));
        }
        if *byte == b'\r' {
            let reason = Reason::Said("a carriage return that is not the last of the line");
            return Err(Fault::at(column, reason));
        }
        if *byte == b' ' && previous == b' ' {
            let reason = Reason::Said("a space too many: items stand behind single spaces");
            return Err(Fault::at(column, reason));
        }
        previous = *byte;
    }
    if previous == b' ' {
        let reason = Reason::Said("a space at the end of the line");
        return Err(Fault::at(line.len(), reason));
    }
    Ok(())
}

/// Whether a text is a number of this base, from `least` to `most`.
pub fn is_number(text: &[u8], base: u64, least: u64, most: u64) -> bool {
    let mut number = 0u64;
    for byte in text {
        if *byte < b'0' {
            return false;
        }
        let digit = u64::from(*byte - b'0');
        if digit >= base {
            return false;
        }
        number = number.saturating_mul(base).saturating_add(digit);
    }
    !text.is_empty() && number >= least && number <= most
}
