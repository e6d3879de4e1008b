//! Bytes of a line, as a sentence about it shows them.

use std::fmt;

/// The most bytes of a line that are quoted.
const MOST_QUOTED: usize = 40;

/// The sentence for a byte that is not ASCII.
pub const NOT_ASCII: &str = "a byte that is not ASCII";

/// The column of the first byte of a line that is not ASCII, if there is one.
pub fn column_not_ascii(line: &[u8]) -> Option<usize> {
    for (i, byte) in line.iter().enumerate() {
        if *byte >= 128 {
            return Some(i.saturating_add(1));
        }
    }
    None
}

/// Bytes of a line between quotes; those that are not printed are shown in octal.
#[derive(Clone, Copy)]
pub struct Quoted<'a>(pub &'a [u8]);

impl fmt::Display for Quoted<'_> {
    fn fmt<W: fmt::Write>(&self, f: &mut fmt::Formatter<W>) -> fmt::Result {
        let shown = self.0.len().min(MOST_QUOTED);
        f.write_str("\"")?;
        for byte in &self.0[..shown] {
            write_byte(f, *byte)?;
        }
        f.write_str(if shown < self.0.len() { "..\"" } else { "\"" })
    }
}

/// A byte as it is, or in octal where it is not printed.
fn write_byte<W: fmt::Write>(f: &mut fmt::Formatter<W>, byte: u8) -> fmt::Result {
    if byte >= b' ' && byte < 0o177 {
        f.write_char(char::from(byte))
    } else {
        write!(f, "\\{byte:03o}")
    }
}

/// What follows the expected: `, not ` and the bytes that were found, or nothing at the end of the line.
#[derive(Clone, Copy)]
pub struct Found<'a>(pub &'a [u8]);

impl fmt::Display for Found<'_> {
    fn fmt<W: fmt::Write>(&self, f: &mut fmt::Formatter<W>) -> fmt::Result {
        if self.0.is_empty() {
            return Ok(());
        }
        let found = Quoted(self.0);
        write!(f, ", not {found}")
    }
}
