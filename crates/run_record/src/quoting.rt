//! Sources that can stand in a script, and those that cannot.
ghost use Rattle.std.specs.Prelude.{◌≡◌};
ghost use Rattle.run_record.specs.Quotes.{reason_of};

use script_io::{LINE_LENGTH, Parts, is_allowed, without_return};
use std::fmt;

/// Why a line of a source cannot stand in a script.
#[derive(Clone, Copy)]
pub enum Unquotable {
    /// It has more than 256 characters.
    TooLong,
    /// It has a byte that is not ASCII.
    NotAscii,
    /// It is ENDASM, which ends a source in a script.
    EndsSource,
}

impl fmt::Display for Unquotable {
    fn fmt<W: fmt::Write>(&self, f: &mut fmt::Formatter<W>) -> fmt::Result {
        f.write_str(match self {
            Unquotable::TooLong => "has more than 256 characters",
            Unquotable::NotAscii => "has a byte that is not ASCII",
            Unquotable::EndsSource => "is ENDASM, which ends a source in a script",
        })
    }
}

/// A line of a source that cannot stand in a script.
#[derive(Clone, Copy)]
pub struct UnquotableLine {
    /// Its number, counted from 1.
    pub number: usize,
    /// Why it cannot.
    pub reason: Unquotable,
}

/// Why a line, without its end, cannot stand in a script, if it cannot.
fn reason_of(line: &[u8]) -> Option<Unquotable>
    ensures { result ≡ reason_of line.now }
{
    if line.len() > LINE_LENGTH {
        Some(Unquotable::TooLong)
    } else if !is_allowed(line) {
        Some(Unquotable::NotAscii)
    } else if line == b"ENDASM".as_slice() {
        Some(Unquotable::EndsSource)
    } else {
        None
    }
}

/// The first line of a source that cannot stand in a script, if there is one.
pub fn unquotable_line(text: &[u8]) -> Option<UnquotableLine> {
    let mut number = 0usize;
    let mut lines = Parts::of(text, b'\n');
    while let Some(line) = lines.next() {
        number = number.saturating_add(1);
        if let Some(reason) = reason_of(without_return(line)) {
            return Some(UnquotableLine { number, reason });
        }
    }
    None
}
