//! What is wrong with a line of a script.

use queue_script::{CODE_DIGITS, MOST_LEVEL};
use script_io::LINE_LENGTH;
use shown_bytes::{FaultOf, Found, Quoted};
use std::fmt;

/// What is wrong with a line of a script.
pub type Fault<'a> = FaultOf<Reason<'a>>;

/// What is wrong.
#[derive(Clone, Copy)]
pub enum Reason<'a> {
    /// A sentence that says it.
    Said(&'static str),
    /// Something else is expected where these bytes stand, or where the line ends.
    Expected(&'static str, &'a [u8]),
    /// A number is expected where these bytes stand, or where the line ends.
    Number(Range, &'a [u8]),
    /// The name of a lock is expected where these bytes stand, or where the line ends.
    LockName(&'a [u8]),
    /// These bytes are no option of a lock.
    NoOption(&'a [u8]),
    /// The line is too long.
    TooLong,
    /// These bytes, and a sentence about them.
    Is(&'a [u8], &'static str),
    /// There is no command of this name, and what a person may do about it.
    NoCommand(&'a [u8], &'static str),
}

/// The numbers that may stand in one position.
#[derive(Clone, Copy)]
pub struct Range {
    /// What the number is of.
    pub name: &'static str,
    /// The radix in which it is written, 8 or 10.
    pub radix: u64,
    /// The least.
    pub least: u64,
    /// The greatest.
    pub most: u64,
}

impl fmt::Display for Range {
    fn fmt<W: fmt::Write>(&self, f: &mut fmt::Formatter<W>) -> fmt::Result {
        let (name, least, most) = (self.name, self.least, self.most);
        if self.radix == 8 {
            write!(f, "{name}, {least:o} to {most:o} in octal")
        } else {
            write!(f, "{name}, {least} to {most}")
        }
    }
}

impl fmt::Display for Reason<'_> {
    fn fmt<W: fmt::Write>(&self, f: &mut fmt::Formatter<W>) -> fmt::Result {
        match *self {
            Reason::Said(sentence) => write!(f, "{sentence}"),
            Reason::Expected(wanted, found) => {
                let found = Found(found);
                write!(f, "expected {wanted}{found}")
            }
            Reason::Number(range, found) => {
                let found = Found(found);
                write!(f, "expected {range}{found}")
            }
            Reason::LockName(found) => {
                let found = Found(found);
                write!(
                    f,
                    "expected a lock's name (letters, digits, \".\", \"-\" and \"_\", or \"#\" and 1 to {CODE_DIGITS} octal digits){found}"
                )
            }
            Reason::NoOption(found) => {
                let found = Quoted(found);
                write!(
                    f,
                    "{found} is no option of a lock (/S, /Gn, /B, /Ln with n to {MOST_LEVEL}, /Ps:a and /J are; a name ends at its \"/\")"
                )
            }
            Reason::TooLong => write!(f, "a line has at most {LINE_LENGTH} characters"),
            Reason::Is(found, sentence) => {
                let found = Quoted(found);
                write!(f, "{found} {sentence}")
            }
            Reason::NoCommand(found, more) => {
                let found = Quoted(found);
                write!(f, "no command {found} ({more})")
            }
        }
    }
}
