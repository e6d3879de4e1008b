//! What is wrong with a line of a source, and its words.

use crate::values::Limit;
use ka_isa::{Named, named};
use left_out::left_out;
use mac_text::{Wanted, folded};
use shown_bytes::{FaultOf, Found, NOT_ASCII, Quoted};
use std::{fmt, str};

/// What is wrong with a line of a source, and where.
pub type Fault<'a> = FaultOf<Reason<'a>>;

/// What is wrong.
#[derive(Clone, Copy)]
pub enum Reason<'a> {
    /// The grammar wants something else where these bytes stand, or behind the name of this operation.
    Syntax(Wanted, &'a [u8]),
    /// The line is not in the grammar.
    NoLine,
    /// This name is not defined; whether it is a whole statement.
    Unknown(&'a [u8], bool),
    /// A name is not defined.
    UnknownName,
    /// This label is defined twice.
    Twice(&'a [u8]),
    /// The place of a word has a word already.
    Taken,
    /// This value does not fit, and what it has to be.
    Misfit(&'a [u8], Limit),
    /// A value does not fit.
    MisfitOfLine,
    /// LOC or BLOCK has a later label or a literal.
    Early,
    /// A word or a label stands too high.
    TooHigh,
    /// There is no END.
    NoEnd,
}

/// What an operation may have behind its name.
fn operation_of(name: &[u8]) -> Option<Named> {
    match str::from_utf8(folded(name).as_slice()) {
        Ok(name) => named(name),
        Err(_) => None,
    }
}

/// What this operation does not take.
fn not_taken(name: &[u8]) -> &'static str {
    match operation_of(name) {
        Some(operation) if !operation.ac && !operation.addr => {
            "this operation takes neither accumulator nor address"
        }
        Some(operation) if !operation.ac => "this operation takes no accumulator",
        _ => "this operation takes no address",
    }
}

/// Whether a word is a number with `B` and a bit behind it.
pub fn has_bit(word: &[u8]) -> bool {
    let digits = word.iter().filter(|c| c.is_ascii_digit()).count();
    let letters = word.iter().filter(|c| **c == b'B' || **c == b'b').count();
    digits > 0 && letters == 1 && digits.saturating_add(1) == word.len()
}

/// Whether a word has a point behind it.
pub fn has_point(word: &[u8]) -> bool {
    word.last().copied() == Some(b'.')
}

/// Why a word is no number of a radix.
fn no_number(word: &[u8], radix: u8) -> &'static str {
    let is_number = word.iter().all(|c| c.is_ascii_digit());
    if is_number && radix == 8 {
        "is no number in octal, which numbers are unless RADIX or \"^D\" says otherwise"
    } else if is_number {
        "is no number of the radix that RADIX says"
    } else if has_bit(word) {
        "is no number: a bit behind \"B\" is not here"
    } else if has_point(word) {
        "is no number: a point behind a number is not here"
    } else {
        "is no number"
    }
}

/// What is expected, in words.
fn expected(wanted: Wanted) -> &'static str {
    match wanted {
        Wanted::Statement => "an operation, a value or a comment",
        Wanted::Term => "a number, a name, \".\", \"^D\", \"^O\" or \"[\"",
        Wanted::Mark => "\"D\" or \"O\" and a number",
        Wanted::Marked => "a number",
        Wanted::Decimal => "a number in decimal",
        Wanted::IndexEnd => "\")\"",
        Wanted::SecondValue => "\",\" and a second value",
        Wanted::Address => "\",\" and an address",
        Wanted::Text => "a text between two equal characters",
        Wanted::Operand => "an accumulator, an address or the end of the line",
        Wanted::ValueEnd => "\"+\", \"-\", \",\" or the end of the line",
        _ => "the end of the line",
    }
}

/// Writes that the grammar wants something else than was found.
fn write_syntax<W: fmt::Write>(
    f: &mut fmt::Formatter<W>,
    wanted: Wanted,
    found: &[u8],
) -> fmt::Result {
    let quoted = Quoted(found);
    match wanted {
        Wanted::Ascii => f.write_str(NOT_ASCII),
        Wanted::Operation => match left_out(folded(found).as_slice()) {
            Some(reason) => write!(f, "{quoted} is not here: {reason}"),
            None => write!(f, "{quoted} is not an operation of this assembler"),
        },
        Wanted::Digits(radix) => {
            let sentence = no_number(found, radix);
            write!(f, "{quoted} {sentence}")
        }
        Wanted::TextEnd => {
            f.write_str("the character that begins this text does not stand again behind it")
        }
        Wanted::LiteralEnd => f.write_str("this \"[\" has no \"]\" behind it"),
        Wanted::NoLiteral => f.write_str("a literal has no literal in it"),
        Wanted::Words => f.write_str("a literal has a statement that gives words"),
        Wanted::Characters => f.write_str("an empty text gives a literal no word"),
        Wanted::Allowed => f.write_str(not_taken(found)),
        other => {
            let (wanted, found) = (expected(other), Found(found));
            write!(f, "expected {wanted}{found}")
        }
    }
}

impl fmt::Display for Reason<'_> {
    fn fmt<W: fmt::Write>(&self, f: &mut fmt::Formatter<W>) -> fmt::Result {
        match *self {
            Reason::Syntax(wanted, found) => write_syntax(f, wanted, found),
            Reason::NoLine => f.write_str("not a line of this assembler"),
            Reason::Unknown(name, is_statement) => {
                if let Some(reason) = left_out(folded(name).as_slice()) {
                    let name = Quoted(name);
                    return write!(f, "{name} is not here: {reason}");
                }
                let name = Quoted(name);
                let more = if is_statement {
                    ", and is no operation of this assembler"
                } else {
                    ""
                };
                write!(f, "{name} is not defined{more}")
            }
            Reason::UnknownName => f.write_str("a name is not defined"),
            Reason::Twice(label) => {
                let label = Quoted(label);
                write!(f, "{label} is defined twice")
            }
            Reason::Taken => f.write_str("the place of this word has a word already"),
            Reason::Misfit(value, limit) => {
                let (value, words) = (Quoted(value), limit.words());
                write!(f, "{value} does not fit: {words}")
            }
            Reason::MisfitOfLine => f.write_str("a value does not fit"),
            Reason::Early => f.write_str(
                "LOC and BLOCK take numbers and labels of earlier lines, and no literal",
            ),
            Reason::TooHigh => f.write_str("a word or a label would stand behind place 777777"),
            Reason::NoEnd => f.write_str("the source has no END"),
        }
    }
}
