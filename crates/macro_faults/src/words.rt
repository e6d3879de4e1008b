//! Words for a fault.

use crate::faults::Fault;
use crate::reports::{Report, Spot};
use crate::spellings::push_name;
use macro_names::Name;
use macro_stream::{Around, Place};
use script_io::{push_decimal, push_escaped};
use std::alloc::AllocError;
use word36::octal_digits;

/// How many texts around a place are shown.
const MOST_SHOWN: u32 = 10;

/// What a sentence on a fault names.
#[derive(Clone, Copy)]
enum Told {
    /// Other words.
    Words(&'static str),
    /// A name, as the source has it.
    Name(Name),
    /// A character.
    Character(u8),
    /// A number in decimal.
    Decimal(i64),
    /// A number in octal, where it has 64 bits.
    Octal(Option<i64>),
    /// A place.
    Place(u32),
}

/// The sentence of a fault: words with what they name between them.
#[derive(Clone, Copy)]
struct Sentence(&'static str, Told, &'static str, Told, &'static str);

/// What is said of nothing more.
const NO_MORE: Told = Told::Words("");

/// The number that a fault says does not fit, and its limits, if it says that.
fn misfit_words(fault: Fault) -> Option<(Told, &'static str)> {
    let told = match fault {
        Fault::Accumulator(n) => (Told::Octal(Some(n)), "an accumulator is 0 to 17 (octal)"),
        Fault::Index(n) => (
            Told::Octal(Some(i64::from(n))),
            "an index register is 0 to 17 (octal)",
        ),
        Fault::Device(n) => (
            Told::Octal(Some(n)),
            "a device is 0 to 774 and a multiple of 4 (octal)",
        ),
        Fault::Half(n) => (
            Told::Octal(n),
            "a half or an address is -777777 to 777777 (octal)",
        ),
        Fault::NoWord(n) => (Told::Octal(n), "a word is -2^35 to 2^36-1"),
        Fault::BitNumber(n) => (Told::Decimal(n), "the bit behind B is 0 to 35 (decimal)"),
        Fault::ByteSize(n) => (Told::Decimal(n), "the size of a byte is 1 to 36 (decimal)"),
        Fault::PointSize(n) => (Told::Decimal(n), "POINT's size is 0 to 36 (decimal)"),
        Fault::PointBit(n) => (Told::Decimal(n), "POINT's bit is 0 to 35 (decimal)"),
        Fault::Radix(n) => (Told::Decimal(n), "a radix is 2 to 10 (decimal)"),
        Fault::PlaceRange(n) => (Told::Octal(Some(n)), "a place is 0 to 777777 (octal)"),
        Fault::BlockSize(n) => (Told::Octal(Some(n)), "BLOCK keeps 0 words or more"),
        Fault::BlockInLiteral(n) => (
            Told::Octal(Some(n)),
            "BLOCK in a literal keeps 1 to 1000000 words (octal)",
        ),
        Fault::Start(n) => (Told::Octal(Some(n)), "a start is 0 to 777777 (octal)"),
        _ => return None,
    };
    Some(told)
}

/// The name with which a fault's sentence begins in quotes, and the words behind it, if it begins so.
fn name_words(fault: Fault) -> Option<(Name, &'static str)> {
    match fault {
        Fault::NotDefined(name) => Some((name, " is not defined")),
        Fault::NotSearched(name) => Some((name, " is not defined: SEARCH UUOSYM defines it")),
        Fault::Refused(name) => Some((name, " is not an operation of this assembler")),
        Fault::Linking(name, _) => Some((name, ": there is one source and no linking")),
        Fault::Segments(name) => Some((name, ": there is one segment: write LOC")),
        Fault::Universal(name) => Some((name, ": there is one source; SEARCH UUOSYM is built in")),
        Fault::NoFile(name) => Some((
            name,
            " is no file here, and defines nothing: of those of SEARCH there is UUOSYM alone",
        )),
        Fault::Duplicate(name) | Fault::UseOfDuplicate(name) => {
            Some((name, " is defined more than once"))
        }
        Fault::OtherThing(name) => Some((name, " is a label, or defined as another thing")),
        Fault::TwoDummies(name) => Some((name, " is a dummy of this macro already")),
        Fault::OtherPlace(name) => Some((name, " has another place in the second pass")),
        _ => None,
    }
}

/// The words of a fault that has nothing to name, if it has nothing.
fn plain_words(fault: Fault) -> Option<&'static str> {
    match fault {
        Fault::NotAscii => Some("a byte that is not ASCII"),
        Fault::ExpectedAtEnd => Some("expected more before the end of the line"),
        Fault::NoAddress => {
            Some("this operation takes no address, and an accumulator has a comma after it")
        }
        Fault::Scaled => Some("^F and ^L are not here: write the word in octal"),
        Fault::FloatForm => {
            Some("a constant of floating point has a point between digits, as 1.0E5 has")
        }
        Fault::FloatTooLarge => Some(
            "a constant of floating point is too large: it is less than 2^127",
        ),
        Fault::FloatTooSmall => {
            Some("a constant of floating point is too small: it is 0, or 2^-129 or more")
        }
        Fault::Product => Some("a product does not fit a word"),
        Fault::Quotient => Some("a quotient by zero"),
        Fault::EmptyQuote => Some("one character at least is wanted between the quotes"),
        Fault::LongQuote(b'"') => Some("five characters are the most between \" and \""),
        Fault::LongQuote(_) => Some("six characters are the most between ' and '"),
        Fault::NoParenthesis => Some("no ) behind the arguments"),
        Fault::EmptyLiteral => Some("a literal gives at least one word"),
        Fault::StopiOutside => Some("STOPI stands in no IRP"),
        Fault::OtherPool => Some("the literals have another place in the second pass"),
        Fault::NoEnd => Some("no END"),
        _ => None,
    }
}

/// The sentence of a fault about a number or a character that is none of the others'.
fn value_sentence(fault: Fault) -> Sentence {
    let (before, told, behind) = match fault {
        Fault::Digits(number, 8) => (
            "\"",
            Told::Decimal(number),
            "\" is no number in octal, which numbers are unless RADIX, \"^D\" or a point says otherwise",
        ),
        Fault::Digits(number, 2) => ("\"", Told::Decimal(number), "\" is no number in binary"),
        Fault::Digits(number, _) => (
            "\"",
            Told::Decimal(number),
            "\" is no number of the radix that RADIX says",
        ),
        Fault::LongDigits(radix) => (
            "a digit that radix ",
            Told::Decimal(i64::from(radix)),
            " does not have",
        ),
        Fault::ExpectedNumberEnd(found) => (
            "expected the end of the number, not \"",
            Told::Character(found),
            "\"",
        ),
        Fault::Expected(found) => ("expected a value, not \"", Told::Character(found), "\""),
        Fault::ExpectedEnd(found) => (
            "expected the end of the statement, not \"",
            Told::Character(found),
            "\"",
        ),
        Fault::NoQuote(mark) => ("no ", Told::Character(mark), " behind the characters"),
        Fault::NoSixbit(character) => (
            "\"",
            Told::Character(character),
            "\" is a character that SIXBIT does not have",
        ),
        Fault::TwoWords(place) => ("place ", Told::Place(place), " has a word already"),
        Fault::Needs(name) => ("what ", Told::Name(name), " needs is not there"),
        Fault::LateValue(needs) => ("", Told::Name(needs), " needs its value in the first pass"),
        Fault::NotInLiteral(name) => ("", Told::Name(name), " is not possible in a literal"),
        Fault::IrpOutside(name) => (
            "",
            Told::Name(name),
            " needs a dummy argument of the macro around it",
        ),
        _ => ("", NO_MORE, ""),
    };
    Sentence(before, told, behind, NO_MORE, "")
}

/// The sentence of a fault that is none of the others'.
fn sentence_of(fault: Fault) -> Sentence {
    match fault {
        Fault::ByteValue(number, bits) => Sentence(
            "",
            Told::Octal(Some(number)),
            " does not fit a byte of size ",
            Told::Decimal(bits),
            " (decimal)",
        ),
        Fault::LeftOut(name, reason, _) => Sentence(
            "\"",
            Told::Name(name),
            "\" is not here: ",
            Told::Words(reason.words()),
            "",
        ),
        Fault::Late(needs, name) => Sentence(
            "",
            Told::Name(needs),
            " needs its value in the first pass: \"",
            Told::Name(name),
            "\" is not defined yet",
        ),
        Fault::NotOneWord(name, words) => Sentence(
            "one word is wanted here, and ",
            Told::Name(name),
            " gives ",
            Told::Decimal(i64::from(words)),
            "",
        ),
        Fault::OpenText(what, name) => Sentence(
            "no > for the < of ",
            Told::Name(what),
            if name.sixbit() == 0 { "" } else { " " },
            Told::Name(name),
            "",
        ),
        Fault::NoText(mark, name) => Sentence(
            "no second ",
            Told::Character(mark),
            " for the text of ",
            Told::Name(name),
            "",
        ),
        Fault::Limit(limit) => Sentence(
            "limit ",
            Told::Words(limit.name()),
            ": more than ",
            Told::Decimal(i64::from(limit.most())),
            "",
        ),
        other => value_sentence(other),
    }
}

/// Adds words.
fn push(out: &mut Vec<u8>, text: &str) -> Result<(), AllocError> {
    out.extend_from_slice(text.as_bytes())
}

/// Adds a character; one that does not print as a backslash and three octal digits, so that no source speaks to a terminal.
fn push_character(out: &mut Vec<u8>, character: u8) -> Result<(), AllocError> {
    if character == b' ' || character.is_ascii_graphic() {
        out.push(character)?;
        Ok(())
    } else {
        push_escaped(out, character)
    }
}

/// Adds a number in octal.
fn push_octal(out: &mut Vec<u8>, number: i64) -> Result<(), AllocError> {
    if number < 0 {
        out.push(b'-')?;
    }
    let digits = octal_digits::<22>(number.unsigned_abs());
    let zeros = match digits.iter().position(|digit| *digit != b'0') {
        Some(zeros) => zeros,
        None => 21,
    };
    out.extend_from_slice(digits.get(zeros..).unwrap_or(&[]))
}

/// Adds what a sentence names.
fn push_told(out: &mut Vec<u8>, told: Told, source: &[u8], line: u32) -> Result<(), AllocError> {
    match told {
        Told::Words(words) => push(out, words),
        Told::Name(name) => push_name(out, name, source, line),
        Told::Character(character) => push_character(out, character),
        Told::Decimal(number) => push_decimal(out, number),
        Told::Octal(Some(number)) => push_octal(out, number),
        Told::Octal(None) => push(out, "this value"),
        Told::Place(place) => out.extend_from_slice(&octal_digits::<6>(u64::from(place))),
    }
}

/// Adds the words of a fault on a line of a source, whose names it spells.
pub fn push_words(
    out: &mut Vec<u8>,
    fault: Fault,
    source: &[u8],
    line: u32,
) -> Result<(), AllocError> {
    if let Some(words) = plain_words(fault) {
        return push(out, words);
    }
    if let Some((number, words)) = misfit_words(fault) {
        push_told(out, number, source, line)?;
        push(out, " does not fit: ")?;
        return push(out, words);
    }
    if let Some((name, words)) = name_words(fault) {
        push(out, "\"")?;
        push_name(out, name, source, line)?;
        push(
            out,
            if matches!(&fault, Fault::Linking(_, true)) {
                "##\""
            } else {
                "\""
            },
        )?;
        return push(out, words);
    }
    let Sentence(before, one, between, other, behind) = sentence_of(fault);
    push(out, before)?;
    push_told(out, one, source, line)?;
    push(out, between)?;
    push_told(out, other, source, line)?;
    push(out, behind)
}

/// Adds the lines of the texts around a place, the innermost first; `outer` are those that the stream kept.
pub fn push_around_place(
    out: &mut Vec<u8>,
    place: Place,
    outer: &[Around],
    source: &[u8],
) -> Result<(), AllocError> {
    let mut around = place.around;
    for _ in 0..place.texts.min(MOST_SHOWN) {
        push(out, " in ")?;
        push_name(out, around.name, source, place.line)?;
        push(out, " line ")?;
        push_decimal(out, around.line)?;
        out.push(b'\n')?;
        around = outer.get(around.outer).copied().unwrap_or(around);
    }
    if place.texts > MOST_SHOWN {
        push(out, " and ")?;
        push_decimal(out, place.texts - MOST_SHOWN)?;
        push(out, " more\n")?;
    }
    Ok(())
}

/// Adds the lines of a fault of a source: `?MACRO line:column letter words`, and the texts around it, each with its line;
/// `outer` are the texts around places that the stream kept. If the line is one of a file of several, it is `file:line:column`, with
/// the name of the file and the number of the line in it.
pub fn push_report(
    out: &mut Vec<u8>,
    report: &Report,
    spot: Spot<'_>,
    outer: &[Around],
    source: &[u8],
) -> Result<(), AllocError> {
    let report = *report;
    push(out, "?MACRO ")?;
    if let Some(file) = spot.file {
        push(out, file)?;
        out.push(b':')?;
    }
    push_decimal(out, spot.line)?;
    out.push(b':')?;
    push_decimal(out, report.place.column)?;
    out.push(b' ')?;
    out.push(report.fault.letter())?;
    out.push(b' ')?;
    push_words(out, report.fault, source, report.place.line)?;
    out.push(b'\n')?;
    push_around_place(out, report.place, outer, source)
}
