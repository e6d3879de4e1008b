//! What is wrong with a line.

use crate::characters::{Codes, sixbit_codes};
use crate::limits::Limit;
use crate::numbers::{LEAST_RADIX, MOST_RADIX, MOST_TIMES};
use ddt_breakpoints::BREAKPOINTS;
use std::fmt;
use word36::{ADDRESSES, JOBS, LINES, Word};

/// What is wrong with a line. It is written as `?` and the fault, or as `U` and an undefined symbol, without a line end.
#[derive(Clone, Copy, Drop)]
pub enum LineError {
    /// A symbol is not defined: its characters in SIXBIT, the first in the highest bits.
    Undefined(u64),
    /// A value is missing.
    NoValue,
    /// What stands before a point is no decimal number.
    NoDecimal,
    /// A value is beyond the limit of what it stands for.
    Beyond(Limit),
    /// Digits are no octal number.
    NoOctal,
    /// There is no such command behind `$`.
    NoEscape,
    /// The parenthesis behind an index register is not closed.
    NoParenthesis,
    /// Something stands behind a value.
    BehindValue,
    /// An address is above 777777.
    LargeAddress,
    /// A number is out of the range of its command: the least and the greatest.
    NoCount(u64, u64),
    /// A number is not that of a job.
    NoJob,
    /// A number is not that of a terminal line.
    NoLine,
    /// The name of a lock is missing.
    NoLock,
    /// The name of a file is missing.
    NoFile,
    /// There is no such command.
    NoCommand,
    /// A word that a person types who looks for the commands, as `help` and `quit`.
    AsksForHelp,
    /// A number is not that of a breakpoint.
    NoBreakpoint,
    /// The address of a breakpoint is missing.
    NoAddress,
    /// The number before `$` is out of the range of its command.
    NoTimes,
    /// The number behind TIMES is out of its range.
    NoVisits,
    /// What stands behind a breakpoint is no limit of one.
    NoLimit,
    /// What stands behind IF is no condition.
    NoCondition,
    /// The mask of a search is missing.
    NoMask,
    /// There is no such radix.
    NoRadix,
    /// Digits are no binary number.
    NoBinary,
    /// The letter after `^` is that of no radix.
    NoRadixLetter,
    /// Something is to be divided by 0.
    NoQuotient,
    /// The delimiter after a text is missing.
    NoDelimiter,
    /// A text has more characters than a word.
    LongText,
    /// A character is none of SIXBIT.
    NoSixbit,
    /// There is no such mode of texts.
    NoTextMode,
    /// Bytes of n bits are not shown.
    NoBytes,
    /// Symbols are neither made nor hidden.
    NoSymbols,
    /// `$:` is not here.
    NoTables,
    /// `$Y` is not here.
    NoPunch,
    /// `$Z` is not here.
    NoFilling,
    /// `a\` is not here.
    NoBackslash,
    /// The range of a search is turned round or has no end.
    NoRange,
    /// Something stands behind a command of one word.
    BehindCommand,
}

/// Writes that a number is out of the range of its command.
fn write_range<W: fmt::Write>(least: u64, most: u64, f: &mut fmt::Formatter<W>) -> fmt::Result {
    write!(
        f,
        "? a number from {least} to {most}, in decimal, is wanted"
    )
}

/// Writes the name of a symbol that is not defined.
fn write_undefined<W: fmt::Write>(name: u64, f: &mut fmt::Formatter<W>) -> fmt::Result {
    let codes = sixbit_codes(Word::low_bits(name));
    let name = Codes {
        codes: codes.trim_ascii_end(),
    };
    write!(f, "U {name}")
}

/// Writes the radix and the range of the numbers before `$P` and `$X` and behind TIMES.
fn write_times<W: fmt::Write>(before: &str, f: &mut fmt::Formatter<W>) -> fmt::Result {
    write!(
        f,
        "? {before} stands a number from 1 to {MOST_TIMES:o}, in octal; 20. is 20 in decimal"
    )
}

impl LineError {
    /// Its text, where that has no number.
    fn text(&self) -> &'static str {
        match *self {
            LineError::NoValue => {
                "? a value is wanted, as in 5 or LOOP+1; a text is typed as in \"/ABC/, a search as in 5$W"
            }
            LineError::NoDecimal =>
                "? a decimal number has digits from 0 to 9, and a point behind them",
            LineError::Beyond(limit) => limit.text(),
            LineError::NoOctal => {
                "? an octal number has digits from 0 to 7: 20. is 20 in decimal, and there is no floating point"
            }
            LineError::NoEscape => "? there is no such command of $: .HELP lists them",
            LineError::NoParenthesis => "? a closing parenthesis is wanted",
            LineError::BehindValue => {
                "? nothing may stand behind a value: .EX a-b shows words, a,,b is one of two halves, ' divides"
            }
            LineError::NoLock => "? a lock is named as in .BREAK LOCK A, or by its code as #17",
            LineError::NoFile => "? the name of a file is wanted",
            LineError::NoCommand => "? no such command: .HELP lists them",
            LineError::AsksForHelp => "? .HELP lists the commands, .QUIT ends the session",
            LineError::NoAddress => "? a place is wanted before $",
            LineError::NoLimit => {
                "? behind a breakpoint stand IF and a condition, TIMES and a number, or both in this order"
            }
            LineError::NoCondition => {
                "? a condition is a place, one of = <> < > <= >=, and a value, as in IF COUNT>5"
            }
            LineError::NoMask => "? a mask stands between < and >, as in 5<777>$W",
            LineError::NoBinary => "? ^B is followed by a number in binary",
            LineError::NoRadixLetter =>
                "? ^ is followed by D, O or B for decimal, octal or binary, as in ^D10",
            LineError::NoQuotient => "? nothing is divided by 0",
            LineError::NoDelimiter => {
                "? a text is between two characters of one kind, as in \"/ABCDE/; one character as in \"A\""
            }
            LineError::LongText => "? a word has at most 5 characters of ASCII, and 6 of SIXBIT",
            LineError::NoSixbit => "? a character of SIXBIT is one from blank to _",
            LineError::NoTextMode =>
                "? $T shows a word as text in ASCII and SIXBIT, $6T and $7T in one of them",
            LineError::NoBytes => "? bytes are not shown: $O shows words in octal, $nR in radix n",
            LineError::NoSymbols =>
                "? symbols are those of the source: none is made or hidden here",
            LineError::NoTables => "? .JOB n opens job n, whose symbols are those of its source",
            LineError::NoPunch => "? .DO file obeys the lines of a file, .SAVE file writes them",
            LineError::NoFilling => "? words are put one by one, as in LOOP/ 0",
            LineError::NoBackslash => "? a/ opens a place",
            LineError::NoRange => "? a search from a to b is typed as in 140<177>5$W",
            _ => "? nothing may stand behind this command",
        }
    }
}

impl fmt::Display for LineError {
    fn fmt<W: fmt::Write>(&self, f: &mut fmt::Formatter<W>) -> fmt::Result {
        match *self {
            LineError::Undefined(name) => write_undefined(name, f),
            LineError::NoCount(least, most) => write_range(least, most, f),
            LineError::LargeAddress => {
                let last = ADDRESSES - 1;
                write!(f, "? an address is 0 to {last:o}, in octal")
            }
            LineError::NoJob => write!(f, "? a job has a number from 1 to {JOBS}, in decimal"),
            LineError::NoLine => {
                let last = LINES - 1;
                write!(
                    f,
                    "? a terminal line has a number from 0 to {last}, in decimal"
                )
            }
            LineError::NoBreakpoint => {
                write!(
                    f,
                    "? a breakpoint has a number from 1 to {BREAKPOINTS}, in decimal"
                )
            }
            LineError::NoTimes => write_times(
                "before $P and $X, but for an instruction before $X,",
                f,
            ),
            LineError::NoVisits => write_times("behind TIMES", f),
            LineError::NoRadix => {
                write!(f, "? a radix is {LEAST_RADIX} to {MOST_RADIX}, in decimal")
            }
            _ => f.write_str(self.text()),
        }
    }
}
