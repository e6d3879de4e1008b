//! Words, in each mode in which they are shown.

ghost use Rattle.std.specs.Prelude.{◌≡◌, ◌++◌, ◌∷◌, ◌<◌, ◌≤◌, [], codes, drop, length, string_bytes, true, IfOk, IfSome, if◌then◌else◌};
ghost use Rattle.std.specs.Fmt.{DisplaysOnOk, WritesOnOk, digit_glyph, digits};
ghost use Rattle.std.specs.Int.{is_negative};
ghost use Rattle.ddt_commands.specs.Characters.{ascii_codes, sixbit_codes};
ghost use Rattle.ddt_show.specs.Words.{change_words, halves_words, marked, octal_or_none};
ghost use Rattle.ddt_show.specs.Words.{point_words, radix_words, shown_word, signed_words};

use crate::addresses::ShownJob;
use ddt_commands::{Codes, OutputMode, ascii_codes, sixbit_codes};
use run_notes::{InstructionText, Reference};
use source_labels::Places;
use std::alloc::{AllocError, Global};
use std::fmt;
use word36::Word;

/// A word as it is shown: as an instruction with labels, in octal, as text, as two halves, or as a signed number of a radix.
#[derive(Clone, Copy)]
pub struct WordText<'a> {
    /// Where the labels and the literals of the program stand.
    pub places: &'a Places,
    /// The word.
    pub word: Word,
    /// The mode in which it is shown.
    pub mode: OutputMode,
}

/// Writes five characters of ASCII between quotation marks, and six of SIXBIT between apostrophes.
fn write_text<W: fmt::Write>(word: Word, f: &mut fmt::Formatter<W>) -> fmt::Result
    ensures { WritesOnOk W.write_str_gives f.old result
        (codes "ASCII " ++ (marked 34 (ascii_codes word) ++ (codes ", SIXBIT " ++ marked 39 (sixbit_codes word)))) f.new }
{
    let ascii = Codes {
        codes: &ascii_codes(word),
    };
    let sixbit = Codes {
        codes: &sixbit_codes(word),
    };
    write!(f, "ASCII \"{ascii}\", SIXBIT '{sixbit}'")
}

/// Writes characters between quotation marks.
fn write_ascii<W: fmt::Write>(word: Word, f: &mut fmt::Formatter<W>) -> fmt::Result
    ensures { WritesOnOk W.write_str_gives f.old result (marked 34 (ascii_codes word)) f.new }
{
    let codes = Codes {
        codes: &ascii_codes(word),
    };
    write!(f, "\"{codes}\"")
}

/// Writes characters between apostrophes.
fn write_sixbit<W: fmt::Write>(word: Word, f: &mut fmt::Formatter<W>) -> fmt::Result
    ensures { WritesOnOk W.write_str_gives f.old result (marked 39 (sixbit_codes word)) f.new }
{
    let codes = Codes {
        codes: &sixbit_codes(word),
    };
    write!(f, "'{codes}'")
}

/// Writes the two halves of a word, each as an address.
fn write_halves<W: fmt::Write>(
    places: &Places,
    word: Word,
    f: &mut fmt::Formatter<W>,
) -> fmt::Result
    ensures { WritesOnOk W.write_str_gives f.old result (halves_words places.now word) f.new }
{
    let left = Reference {
        places,
        address: word.left(),
    };
    let right = Reference {
        places,
        address: word.right(),
    };
    write!(f, "{left},,{right}")
}

/// The digit of a value.
fn digit(value: u64) -> u8
    requires { value < 16 }
    ensures { result ≡ digit_glyph true value }
{
    let value = value as u8;
    if value < 10 {
        b'0' + value
    } else {
        b'A' + (value - 10)
    }
}

/// How many digits a number has at most, in radix 2.
const DIGITS: usize = 64;

/// The digits of a number in a radix, at the end of some room, and the position of the first.
fn digits_of(number: u64, radix: u64) -> ([u8; DIGITS], usize)
    requires least { 2 ≤ radix }
    requires most { radix ≤ 16 }
    ensures within { result.1 ≤ 64 }
    ensures size { length result.0 ≡ 64 }
    ensures digits { drop result.1 result.0 ≡ digits radix true number }
{
    let mut left = number;
    let mut room = [b'0'; DIGITS];
    for count in 0..DIGITS {
        let position = DIGITS - 1 - count;
        room[position] = digit(left % radix);
        left /= radix;
        if left == 0 {
            return (room, position);
        }
    }
    (room, 0)
}

/// Writes a number in a radix.
fn write_digits<W: fmt::Write>(number: u64, radix: u8, f: &mut fmt::Formatter<W>) -> fmt::Result
    requires least { 2 ≤ radix }
    requires most { radix ≤ 16 }
    ensures { WritesOnOk W.write_str_gives f.old result (digits radix true number) f.new }
{
    let (room, first) = digits_of(number, u64::from(radix));
    let digits = Codes {
        codes: &room[first..],
    };
    write!(f, "{digits}")
}

/// The sign of a number.
fn sign_of(value: i64) -> &'static str
    ensures { result.now ≡ (if is_negative value then codes "-" else []) }
{
    if value.is_negative() { "-" } else { "" }
}

/// The point after a decimal number.
fn point_of(radix: u8) -> &'static str
    ensures { result.now ≡ point_words radix }
{
    if radix == 10 { "." } else { "" }
}

/// Writes a word as a signed number of a radix, with a point after a decimal one.
fn write_signed<W: fmt::Write>(word: Word, radix: u8, f: &mut fmt::Formatter<W>) -> fmt::Result
    requires least { 2 ≤ radix }
    requires most { radix ≤ 16 }
    ensures { WritesOnOk W.write_str_gives f.old result (signed_words radix word) f.new }
{
    let value = word.signed();
    f.write_str(sign_of(value))?;
    write_digits(value.unsigned_abs(), radix, f)?;
    f.write_str(point_of(radix))
}

/// Writes a word as a signed number of a radix, 2 to 16; nothing for another radix.
fn write_radix<W: fmt::Write>(word: Word, radix: u8, f: &mut fmt::Formatter<W>) -> fmt::Result
    ensures { DisplaysOnOk W.write_str_gives f.old result (radix_words radix word) f.new }
{
    if 2 <= radix && radix <= 16 {
        write_signed(word, radix, f)
    } else {
        Ok(())
    }
}

impl fmt::Display for WordText<'_> {
    ghost output = { λ t. shown_word t.places.now t.mode t.word };

    fn fmt<W: fmt::Write>(&self, f: &mut fmt::Formatter<W>) -> fmt::Result {
        match self.mode {
            OutputMode::Symbolic => {
                let text = InstructionText {
                    places: self.places,
                    word: self.word,
                };
                text.fmt(f)
            }
            OutputMode::Octal => self.word.fmt(f),
            OutputMode::Text => write_text(self.word, f),
            OutputMode::Ascii => write_ascii(self.word, f),
            OutputMode::Sixbit => write_sixbit(self.word, f),
            OutputMode::Halves => write_halves(self.places, self.word, f),
            OutputMode::Radix(radix) => write_radix(self.word, radix, f),
        }
    }
}

/// The line on a word.
pub fn word_line(
    alloc: Global,
    job: &ShownJob,
    word: Word,
    mode: OutputMode,
) -> Result<String, AllocError>
    ensures { IfOk result (λ line. IfSome (shown_word job.now.places mode word) (λ text. string_bytes line ≡ text ++ (10 ∷ []))) }
{
    let text = WordText {
        places: &job.places,
        word,
        mode,
    };
    format!(in alloc; "{text}\n")
}

/// A word in octal, or `no word`.
fn octal_text(alloc: Global, word: Option<Word>) -> Result<String, AllocError>
    ensures { IfOk result (λ text. string_bytes text ≡ octal_or_none word) }
{
    match word {
        Some(word) => format!(in alloc; "{word}"),
        None => String::from_str(alloc, "no word"),
    }
}

/// What a word was and is: ` was 0, is 1, changed`, each in octal with two halves.
pub fn change_text(alloc: Global, was: Option<Word>, is: Option<Word>) -> Result<String, AllocError>
    ensures { IfOk result (λ text. string_bytes text ≡ change_words was is) }
{
    let was = octal_text(alloc, was)?;
    let is = octal_text(alloc, is)?;
    format!(in alloc; " was {was}, is {is}, changed")
}
