//! Words as text: a line a word, its two halves in octal.
ghost use Rattle.std.specs.Prelude.{◌≡◌, ◌+◌, ◌≤◌, ◌<◌, ◌^◌, ◌++◌, OnOk, length};
ghost use Rattle.image_files.specs.Packings.{are_marks, are_octal_digits, half_value, is_octal_digit, octal_bytes};
ghost use Rattle.image_files.specs.WordForms.{begins_with_line, digits_at, half_at, line_value, word_in};
ghost use Rattle.image_files.specs.declared.word_forms.WordForm.TheVariants as forms;

use script_io::push_word;
use std::alloc::AllocError;
use word36::Word;

/// The characters of a line: six digits, two commas, six digits and a line feed.
pub(crate) const LINE: usize = 15;

/// Adds the line of a word.
#[tactic(auto, using(std::proofs::Common::append_assoc))]
pub(crate) fn push_line(text: &mut Vec<u8>, word: Word) -> Result<(), AllocError>
    ensures { OnOk result (text.new.items ≡ text.old.items ++ octal_bytes word) }
{
    push_word(text, word)?;
    text.push(b'\n')?;
    Ok(())
}

/// Whether a character is an octal digit.
fn is_digit(character: u8) -> bool
    ensures { result ≡ is_octal_digit character }
{
    character >= b'0' && character < b'8'
}

/// Whether six characters from a position on are octal digits.
fn digits_at(line: &[u8], at: usize) -> bool
    requires { at + 6 ≤ length line.now }
    ensures { result ≡ digits_at line.now at }
{
    is_digit(line[at])
        && is_digit(line[at + 1])
        && is_digit(line[at + 2])
        && is_digit(line[at + 3])
        && is_digit(line[at + 4])
        && is_digit(line[at + 5])
}

/// The half of a word whose six digits stand from a position on.
fn half_at(line: &[u8], at: usize) -> u32
    requires { at + 6 ≤ length line.now }
    ensures value { result ≡ half_at line.now at }
    ensures small { result < 2 ^ 18 }
{
    ((((u32::from(line[at] % 8) * 8 + u32::from(line[at + 1] % 8)) * 8
        + u32::from(line[at + 2] % 8))
        * 8
        + u32::from(line[at + 3] % 8))
        * 8
        + u32::from(line[at + 4] % 8))
        * 8
        + u32::from(line[at + 5] % 8)
}

/// Whether bytes begin with the line of a word.
fn begins_with_line(bytes: &[u8]) -> bool
    requires { 15 ≤ length bytes.now }
    ensures { result ≡ begins_with_line bytes.now }
{
    digits_at(bytes, 0)
        && digits_at(bytes, 8)
        && bytes[6] == b','
        && bytes[7] == b','
        && bytes[14] == b'\n'
}

/// The word of the line that bytes begin with.
fn line_value(bytes: &[u8]) -> Word
    requires { 15 ≤ length bytes.now }
    ensures { result ≡ line_value bytes.now }
{
    Word::join(half_at(bytes, 0), half_at(bytes, 8))
}

/// The word of the line that bytes begin with, where they begin with one.
pub(crate) fn read_line(bytes: &[u8]) -> Option<Word>
    requires { 15 ≤ length bytes.now }
    ensures { result ≡ word_in forms.Octal bytes.now }
{
    if !begins_with_line(bytes) {
        return None;
    }
    Some(line_value(bytes))
}
