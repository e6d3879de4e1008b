//! Texts as values: `"/ABCDE/` in ASCII, `$"/ABCDEF/` in SIXBIT, and one character as in `"A"` or `"A$`.
ghost use Rattle.std.specs.Prelude.{◌≡◌, ◌<◌, ◌^◌, IfSome, is_some, drop, slice_index};
ghost use Rattle.ddt_commands.specs.Values.{Gives, ascii_at, ascii_text, ascii_word, delimited, in_sixbit, is_one, sixbit_of, sixbit_text, upper_at};

use crate::line_errors::LineError;
use crate::reader::{cut_at, is_escape};
use word36::{Word, sixbit};

/// How many characters of ASCII a word has.
const ASCII_CHARACTERS: usize = 5;

/// How many characters of SIXBIT a word has.
const SIXBIT_CHARACTERS: usize = 6;

/// The one character that a text has, and the rest: `A"` or `A$`, after the quotation mark that begins it.
fn one_character(text: &[u8]) -> Option<(u8, &[u8])>
    ensures one { is_some result ≡ is_one text.now }
    ensures character { IfSome result (λ parts. parts.0 ≡ slice_index text.now 0) }
    ensures rest { IfSome result (λ parts. parts.1.now ≡ drop 2 text.now) }
{
    match text {
        [first, end, rest @ ..] if *first != *end && (*end == b'"' || is_escape(*end)) => {
            Some((*first, rest))
        }
        _ => None,
    }
}

/// The characters up to the delimiter, which is first and once more after them, and the rest.
fn delimited(text: &[u8]) -> Result<(&[u8], &[u8]), LineError>
    ensures { Gives (λ parts. (parts.0.now, parts.1.now)) result (delimited text.now) }
{
    match text {
        [delimiter, rest @ ..] => match cut_at(rest, *delimiter) {
            Some(parts) => Ok(parts),
            None => Err(LineError::NoDelimiter),
        },
        [] => Err(LineError::NoDelimiter),
    }
}

/// The low seven bits of the character at a position; 0 where there is none.
fn ascii_at(characters: &[u8], position: usize) -> u64
    ensures value { result ≡ ascii_at characters.now position }
    ensures below { result < 128 }
{
    match characters.get(position) {
        Some(character) => u64::from(*character % 128),
        None => 0,
    }
}

/// The word that has at most five characters in ASCII from its left.
fn ascii_word(characters: &[u8]) -> u64
    ensures value { result ≡ ascii_word characters.now }
    ensures below { result < 2 ^ 36 }
{
    let first = ascii_at(characters, 0) * 128 + ascii_at(characters, 1);
    let second = first * 128 + ascii_at(characters, 2);
    let third = second * 128 + ascii_at(characters, 3);
    (third * 128 + ascii_at(characters, 4)) * 2
}

/// A text in ASCII, five characters a word from its left, or one at its right end as in `"A"`; and the rest. The
/// quotation mark that begins it is passed already.
pub fn ascii_text(text: &[u8]) -> Result<(i64, &[u8]), LineError>
    ensures { Gives (λ parts. (parts.0, parts.1.now)) result (ascii_text text.now) }
{
    if let Some((character, rest)) = one_character(text) {
        return Ok((i64::from(character % 128), rest));
    }
    match delimited(text) {
        Ok((characters, _)) if characters.len() > ASCII_CHARACTERS => Err(LineError::LongText),
        Ok((characters, rest)) => Ok((ascii_word(characters) as i64, rest)),
        Err(error) => Err(error),
    }
}

/// The character at a position in upper case; a blank where there is none.
fn upper_at(characters: &[u8], position: usize) -> u8
    ensures { result ≡ upper_at characters.now position }
{
    match characters.get(position) {
        Some(character) => character.to_ascii_uppercase(),
        None => b' ',
    }
}

/// The word that has at most six characters in SIXBIT from its left, letters in upper case.
fn sixbit_word(characters: &[u8]) -> Result<Word, LineError>
    ensures { result ≡ in_sixbit (sixbit_of characters.now) }
{
    let upper = [
        upper_at(characters, 0),
        upper_at(characters, 1),
        upper_at(characters, 2),
        upper_at(characters, 3),
        upper_at(characters, 4),
        upper_at(characters, 5),
    ];
    match sixbit(&upper) {
        Some(word) => Ok(word),
        None => Err(LineError::NoSixbit),
    }
}

/// A text in SIXBIT, six characters a word from its left, or one at its right end as in `$"A"`; and the rest. `$"`,
/// which begins it, is passed already.
pub fn sixbit_text(text: &[u8]) -> Result<(i64, &[u8]), LineError>
    ensures { Gives (λ parts. (parts.0, parts.1.now)) result (sixbit_text text.now) }
{
    if let Some((character, rest)) = one_character(text) {
        return match sixbit_word(&[character]) {
            Ok(word) => Ok((i64::from(word.left() / 4096), rest)),
            Err(error) => Err(error),
        };
    }
    match delimited(text) {
        Ok((characters, _)) if characters.len() > SIXBIT_CHARACTERS => Err(LineError::LongText),
        Ok((characters, rest)) => match sixbit_word(characters) {
            Ok(word) => Ok((word.number() as i64, rest)),
            Err(error) => Err(error),
        },
        Err(error) => Err(error),
    }
}
