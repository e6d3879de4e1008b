//! The packings in which each word has bytes of its own.
ghost use Rattle.std.specs.Prelude.{◌≡◌, ◌≤◌, ◌<◌, ◌++◌, length, OnOk};
ghost use Rattle.image_files.specs.Packings.{core_bytes, ascii_bytes, simh_bytes, five_bytes, ascii_value};
ghost use Rattle.image_files.specs.Packings.{are_characters, simh_value, is_simh};
ghost use Rattle.image_files.specs.WordForms.{bytes_in, fault_in, size_in, word_in};
ghost use Rattle.image_files.specs.declared.word_forms.WordForm.TheVariants as forms;

use crate::octal_lines::{LINE, push_line, read_line};
use crate::packings::PackErrorKind;
use std::alloc::AllocError;
use word36::Word;

/// A packing in which each word has bytes of its own, and each word as many.
#[derive(Clone, Copy)]
pub(crate) enum WordForm {
    /// "Core dump".
    CoreDump,
    /// "ANSI-ASCII".
    AnsiAscii,
    /// As SIMH keeps words.
    Simh,
    /// A line in octal.
    Octal,
}

impl WordForm {
    /// How many bytes a word has.
    pub(crate) fn size(self) -> usize
        ensures { result ≡ size_in self }
    {
        match self {
            WordForm::CoreDump | WordForm::AnsiAscii => 5,
            WordForm::Simh => 8,
            WordForm::Octal => LINE,
        }
    }

    /// What is wrong with as many bytes that are not those of a word.
    pub(crate) fn fault(self) -> PackErrorKind
        ensures { result ≡ fault_in self }
    {
        match self {
            WordForm::CoreDump | WordForm::AnsiAscii | WordForm::Simh => PackErrorKind::ExtraBits,
            WordForm::Octal => PackErrorKind::NotOctal,
        }
    }

    /// The word that bytes begin with, where they begin with the bytes of one.
    pub(crate) fn read(self, bytes: &[u8]) -> Option<Word>
        requires { size_in self ≤ length bytes.now }
        ensures { result ≡ word_in self bytes.now }
    {
        match self {
            WordForm::CoreDump => read_core(bytes),
            WordForm::AnsiAscii => read_ascii(bytes),
            WordForm::Simh => read_simh(bytes),
            WordForm::Octal => read_line(bytes),
        }
    }

    /// Adds the bytes of a word.
    pub(crate) fn push(self, bytes: &mut Vec<u8>, word: Word) -> Result<(), AllocError>
        ensures { OnOk result (bytes.new.items ≡ bytes.old.items ++ bytes_in self word) }
    {
        match self {
            WordForm::CoreDump => bytes.extend_from_slice(&core_bytes(word))?,
            WordForm::AnsiAscii => bytes.extend_from_slice(&ascii_bytes(word))?,
            WordForm::Simh => bytes.extend_from_slice(&simh_bytes(word))?,
            WordForm::Octal => return push_line(bytes, word),
        }
        Ok(())
    }
}

/// The word of four bytes of 8 bits and its last 4 bits.
pub(crate) fn five_bytes(a: u8, b: u8, c: u8, d: u8, last: u8) -> Word
    requires { last < 16 }
    ensures { result ≡ five_bytes a b c d last }
{
    Word::new(
        u64::from(a) * (1 << 28)
            + u64::from(b) * (1 << 20)
            + u64::from(c) * (1 << 12)
            + u64::from(d) * (1 << 4)
            + u64::from(last),
    )
}

/// The word of a core dump that bytes begin with.
fn read_core(bytes: &[u8]) -> Option<Word>
    requires { 5 ≤ length bytes.now }
    ensures { result ≡ word_in forms.CoreDump bytes.now }
{
    if bytes[4] >= 16 {
        return None;
    }
    Some(five_bytes(bytes[0], bytes[1], bytes[2], bytes[3], bytes[4]))
}

/// Four bytes of 8 bits from the left, and one of the last 4 bits.
fn core_bytes(word: Word) -> [u8; 5]
    ensures { result ≡ core_bytes word }
{
    let number = word.number();
    [
        (number >> 28) as u8,
        (number >> 20 & 255) as u8,
        (number >> 12 & 255) as u8,
        (number >> 4 & 255) as u8,
        (number & 15) as u8,
    ]
}

/// Whether four bytes are 7-bit characters.
fn are_characters(a: u8, b: u8, c: u8, d: u8) -> bool
    ensures { result ≡ are_characters a b c d }
{
    a < 128 && b < 128 && c < 128 && d < 128
}

/// The word of four 7-bit characters, and of a fifth with bit 35 at its top.
fn ascii_value(a: u8, b: u8, c: u8, d: u8, e: u8) -> Word
    requires a { a < 128 }
    requires b { b < 128 }
    requires c { c < 128 }
    requires d { d < 128 }
    ensures { result ≡ ascii_value a b c d e }
{
    Word::new(
        u64::from(a) * (1 << 29)
            + u64::from(b) * (1 << 22)
            + u64::from(c) * (1 << 15)
            + u64::from(d) * (1 << 8)
            + u64::from(e % 128) * 2
            + u64::from(e / 128),
    )
}

/// The word in ANSI-ASCII that bytes begin with.
fn read_ascii(bytes: &[u8]) -> Option<Word>
    requires { 5 ≤ length bytes.now }
    ensures { result ≡ word_in forms.AnsiAscii bytes.now }
{
    if !are_characters(bytes[0], bytes[1], bytes[2], bytes[3]) {
        return None;
    }
    Some(ascii_value(bytes[0], bytes[1], bytes[2], bytes[3], bytes[4]))
}

/// Five characters of 7 bits, and bit 35 in the top bit of the last.
fn ascii_bytes(word: Word) -> [u8; 5]
    ensures { result ≡ ascii_bytes word }
{
    let number = word.number();
    [
        (number >> 29) as u8,
        (number >> 22 & 127) as u8,
        (number >> 15 & 127) as u8,
        (number >> 8 & 127) as u8,
        ((number & 1) * 128 + (number >> 1 & 127)) as u8,
    ]
}

/// Whether the high four of eight bytes leave the bits above 36 at 0.
fn is_simh(e: u8, f: u8, g: u8, h: u8) -> bool
    ensures { result ≡ is_simh e f g h }
{
    e < 16 && f == 0 && g == 0 && h == 0
}

/// The word of five bytes, the lowest first.
fn simh_value(a: u8, b: u8, c: u8, d: u8, e: u8) -> Word
    requires { e < 16 }
    ensures { result ≡ simh_value a b c d e }
{
    Word::new(
        u64::from(e) * (1 << 32)
            + u64::from(d) * (1 << 24)
            + u64::from(c) * (1 << 16)
            + u64::from(b) * (1 << 8)
            + u64::from(a),
    )
}

/// The word as SIMH keeps it that bytes begin with.
fn read_simh(bytes: &[u8]) -> Option<Word>
    requires { 8 ≤ length bytes.now }
    ensures { result ≡ word_in forms.Simh bytes.now }
{
    if !is_simh(bytes[4], bytes[5], bytes[6], bytes[7]) {
        return None;
    }
    Some(simh_value(bytes[0], bytes[1], bytes[2], bytes[3], bytes[4]))
}

/// Eight bytes, the lowest first.
fn simh_bytes(word: Word) -> [u8; 8]
    ensures { result ≡ simh_bytes word }
{
    let number = word.number();
    [
        (number & 255) as u8,
        (number >> 8 & 255) as u8,
        (number >> 16 & 255) as u8,
        (number >> 24 & 255) as u8,
        (number >> 32) as u8,
        0,
        0,
        0,
    ]
}
