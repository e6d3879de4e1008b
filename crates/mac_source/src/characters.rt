//! The text of words.
ghost use Rattle.std.specs.Prelude.{◌≡◌, ◌<◌, ◌≤◌, ◌%◌, ◌^◌, ◌++◌, ◌==◌, ◌&&◌};
ghost use Rattle.std.specs.Prelude.{IfOk, None, OnOk, Some, length, slice_index, take, if◌then◌else◌};
ghost use Rattle.std.specs.List.{list_all};
ghost use Rattle.mac_asm.specs.Packing.{ascii_word};
ghost use Rattle.mac_source.specs.Notes.{ascii_text};
ghost use Rattle.mac_source.specs.Pieces.{before_zero, is_end, is_full, is_text_character, reads_as_text, text_in};

use crate::notes::ascii_text;
use std::alloc::{AllocError, Global};
use std::marker::Model;
use word36::Word;

/// The characters of a text, which grows at its beginning.
#[derive(Debug, Drop)]
pub struct Characters {
    /// The characters from the last to the first.
    reversed: Vec<u8>,
}

impl Model for Characters {
    ghost use Rattle.std.specs.Prelude.{ℕ, List, reverse};

    ghost Value = { List ℕ };

    ghost view = { λ s. reverse s.reversed.items };
}

impl Characters {
    /// The characters of a text.
    pub fn of(alloc: Global, text: &[u8]) -> Result<Self, AllocError>
        ensures { IfOk result (λ s. s ≡ text.now) }
    {
        let mut reversed = Vec::from_slice(alloc, text)?;
        reversed.reverse();
        Ok(Characters { reversed })
    }

    /// Puts the five characters of a word before them.
    pub fn put_before(&mut self, word: Word) -> Result<(), AllocError>
        ensures { OnOk result (self.new ≡ ascii_text word ++ self.old) }
    {
        let [first, second, third, fourth, fifth] = ascii_text(word);
        self.reversed
            .extend_from_slice(&[fifth, fourth, third, second, first])?;
        Ok(())
    }

    /// The characters in order.
    pub fn in_order(&self, alloc: Global) -> Result<Vec<u8>, AllocError>
        ensures { IfOk result (λ text. text.items ≡ self.now) }
    {
        let mut text = Vec::from_slice(alloc, self.reversed.as_slice())?;
        text.reverse();
        Ok(text)
    }

    /// How many characters there are.
    pub fn len(&self) -> usize
        ensures { result ≡ length self.now }
    {
        self.reversed.len()
    }
}

/// Whether a character may stand in a text, from space to `}`.
fn is_text_character(character: u8) -> bool
    ensures { result ≡ is_text_character character }
{
    (32..126).contains(&character)
}

/// Whether all characters may stand in a text.
fn are_text(text: &[u8]) -> bool
    ensures { result ≡ list_all is_text_character text.now }
{
    text.iter().all(|character| is_text_character(*character))
}

/// How many characters stand before the first zero character.
pub fn text_length(characters: &[u8; 5]) -> usize
    ensures few { result ≤ 5 }
    ensures text { take result characters.now ≡ before_zero characters.now }
{
    if characters[0] == 0 {
        0
    } else if characters[1] == 0 {
        1
    } else if characters[2] == 0 {
        2
    } else if characters[3] == 0 {
        3
    } else if characters[4] == 0 {
        4
    } else {
        5
    }
}

/// A character of a text as a number of 7 bits; 0 behind its end.
fn bits_at(text: &[u8], at: usize) -> u64
    ensures value { result ≡ slice_index text.now at % 128 }
    ensures small { result < 128 }
{
    match text.get(at) {
        Some(character) => u64::from(*character) % 128,
        None => 0,
    }
}

/// The word of the first five characters of a text.
pub fn packed(text: &[u8]) -> u64
    ensures value { result ≡ ascii_word text.now 0 }
    ensures small { result < 2 ^ 36 }
{
    bits_at(text, 0) * (1 << 29)
        + bits_at(text, 1) * (1 << 22)
        + bits_at(text, 2) * (1 << 15)
        + bits_at(text, 3) * (1 << 8)
        + bits_at(text, 4) * 2
}

/// How many characters of a text a word has, where it has zero characters behind them and nothing else; none for other words.
fn text_of_word(word: Word) -> Option<usize>
    ensures { result ≡ if reads_as_text word then Some (length (text_in word)) else None }
{
    let characters = ascii_text(word);
    let text = &characters[..text_length(&characters)];
    if are_text(text) && packed(text) == word.number() {
        Some(text.len())
    } else {
        None
    }
}

/// Whether a word is five characters of a text.
pub fn is_full(word: Word) -> bool
    ensures { result ≡ is_full word }
{
    text_of_word(word) == Some(5)
}

/// Whether a word is a text with a zero character behind it.
pub fn is_end(word: Word) -> bool
    ensures { result ≡ is_end word }
{
    match text_of_word(word) {
        Some(length) => length < 5,
        None => false,
    }
}

/// Whether a word is a text of four characters with a zero character behind it.
pub fn is_text_alone(word: Word) -> bool
    ensures { result ≡ (is_end word && length (text_in word) == 4) }
{
    text_of_word(word) == Some(4)
}

/// The text of a word.
pub fn characters_in(alloc: Global, word: Word) -> Result<Characters, AllocError>
    ensures { IfOk result (λ s. s ≡ text_in word) }
{
    let characters = ascii_text(word);
    Characters::of(alloc, &characters[..text_length(&characters)])
}
