//! Words packed in bytes.
ghost use Rattle.std.specs.Prelude.{◌≡◌, [], IfOk, flat_map};
ghost use Rattle.image_files.specs.Packings.{packed, dense_bytes, dense_pair, dense_last};
ghost use Rattle.image_files.specs.WordForms.{bytes_in};

use crate::packings::Packing;
use crate::word_forms::WordForm;
use std::alloc::{AllocError, Global};
use word36::Word;

/// The bytes of words, where each word has bytes of its own.
fn pack_each(alloc: Global, form: WordForm, words: &[Word]) -> Result<Vec<u8>, AllocError>
    ensures { IfOk result (λ bytes. bytes.items ≡ flat_map (bytes_in form) words.now) }
{
    let mut bytes = Vec::new(alloc);
    for word in words {
        form.push(&mut bytes, *word)?;
    }
    Ok(bytes)
}

/// The bytes of two words.
fn dense_pair(first: Word, second: Word) -> [u8; 9]
    ensures { result ≡ dense_pair first second [] }
{
    let left = first.number();
    let right = second.number();
    [
        (left >> 28) as u8,
        (left >> 20 & 255) as u8,
        (left >> 12 & 255) as u8,
        (left >> 4 & 255) as u8,
        ((left & 15) * 16 + (right >> 32)) as u8,
        (right >> 24 & 255) as u8,
        (right >> 16 & 255) as u8,
        (right >> 8 & 255) as u8,
        (right & 255) as u8,
    ]
}

/// The bytes of a last word alone.
fn dense_last(word: Word) -> [u8; 5]
    ensures { result ≡ dense_last word }
{
    let number = word.number();
    [
        (number >> 28) as u8,
        (number >> 20 & 255) as u8,
        (number >> 12 & 255) as u8,
        (number >> 4 & 255) as u8,
        ((number & 15) * 16) as u8,
    ]
}

/// The bytes of words, two and two.
fn pack_dense(alloc: Global, words: &[Word]) -> Result<Vec<u8>, AllocError>
    ensures { IfOk result (λ bytes. bytes.items ≡ dense_bytes words.now) }
{
    let mut bytes = Vec::new(alloc);
    let mut rest = words;
    while rest.len() > 1 {
        bytes.extend_from_slice(&dense_pair(rest[0], rest[1]))?;
        rest = &rest[2..];
    }
    if rest.len() == 1 {
        bytes.extend_from_slice(&dense_last(rest[0]))?;
        return Ok(bytes);
    }
    Ok(bytes)
}

/// The bytes of words, in a packing. `unpack` gives the words back.
#[tactic(auto, unfolding(crate::specs::Packings::packed))]
pub fn pack(alloc: Global, packing: Packing, words: &[Word]) -> Result<Vec<u8>, AllocError>
    ensures { IfOk result (λ bytes. bytes.items ≡ packed packing words.now) }
{
    match packing {
        Packing::CoreDump => pack_each(alloc, WordForm::CoreDump, words),
        Packing::HighDensity => pack_dense(alloc, words),
        Packing::AnsiAscii => pack_each(alloc, WordForm::AnsiAscii, words),
        Packing::Simh => pack_each(alloc, WordForm::Simh, words),
        Packing::Octal => pack_each(alloc, WordForm::Octal, words),
    }
}
