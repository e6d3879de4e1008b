//! Words read from bytes that they were packed in.
ghost use Rattle.std.specs.Prelude.{◌≡◌, ◌+◌, ◌<◌, length, vec_len};
ghost use Rattle.image_files.specs.Packings.{unpacked, dense_words, second_word};
ghost use Rattle.image_files.specs.Unpacks.{Unpacks, with_words};
ghost use Rattle.image_files.specs.WordForms.{numbered_words};

use crate::packings::{PackError, PackErrorKind, Packing};
use crate::word_forms::{WordForm, five_bytes};
use std::alloc::Global;
use word36::Word;

/// The words of bytes, where each word has bytes of its own, or the first word whose bytes are at fault.
fn unpack_each(alloc: Global, form: WordForm, bytes: &[u8]) -> Result<Vec<Word>, PackError>
    ensures { Unpacks result (numbered_words form 1 bytes.now) }
{
    let size = form.size();
    let mut words = Vec::new(alloc);
    let mut rest = bytes;
    while !rest.is_empty() {
        let number = words.len() + 1;
        if rest.len() < size {
            return Err(PackError::Word {
                number,
                kind: PackErrorKind::CutShort,
            });
        }
        let Some(word) = form.read(rest) else {
            return Err(PackError::Word {
                number,
                kind: form.fault(),
            });
        };
        words.push(word)?;
        rest = &rest[size..];
    }
    Ok(words)
}

/// The second word of nine bytes: the low 4 bits of the fifth, and the four behind it.
fn second_word(e: u8, f: u8, g: u8, h: u8, i: u8) -> Word
    ensures { result ≡ second_word e f g h i }
{
    Word::new(
        u64::from(e % 16) * (1 << 32)
            + u64::from(f) * (1 << 24)
            + u64::from(g) * (1 << 16)
            + u64::from(h) * (1 << 8)
            + u64::from(i),
    )
}

/// Adds the last word of high density, at fewer than nine bytes: none where there are no bytes.
fn dense_end(mut words: Vec<Word>, rest: &[u8]) -> Result<Vec<Word>, PackError>
    requires { length rest.now < 9 }
    ensures { Unpacks result (with_words words.items (dense_words (vec_len words + 1) rest.now)) }
{
    let number = words.len() + 1;
    if rest.is_empty() {
        return Ok(words);
    }
    if rest.len() < 5 {
        return Err(PackError::Word {
            number,
            kind: PackErrorKind::CutShort,
        });
    }
    // five bytes hold the first of two words
    if rest.len() > 5 {
        return Err(PackError::Word {
            number: number + 1,
            kind: PackErrorKind::CutShort,
        });
    }
    if rest[4] % 16 != 0 {
        return Err(PackError::Word {
            number,
            kind: PackErrorKind::ExtraBits,
        });
    }
    words.push(five_bytes(rest[0], rest[1], rest[2], rest[3], rest[4] / 16))?;
    Ok(words)
}

fn unpack_dense(alloc: Global, bytes: &[u8]) -> Result<Vec<Word>, PackError>
    ensures { Unpacks result (dense_words 1 bytes.now) }
{
    let mut words = Vec::new(alloc);
    let mut rest = bytes;
    while rest.len() >= 9 {
        words.push(five_bytes(rest[0], rest[1], rest[2], rest[3], rest[4] / 16))?;
        words.push(second_word(rest[4], rest[5], rest[6], rest[7], rest[8]))?;
        rest = &rest[9..];
    }
    dense_end(words, rest)
}

/// The words of bytes, in a packing, or the first word whose bytes are at fault. `pack` gives the
/// bytes back.
#[tactic(auto, unfolding(crate::specs::Packings::unpacked))]
pub fn unpack(alloc: Global, packing: Packing, bytes: &[u8]) -> Result<Vec<Word>, PackError>
    ensures { Unpacks result (unpacked packing bytes.now) }
{
    match packing {
        Packing::CoreDump => unpack_each(alloc, WordForm::CoreDump, bytes),
        Packing::HighDensity => unpack_dense(alloc, bytes),
        Packing::AnsiAscii => unpack_each(alloc, WordForm::AnsiAscii, bytes),
        Packing::Simh => unpack_each(alloc, WordForm::Simh, bytes),
        Packing::Octal => unpack_each(alloc, WordForm::Octal, bytes),
    }
}
