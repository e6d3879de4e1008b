//! Core images read from the words of their files.
ghost use Rattle.std.specs.Prelude.{◌≡◌, IfOk};
ghost use Rattle.image_files.specs.Images.{IsImage};
ghost use Rattle.image_files.specs.Saves.{head_at, is_jrst, missing, image_of_save};
ghost use Rattle.image_files.specs.Loads.{Loads, IsWithin, EndsAs};

use crate::saves::{SaveError, SaveErrorKind};
use std::alloc::Global;
use word36::{Image, Word};

/// A word where a block or the end is looked for.
#[derive(Clone, Copy, Debug, PartialEq, Eq)]
pub(crate) enum Head {
    /// An IOWD of so many words, from an address on.
    Block { count: u32, address: u32 },
    /// A JRST to the start.
    Start(u32),
}

/// Whether a word is a JRST with an address alone.
fn is_jrst(word: Word) -> bool
    ensures { result ≡ is_jrst word }
{
    let number = word.number();
    number >> 27 == 0o254 && number >> 18 & 31 == 0
}

/// What a word is, where the next block stands at this address or above.
fn head_at(address: u32, word: Word) -> Result<Head, SaveErrorKind>
    ensures value { result ≡ head_at address word }
    ensures within { IsWithin result }
{
    if word.left() >= 1 << 17 {
        let first = (word.right() + 1) & 0o777_777;
        let count = (1 << 18) - word.left();
        if first < address {
            Err(SaveErrorKind::NotRising)
        } else if first + count > 1 << 18 {
            Err(SaveErrorKind::TooHigh)
        } else {
            Ok(Head::Block {
                count,
                address: first,
            })
        }
    } else if is_jrst(word) {
        Ok(Head::Start(word.right()))
    } else {
        Err(SaveErrorKind::NoBlock)
    }
}

/// The index of the first word that is not 0.
fn first_behind(words: &[Word]) -> Option<usize>
    ensures { EndsAs result words.now }
{
    for (i, word) in words.iter().enumerate() {
        if word.number() != 0 {
            return Some(i);
        }
    }
    None
}

/// What is missing where the words of a file end, and so many of a block are still to come.
fn missing(left: u32) -> SaveErrorKind
    ensures { result ≡ missing left }
{
    if left == 0 {
        SaveErrorKind::NoStart
    } else {
        SaveErrorKind::CutShort
    }
}

/// The image that the words of a file give, or the first word at fault. Its words are those that
/// the file has, zeros too. `write_save` gives back the words of a file that it wrote.
pub fn read_save(alloc: Global, words: &[Word]) -> Result<Image, SaveError>
    ensures told { Loads result (image_of_save words.now) }
    ensures image { IfOk result (λ image. IsImage image.words.items image.start) }
{
    let mut loaded = Vec::new(alloc);
    let mut left = 0;
    let mut address = 0;
    for (i, word) in words.iter().enumerate() {
        if left > 0 {
            loaded.push((address, *word))?;
            left -= 1;
            address += 1;
            continue;
        }
        match head_at(address, *word) {
            Err(kind) => return Err(SaveError::Word {
                number: i + 1,
                kind,
            }),
            Ok(
                Head::Block {
                    count,
                    address: first,
                },
            ) => {
                left = count;
                address = first;
            }
            Ok(Head::Start(start)) => {
                return match first_behind(&words[i + 1..]) {
                    None => Ok(Image {
                        words: loaded,
                        start,
                    }),
                    Some(more) => Err(SaveError::Word {
                        number: i + 2 + more,
                        kind: SaveErrorKind::Behind,
                    }),
                };
            }
        }
    }
    Err(SaveError::Word {
        number: words.len() + 1,
        kind: missing(left),
    })
}
