//! Words and core images read from the bytes of their files.
ghost use Rattle.std.specs.Prelude.{◌<◌, ◌^◌, All, Ok, IfOk};
ghost use Rattle.image_files.specs.CoreImages.{image_in, image_of_words, words_in};
ghost use Rattle.image_files.specs.Images.{IsImage, WordsFit};
ghost use Rattle.image_files.specs.ImageAnswers.{ReadsImage, ReadsWords};

use crate::faults::{ImageError, ImageFault};
use crate::from_bytes::unpack;
use crate::packings::{PackError, Packing};
use crate::save_reader::read_save;
use crate::saves::SaveError;
use std::alloc::Global;
use word36::{Image, Word};

/// The words of bytes in a packing, or the first one at fault.
pub fn read_words(alloc: Global, from: Packing, bytes: &[u8]) -> Result<Vec<Word>, ImageError>
    ensures { ReadsWords result (words_in from bytes.now) }
{
    match unpack(alloc, from, bytes) {
        Ok(words) => Ok(words),
        Err(PackError::Word { number, kind }) => {
            Err(ImageError::Fault(ImageFault::Word { number, kind }))
        }
        Err(PackError::Memory) => Err(ImageError::Memory),
    }
}

/// The image of the words of a core image, or the first word at fault.
fn image_of_words(alloc: Global, words: &[Word]) -> Result<Image, ImageError>
    requires { All (λ w. w < 2 ^ 36) words.now }
    ensures told { ReadsImage result (image_of_words (Ok words.now)) }
    ensures image { IfOk result (λ image. IsImage image.words.items image.start) }
    ensures fit { IfOk result (λ image. WordsFit image.words.items) }
{
    match read_save(alloc, words) {
        Ok(image) => Ok(image),
        Err(SaveError::Word { number, kind }) => {
            Err(ImageError::Fault(ImageFault::Save { number, kind }))
        }
        Err(SaveError::Memory) => Err(ImageError::Memory),
    }
}

/// The image of a core image whose words are packed in these bytes, or the first word at fault.
pub fn read_image(alloc: Global, from: Packing, bytes: &[u8]) -> Result<Image, ImageError>
    ensures told { ReadsImage result (image_in from bytes.now) }
    ensures image { IfOk result (λ image. IsImage image.words.items image.start) }
    ensures fit { IfOk result (λ image. WordsFit image.words.items) }
{
    match read_words(alloc, from, bytes) {
        Ok(words) => image_of_words(alloc, words.as_slice()),
        Err(error) => Err(error),
    }
}
