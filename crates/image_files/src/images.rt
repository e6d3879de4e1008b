//! Images: words by rising address, and a start.
ghost use Rattle.std.specs.Prelude.{◌≡◌, ℕ, ◌↔◌, IsTrue, IfOk, filter};
ghost use Rattle.image_files.specs.Images.{IsImage, Rises, is_not_zero, word_at};

use std::alloc::{AllocError, Global};
use word36::{ADDRESSES, Image, Word};

/// Whether the addresses of words rise, each below 2^18.
fn rises(words: &[(u32, Word)]) -> bool
    ensures { IsTrue result ↔ Rises 0 words.now }
{
    let mut least = 0;
    for word in words {
        if word.0 < least {
            return false;
        }
        if word.0 >= ADDRESSES {
            return false;
        }
        least = word.0 + 1;
    }
    true
}

/// Whether an image is one that a file can have: its addresses rise, and all of them and its start
/// are below 2^18.
pub fn is_image(image: &Image) -> bool
    ensures { IsTrue result ↔ IsImage image.now.words.items image.now.start }
{
    if !rises(image.words.as_slice()) {
        return false;
    }
    image.start < ADDRESSES
}

/// The words that are not 0.
fn without_zeros(alloc: Global, words: &[(u32, Word)]) -> Result<Vec<(u32, Word)>, AllocError>
    ensures { IfOk result (λ kept. kept.items ≡ filter is_not_zero words.now) }
{
    let mut kept = Vec::new(alloc);
    for word in words {
        if word.1.number() == 0 {
            continue;
        }
        kept.push(*word)?;
    }
    Ok(kept)
}

/// The image without its words of 0: memory that is cleared before it is loaded holds the same
/// words.
pub fn compressed(alloc: Global, image: &Image) -> Result<Image, AllocError>
    ensures words { IfOk result (λ kept. kept.words.items ≡ filter is_not_zero image.now.words.items) }
    ensures start { IfOk result (λ kept. kept.start ≡ image.now.start) }
    ensures image { IfOk result (λ kept. IsImage image.now.words.items image.now.start → IsImage kept.words.items kept.start) }
    ensures contents { IfOk result (λ kept. IsImage image.now.words.items image.now.start →
        (a : ℕ) → word_at kept.words.items a ≡ word_at image.now.words.items a) }
{
    let words = without_zeros(alloc, image.words.as_slice())?;
    Ok(Image {
        words,
        start: image.start,
    })
}
