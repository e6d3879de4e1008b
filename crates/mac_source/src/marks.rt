//! The addresses of an image that have labels in its source.
ghost use Rattle.std.specs.Prelude.{◌≡◌, ℕ, ◌<◌, ◌^◌, ◌&&◌, IfOk, vec_len};
ghost use Rattle.image_files.specs.Images.{IsImage, Rises};
ghost use Rattle.mac_source.specs.Sources.{can_have_label, is_referred};
ghost use Rattle.mac_source.specs.Marks.{assembled, marked_by};

use crate::reaching::reaches_memory;
use ka_isa::decode;
use mac_layout::MEMORY_SIZE;
use std::alloc::{AllocError, Global};
use word36::{Image, Word};

/// The last of the accumulators, which have no labels.
const LAST_ACCUMULATOR: u32 = 0o17;

/// Which addresses can have labels: those of words, above the accumulators.
fn labelled_of(alloc: Global, words: &[(u32, Word)]) -> Result<Vec<bool>, AllocError>
    requires { Rises 0 words.now }
    ensures length { IfOk result (λ marks. vec_len marks ≡ 2 ^ 18) }
    ensures marks { IfOk result (λ marks. (p : ℕ) → p < 2 ^ 18 → marked_by marks.items p ≡ can_have_label words.now p) }
{
    let mut addresses = vec![in alloc; false; MEMORY_SIZE]?;
    for word in words {
        addresses[word.0 as usize] = word.0 > LAST_ACCUMULATOR;
    }
    Ok(addresses)
}

/// Which addresses the words of an image and its start refer to.
fn referred_of(alloc: Global, image: &Image) -> Result<Vec<bool>, AllocError>
    requires { IsImage image.now.words.items image.now.start }
    ensures length { IfOk result (λ marks. vec_len marks ≡ 2 ^ 18) }
    ensures marks { IfOk result (λ marks. (p : ℕ) → p < 2 ^ 18 → marked_by marks.items p ≡ is_referred (assembled image.now) p) }
{
    let addresses = labelled_of(alloc, image.words.as_slice())?;
    let mut marks = vec![in alloc; false; MEMORY_SIZE]?;
    marks[image.start as usize] = addresses[image.start as usize];
    for word in image.words.as_slice() {
        let fields = decode(word.1);
        if !reaches_memory(fields.op) {
            continue;
        }
        let address = fields.y as usize;
        marks[address] = addresses[address];
    }
    Ok(marks)
}

/// Which addresses have labels, where labels are wanted.
pub fn marks_of(alloc: Global, image: &Image, labels: bool) -> Result<Vec<bool>, AllocError>
    requires { IsImage image.now.words.items image.now.start }
    ensures length { IfOk result (λ marks. vec_len marks ≡ 2 ^ 18) }
    ensures marks { IfOk result (λ marks. (p : ℕ) → p < 2 ^ 18 →
        marked_by marks.items p ≡ (labels && is_referred (assembled image.now) p)) }
{
    if !labels {
        let marks = vec![in alloc; false; MEMORY_SIZE]?;
        return Ok(marks);
    }
    referred_of(alloc, image)
}
