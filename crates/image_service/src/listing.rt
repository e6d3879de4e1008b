//! `image list`: the words of a core image, as text.
ghost use Rattle.std.specs.Prelude.{◌≡◌, ◌++◌, IfOk, OnOk};
ghost use Rattle.std.specs.List.{flat_map};
ghost use Rattle.script_io.specs.Transcripts.{after, closed};
ghost use Rattle.image_service.specs.Transcripts.{listed, listed_line, listed_text};

use crate::endings::Ending;
use crate::faults::refuse;
use crate::not_here::push_mark;
use image_files::{ImageError, Packing, Wanted, read_image};
use script_io::push_word;
use std::alloc::{AllocError, Global};
use word36::{Image, Word, octal_digits};

/// Adds a line of an address and its word, and what is said of one that is not here.
#[tactic(auto, using(std::proofs::Common::append_assoc))]
fn push_word_line(out: &mut Vec<u8>, address: u32, word: Word) -> Result<(), AllocError>
    ensures { OnOk result (out.new.items ≡ out.old.items ++ listed_line (address, word)) }
{
    out.extend_from_slice(&octal_digits::<6>(u64::from(address)))?;
    out.push(b' ')?;
    push_word(out, word)?;
    push_mark(out, word)?;
    out.push(b'\n')?;
    Ok(())
}

/// Adds the lines of words with their addresses.
fn push_words(out: &mut Vec<u8>, words: &[(u32, Word)]) -> Result<(), AllocError>
    ensures { OnOk result (out.new.items ≡ out.old.items ++ flat_map listed_line words.now) }
{
    for word in words {
        push_word_line(out, word.0, word.1)?;
    }
    Ok(())
}

/// Adds the lines of an image: its words, and where it starts.
#[tactic(auto, using(std::proofs::Common::append_assoc))]
fn push_image(out: &mut Vec<u8>, image: &Image) -> Result<(), AllocError>
    ensures { OnOk result (out.new.items ≡
        out.old.items ++ listed_text (record { words = image.now.words.items; start = image.now.start })) }
{
    push_words(out, image.words.as_slice())?;
    out.extend_from_slice(b"START ")?;
    out.extend_from_slice(&octal_digits::<6>(u64::from(image.start)))?;
    out.push(b'\n')?;
    Ok(())
}

/// Adds the words of a core image by rising address, and its start, as `lockmon asm` lists them, or what is wrong with the image;
/// gives how that ends. After an operation or a call of a user's program that this machine lacks it says so.
#[tactic(auto, unfolding(crate::specs::Transcripts::listed))]
pub fn push_list(
    alloc: Global,
    from: Packing,
    bytes: &[u8],
    out: &mut Vec<u8>,
) -> Result<Ending, AllocError>
    ensures { IfOk result (λ ending. after out.old.items (listed from bytes.now) ≡ closed out.new.items ending) }
{
    match read_image(alloc, from, bytes) {
        Ok(image) => {
            push_image(out, &image)?;
            Ok(Ending::Done)
        }
        Err(ImageError::Fault(fault)) => refuse(alloc, out, Wanted::Image, bytes, fault),
        Err(ImageError::Memory) => Err(AllocError),
    }
}
