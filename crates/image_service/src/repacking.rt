//! `image words`: words in another packing.
ghost use Rattle.std.specs.Prelude.{◌≡◌, ◌++◌, IfOk, OnOk};
ghost use Rattle.script_io.specs.Transcripts.{after, closed};
ghost use Rattle.image_files.specs.Packings.{packed};
ghost use Rattle.image_service.specs.Transcripts.{repacked};

use crate::endings::Ending;
use crate::faults::refuse;
use image_files::{ImageError, Packing, Wanted, pack, read_words};
use std::alloc::{AllocError, Global};
use word36::Word;

/// Adds words in a packing.
pub fn push_words(
    alloc: Global,
    out: &mut Vec<u8>,
    packing: Packing,
    words: &[Word],
) -> Result<(), AllocError>
    ensures { OnOk result (out.new.items ≡ out.old.items ++ packed packing words.now) }
{
    let bytes = pack(alloc, packing, words)?;
    out.extend_from_slice(bytes.as_slice())?;
    Ok(())
}

/// Adds the words of bytes in another packing, or what is wrong with them, and gives how that ends.
#[tactic(auto, unfolding(crate::specs::Transcripts::repacked))]
pub fn push_repacked(
    alloc: Global,
    from: Packing,
    to: Packing,
    bytes: &[u8],
    out: &mut Vec<u8>,
) -> Result<Ending, AllocError>
    ensures { IfOk result (λ ending. after out.old.items (repacked from to bytes.now) ≡ closed out.new.items ending) }
{
    match read_words(alloc, from, bytes) {
        Ok(words) => {
            push_words(alloc, out, to, words.as_slice())?;
            Ok(Ending::Done)
        }
        Err(ImageError::Fault(fault)) => refuse(alloc, out, Wanted::Words, bytes, fault),
        Err(ImageError::Memory) => Err(AllocError),
    }
}
