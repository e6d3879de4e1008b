//! `image save`: the core image of a source.
ghost use Rattle.std.specs.Prelude.{◌≡◌, IfOk};
ghost use Rattle.script_io.specs.Transcripts.{after, closed};
ghost use Rattle.image_service.specs.Transcripts.{saved};

use crate::endings::Ending;
use crate::faults::push_ending;
use crate::repacking::push_words;
use image_files::{Packing, write_save};
use mac_asm::{AsmError, assemble};
use std::alloc::{AllocError, Global};

/// Adds the core image of a source, or what is wrong with that, and gives how it ends.
#[tactic(auto, unfolding(crate::specs::Transcripts::saved))]
pub fn push_saved(
    alloc: Global,
    to: Packing,
    source: &[u8],
    out: &mut Vec<u8>,
) -> Result<Ending, AllocError>
    ensures { IfOk result (λ ending. after out.old.items (saved to source.now) ≡ closed out.new.items ending) }
{
    match assemble(alloc, source) {
        Ok(image) => {
            let words = write_save(alloc, &image)?;
            push_words(alloc, out, to, words.as_slice())?;
            Ok(Ending::Done)
        }
        Err(AsmError::Line { line, code }) => {
            let ending = Ending::Source {
                line,
                code: code.number(),
            };
            push_ending(out, ending)?;
            Ok(ending)
        }
        Err(AsmError::Memory) => Err(AllocError),
    }
}
