//! `image source`: the source of a core image.
ghost use Rattle.std.specs.Prelude.{◌≡◌, IfOk};
ghost use Rattle.script_io.specs.Transcripts.{after, closed};
ghost use Rattle.image_service.specs.Transcripts.{sourced};

use crate::endings::Ending;
use crate::faults::refuse;
use image_files::{ImageError, Packing, Wanted, read_image};
use mac_source::{Shown, source_of};
use std::alloc::{AllocError, Global};

/// Adds the source of a core image, or what is wrong with that, and gives how it ends.
#[tactic(auto, unfolding(crate::specs::Transcripts::sourced))]
pub fn push_source(
    alloc: Global,
    from: Packing,
    shown: Shown,
    bytes: &[u8],
    out: &mut Vec<u8>,
) -> Result<Ending, AllocError>
    ensures { IfOk result (λ ending. after out.old.items (sourced from shown bytes.now) ≡ closed out.new.items ending) }
{
    match read_image(alloc, from, bytes) {
        Ok(image) => {
            let text = source_of(alloc, &image, shown)?;
            out.extend_from_slice(text.as_slice())?;
            Ok(Ending::Done)
        }
        Err(ImageError::Fault(fault)) => refuse(alloc, out, Wanted::Image, bytes, fault),
        Err(ImageError::Memory) => Err(AllocError),
    }
}
