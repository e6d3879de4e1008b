//! The commands of `image`.
ghost use Rattle.std.specs.Prelude.{◌≡◌, IfOk};
ghost use Rattle.script_io.specs.Transcripts.{closed};
ghost use Rattle.image_service.specs.Commands.{answered};

use crate::endings::Ending;
use crate::listing::push_list;
use crate::repacking::push_repacked;
use crate::saving::push_saved;
use crate::sourcing::push_source;
use image_files::Packing;
use mac_source::Shown;
use std::alloc::{AllocError, Global};

/// A command of the program.
#[derive(Clone, Copy)]
pub enum ImageCommand {
    /// `words`: words in another packing.
    Words { from: Packing, to: Packing },
    /// `source`: the source of a core image.
    Source { from: Packing, shown: Shown },
    /// `save`: the core image of a source.
    Save { to: Packing },
    /// `list`: the words of a core image.
    List { from: Packing },
}

/// What a command makes of its input.
#[derive(Drop)]
pub struct Answer {
    /// What is written: where all is done that comes of the input, and else a line that says what is wrong with it.
    pub text: Vec<u8>,
    /// How it ended.
    pub ending: Ending,
}

/// Carries a command out on the bytes of its input.
pub fn answer_to(alloc: Global, command: ImageCommand, input: &[u8]) -> Result<Answer, AllocError>
    ensures { IfOk result (λ a. closed a.text.items a.ending ≡ answered command input.now) }
{
    let mut text = Vec::new(alloc);
    let out = &mut text;
    let ending = match command {
        ImageCommand::Words { from, to } => push_repacked(alloc, from, to, input, out)?,
        ImageCommand::Source { from, shown } => push_source(alloc, from, shown, input, out)?,
        ImageCommand::Save { to } => push_saved(alloc, to, input, out)?,
        ImageCommand::List { from } => push_list(alloc, from, input, out)?,
    };
    Ok(Answer { text, ending })
}
