//! What is wrong with an input, in words.

use crate::serving::Carried;
use image_files::{ImageFault, PackErrorKind, Packing, SaveErrorKind, fault_text, read_words};
use image_service::{Ending, ImageCommand};
use std::alloc::{AllocError, Global};

/// The left half of the first word of an .EXE file of TOPS-10, which is its directory.
const EXE_DIRECTORY: u32 = 0o1776;

/// The packing in which a command reads words, if it does.
fn packing_of(command: ImageCommand) -> Option<Packing> {
    match command {
        ImageCommand::Words { from, .. }
        | ImageCommand::Source { from, .. }
        | ImageCommand::List { from } => Some(from),
        ImageCommand::Save { .. } => None,
    }
}

/// Whether bytes in a packing are an .EXE file of TOPS-10, by its first word.
fn is_exe(alloc: Global, from: Packing, bytes: &[u8]) -> bool {
    match read_words(alloc, from, bytes) {
        Ok(words) => match words.first() {
            Some(word) => word.left() == EXE_DIRECTORY,
            None => false,
        },
        Err(_) => false,
    }
}

/// What else is said of a fault of a file in a packing.
fn hint_on(alloc: Global, from: Option<Packing>, fault: ImageFault, bytes: &[u8]) -> &'static str {
    match (fault, from) {
        (ImageFault::Word { kind, .. }, Some(Packing::Octal)) if kind == PackErrorKind::CutShort =>
            { "    a word in octal is a line as 254000,,000140\n" }
        (ImageFault::Save { number: 1, kind }, Some(from))
            if kind == SaveErrorKind::NoBlock && is_exe(alloc, from, bytes) => {
            "    it is an .EXE of TOPS-10 by its first word, and only core images as .SAV are read\n"
        }
        _ => "",
    }
}

/// What is wrong with the input of a command, in whole lines for a person; nothing where all was done.
pub fn reason_of(
    alloc: Global,
    command: ImageCommand,
    carried: &Carried,
) -> Result<Vec<u8>, AllocError> {
    let input = carried.input.as_slice();
    match carried.ending {
        Ending::Done => Ok(Vec::new(alloc)),
        Ending::File { fault, other } => {
            let mut text = fault_text(alloc, "image", fault, other)?;
            let hint = hint_on(alloc, packing_of(command), fault, input);
            text.extend_from_slice(hint.as_bytes())?;
            Ok(text)
        }
        Ending::Source { line, code } => {
            let reason = source_faults::explain(alloc, code, 0, line, input)?;
            let text = format!(in alloc; "image: line {line}: {reason}\n")?;
            Vec::from_slice(alloc, text.as_str().as_bytes())
        }
    }
}
