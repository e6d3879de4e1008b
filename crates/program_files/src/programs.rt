//! The programs of files.
ghost use Rattle.std.specs.Prelude.{◌≡◌};
ghost use Rattle.program_files.specs.Files.{IsImageName, IsSourceName};
ghost use Rattle.program_files.specs.Reads.{AnswersImage, AnswersSource};

use crate::files::ProgramFile;
use crate::macro_sources::assemble_macro;
use crate::names::is_image_name;
use image_files::{ImageError, Packing, Wanted, fault_text, packing_that_fits, read_image};
use source_labels::{Assembled, Literals, Places, Program, Source, Tried, assemble_source};
use std::alloc::{AllocError, Global};
use word36::Image;

/// The program of an image, which has no labels and no literals.
fn program_with<'a>(alloc: Global, file: &'a str, image: Image) -> Program<'a>
    ensures { result.image ≡ image }
{
    Program {
        file,
        image,
        places: Places {
            labels: Vec::new(alloc),
            literals: Literals { first: 0, end: 0 },
            pools: Vec::new(alloc),
            numbers: Vec::new(alloc),
        },
        written: None,
        typed: Vec::new(alloc),
    }
}

/// The program of a core image, or what is wrong with it.
fn load_image<'a>(
    alloc: Global,
    file: &Source<'a>,
    from: Packing,
) -> Result<Assembled<'a>, AllocError>
    ensures { AnswersImage result file.now.file.now from file.now.text.items }
{
    match read_image(alloc, from, file.text.as_slice()) {
        Ok(image) => Ok(Assembled::Program(program_with(alloc, file.file, image))),
        Err(ImageError::Fault(fault)) => {
            let other = packing_that_fits(alloc, Wanted::Image, file.text.as_slice())?;
            Ok(Assembled::Refused(fault_text(alloc, file.file, fault, other)?))
        }
        Err(ImageError::Memory) => Err(AllocError),
    }
}

/// The program of a source, in the subset or else in MACRO-10, or what is wrong with it.
#[tactic(auto, using(crate::proofs::Sources::own_source, crate::proofs::Sources::other_source))]
fn load_source<'a>(
    alloc: Global,
    file: &ProgramFile<'a>,
    most: usize,
) -> Result<Assembled<'a>, AllocError>
    ensures { AnswersSource result file.now.source.text.items }
{
    match assemble_source(alloc, &file.source)? {
        Tried::Program(program) => Ok(Assembled::Program(program)),
        Tried::Refused => assemble_macro(alloc, file, most),
    }
}

/// The program of a file, by its name and its bytes. A name in `.sav` is that of a core image, whose words are packed so:
/// the program has its words and its start, and no labels. Any other is that of a source: in the subset, or else in
/// MACRO-10, for which a source of the subset is written that the program stands for from there on. A file that is refused
/// is no error: the text says what is wrong with it, and has `most` faults of a source at most.
pub fn read_program<'a>(
    alloc: Global,
    file: &ProgramFile<'a>,
    from: Packing,
    most: usize,
) -> Result<Assembled<'a>, AllocError>
    ensures image { IsImageName file.now.source.file.now → AnswersImage result file.now.source.file.now from file.now.source.text.items }
    ensures source { IsSourceName file.now.source.file.now → AnswersSource result file.now.source.text.items }
{
    if is_image_name(file.source.file) {
        load_image(alloc, &file.source, from)
    } else {
        load_source(alloc, file, most)
    }
}
