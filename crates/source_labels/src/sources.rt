//! Sources, and what they are assembled to.
ghost use Rattle.std.specs.Prelude.{◌≡◌, None, IfOk};
ghost use Rattle.mac_asm.specs.Outcome.{outcome_of};
ghost use Rattle.source_labels.specs.Places.{ArePlacesOf};
ghost use Rattle.source_labels.specs.Programs.{AssemblesTo, HasPlacesOf, source_for, KeepsOwn};

use crate::places::{Places, places_of};
use mac_asm::{AsmError, assemble};
use mac_layout::lay_out;
use mac_text::parse;
use std::alloc::{AllocError, Global};
use word36::Image;

/// A source, and the name of its file.
#[derive(Drop)]
pub struct Source<'a> {
    /// The name.
    pub file: &'a str,
    /// The bytes.
    pub text: Vec<u8>,
}

/// A program that a source was assembled to.
#[derive(Drop)]
pub struct Program<'a> {
    /// The name of the source's file.
    pub file: &'a str,
    /// The words.
    pub image: Image,
    /// Its labels and literals.
    pub places: Places,
    /// The source that was written in place of the file's, if one was: the program stands for that.
    pub written: Option<Vec<u8>>,
    /// What the source had typed out while it was assembled.
    pub typed: Vec<u8>,
}

impl Program<'_> {
    /// The source that the program stands for, where this is that of its file.
    pub fn source_for<'s>(&'s self, own: &'s [u8]) -> &'s [u8]
        ensures { result.now ≡ source_for self.now own.now }
    {
        match &self.written {
            Some(written) => written.as_slice(),
            None => own,
        }
    }
}

/// What comes of a file.
#[derive(Drop)]
pub enum Assembled<'a> {
    /// A program.
    Program(Program<'a>),
    /// What is wrong with it, in whole lines for a person.
    Refused(Vec<u8>),
}

/// What the assembler of the subset makes of a source.
#[derive(Drop)]
pub enum Tried<'a> {
    /// A program.
    Program(Program<'a>),
    /// It is not in the subset, or wrong.
    Refused,
}

/// The labels and literals of a source of which this is the image. It is in the grammar and laid out, as it was
/// assembled, so that only memory can be missing.
pub fn places_in(alloc: Global, text: &[u8], image: &Image) -> Result<Places, AllocError>
    ensures { IfOk result (λ places. ArePlacesOf places text.now image.now.words.items) }
{
    let Ok(lines) = parse(alloc, text) else {
        return Err(AllocError);
    };
    let Ok(layout) = lay_out(alloc, lines.as_slice()) else {
        return Err(AllocError);
    };
    places_of(alloc, lines.as_slice(), &layout, image)
}

/// Assembles a source. One that is refused is no error.
pub fn assemble_source<'a>(alloc: Global, source: &Source<'a>) -> Result<Tried<'a>, AllocError>
    ensures outcome { AssemblesTo result (outcome_of source.now.text.items) }
    ensures own { IfOk result KeepsOwn }
    ensures places { IfOk result (HasPlacesOf source.now.text.items) }
{
    let text = source.text.as_slice();
    match assemble(alloc, text) {
        Ok(image) => {
            let places = places_in(alloc, text, &image)?;
            Ok(Tried::Program(Program {
                file: source.file,
                image,
                places,
                written: None,
                typed: Vec::new(alloc),
            }))
        }
        Err(AsmError::Line { .. }) => Ok(Tried::Refused),
        Err(AsmError::Memory) => Err(AllocError),
    }
}
