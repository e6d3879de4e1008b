//! The laws on the sources that `macro` writes. The functions do nothing: their contracts are the laws.
ghost use Rattle.std.specs.Prelude.{◌≡◌};
ghost use Rattle.meaning_laws.specs.WrittenExample.{written_example, written_image, written_names};
ghost use Rattle.meaning_laws.specs.WrittenLines.{HasImage, LinesHaveTheirImage};
ghost use Rattle.meaning_laws.specs.WrittenSource.{AssemblyIsMeant, ReadersAgree, WrittenAssembles, WrittenMeansImage, written_text};

/// A source that `macro` wrote is the one that is written, by the definition, for its image and labels.
#[tactic(auto, using(crate::proofs::WrittenExample::example_written))]
pub fn written_example_is_written()
    ensures { written_text written_names written_image 0o140 ≡ written_example }
{}

/// And it means that image, and assembles to it.
#[tactic(auto, using(crate::proofs::WrittenExampleImage::example_has_image))]
pub fn written_example_has_its_image()
    ensures { HasImage written_example written_names written_image 0o140 }
{}

/// The source that is written for an image, with labels at some places, has exactly the words and the start of that image by the
/// definitions of what a source means.
#[tactic(auto, using(crate::proofs::WrittenAgreement::means_image))]
pub fn written_sources_mean_their_images()
    ensures { WrittenMeansImage }
{}

/// The source that is written for an image assembles to exactly that image.
#[tactic(auto, using(crate::proofs::WrittenAgreement::assembles))]
pub fn written_sources_assemble_to_their_images()
    ensures { WrittenAssembles }
{}

/// A source that is written for an image has by the definitions of what a source means the words and the start that the assembler
/// gives it.
#[tactic(auto, using(crate::proofs::WrittenAgreement::readers_agree, crate::proofs::WrittenAgreement::assembly_meant))]
pub fn readers_of_written_sources_agree()
    ensures is { AssemblyIsMeant }
    ensures told { ReadersAgree }
{}

/// Lines that give the words of an image with labels at their places, in BLOCK or one by one, mean that image and assemble to it.
pub fn written_lines_have_their_image()
    ensures { LinesHaveTheirImage }
{}
