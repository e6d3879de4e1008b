//! Laws on sources of images. Each function does nothing: its contract is the law.
ghost use Rattle.std.specs.Prelude.{◌≡◌, ◌<◌, ◌^◌, ℕ, List, Ok};
ghost use Rattle.mac_text.specs.Names.{symbol_of};
ghost use Rattle.mac_asm.specs.Assembly.{Assembled, IsAssembly};
ghost use Rattle.mac_asm.specs.Outcome.{outcome_of};
ghost use Rattle.image_files.specs.Images.{IsImage, WordsFit};
ghost use Rattle.mac_source.specs.declared.shown.Shown.{Shown as ShownView};
ghost use Rattle.mac_source.specs.Sources.{ArePrinting, AreThere, Style, label_text, source_of, source_with};

/// Two addresses do not share a label.
#[tactic(auto, using(crate::proofs::LabelTexts::label_tells))]
pub fn labels_tell_their_addresses()
    ensures { (p q : ℕ) → p < 2 ^ 18 → q < 2 ^ 18 → symbol_of (label_text p) ≡ symbol_of (label_text q) → p ≡ q }
{}

/// The source of an image assembles to exactly that image in each style: whichever of its addresses
/// have labels, wherever labels are written, whether words of 0 stand in blocks, whether
/// texts stand in ASCIZ, and whatever comments stand behind its lines.
#[tactic(auto, using(crate::proofs::Assemblies::is_assembly, crate::proofs::Assemblies::comes_to))]
pub fn sources_assemble()
    ensures is { (style : Style) (image : Assembled) → IsImage image.words image.start → WordsFit image.words →
        AreThere style.marked image.words → ArePrinting style → IsAssembly (source_with style image) image }
    ensures told { (style : Style) (image : Assembled) → IsImage image.words image.start → WordsFit image.words →
        AreThere style.marked image.words → ArePrinting style → outcome_of (source_with style image) ≡ Ok image }
{}

/// So does the source of each choice of what is shown: labels where the image refers to, or none;
/// with comments or without; with blocks or without; with texts or without.
#[tactic(auto, using(crate::proofs::Assemblies::source_assembles, crate::proofs::Assemblies::source_comes_to))]
pub fn sources_of_images_assemble()
    ensures is { (shown : ShownView) (image : Assembled) → IsImage image.words image.start → WordsFit image.words →
        IsAssembly (source_of shown image) image }
    ensures told { (shown : ShownView) (image : Assembled) → IsImage image.words image.start → WordsFit image.words →
        outcome_of (source_of shown image) ≡ Ok image }
{}

/// The image of a source that is assembled is one that a file can have.
pub fn assembled_images_are_images()
    ensures { (source : List ℕ) (image : Assembled) → outcome_of source ≡ Ok image → IsImage image.words image.start }
{}
