//! Laws on files of images. Each function does nothing: its contract is the law.
ghost use Rattle.std.specs.Prelude.{◌≡◌, ◌^◌, ◌<◌, ℕ, List, Ok, All};
ghost use Rattle.image_files.specs.declared.packings.Packing.{Packing as PackingView};
ghost use Rattle.image_files.specs.Packings.{packed, unpacked};
ghost use Rattle.image_files.specs.Images.{IsImage, WordsFit};
ghost use Rattle.image_files.specs.Saves.{Loaded, image_of_save, save_of};

/// The file of an image is read as that image.
#[tactic(auto, using(crate::proofs::SaveLemmas::save_read))]
pub fn saves_are_read()
    ensures { (image : Loaded) → IsImage image.words image.start → image_of_save (save_of image) ≡ Ok image }
{}

/// What a file gives is an image: its addresses rise, and all fits.
pub fn saves_give_images()
    ensures { (words : List ℕ) (image : Loaded) → image_of_save words ≡ Ok image → IsImage image.words image.start }
{}

/// Words are read from their bytes, in each packing.
#[tactic(auto, using(crate::proofs::PackLemmas::packed_read))]
pub fn packed_words_are_read()
    ensures { (packing : PackingView) (words : List ℕ) → All (λ w. w < 2 ^ 36) words → unpacked packing (packed packing words) ≡ Ok words }
{}

/// Bytes of which words were read are the bytes of those words.
#[tactic(auto, using(crate::proofs::PackLemmas::unpacked_packed))]
pub fn read_bytes_are_packed()
    ensures { (packing : PackingView) (bytes words : List ℕ) → All (λ b. b < 256) bytes →
        unpacked packing bytes ≡ Ok words → packed packing words ≡ bytes }
{}

/// Words that are read from bytes have 36 bits.
#[tactic(auto, using(crate::proofs::WordLemmas::read_fit))]
pub fn read_words_fit()
    ensures { (packing : PackingView) (bytes words : List ℕ) → All (λ b. b < 256) bytes →
        unpacked packing bytes ≡ Ok words → All (λ w. w < 2 ^ 36) words }
{}

/// So have the words of an image that is read.
#[tactic(auto, using(crate::proofs::WordLemmas::image_fits))]
pub fn read_images_fit()
    ensures { (words : List ℕ) (image : Loaded) → All (λ w. w < 2 ^ 36) words → image_of_save words ≡ Ok image → WordsFit image.words }
{}

/// So have the words of the file of an image.
#[tactic(auto, using(crate::proofs::WordLemmas::save_fit))]
pub fn saved_words_fit()
    ensures { (image : Loaded) → IsImage image.words image.start → WordsFit image.words → All (λ w. w < 2 ^ 36) (save_of image) }
{}
