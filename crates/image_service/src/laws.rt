//! Laws on what the program writes. Each function does nothing: its contract is the law.
ghost use Rattle.std.specs.Prelude.{◌≡◌, ◌<◌, ℕ, List, Ok, All};
ghost use Rattle.image_files.specs.declared.packings.Packing.{Packing as PackingView};
ghost use Rattle.image_files.specs.Images.{IsImage, WordsFit};
ghost use Rattle.image_files.specs.Packings.{packed, unpacked};
ghost use Rattle.image_files.specs.Saves.{Loaded, save_of};
ghost use Rattle.mac_source.specs.declared.shown.Shown.{Shown as ShownView};
ghost use Rattle.script_io.specs.Transcripts.{closed};
ghost use Rattle.image_service.specs.declared.endings.Ending.TheVariants.{Done};
ghost use Rattle.image_service.specs.NotHere.{AreRefused, CallsStopTheirJobs, OthersAreCarriedOut};
ghost use Rattle.image_service.specs.Transcripts.{repacked, saved, sourced};

/// The file of an image comes back from its source, saved again.
#[tactic(auto, using(crate::proofs::Back::file_back))]
pub fn saved_sources_give_files_back()
    ensures { (packing : PackingView) (shown : ShownView) (image : Loaded) → IsImage image.words image.start → WordsFit image.words →
        saved packing (sourced packing shown (packed packing (save_of image))).text
        ≡ closed (packed packing (save_of image)) Done }
{}

/// Bytes of words come back from another packing.
#[tactic(auto, using(crate::proofs::Back::words_back))]
pub fn repacked_there_and_back()
    ensures { (from to : PackingView) (bytes words : List ℕ) → All (λ b. b < 256) bytes → unpacked from bytes ≡ Ok words →
        repacked to from (repacked from to bytes).text ≡ closed bytes Done }
{}

/// Whatever the registers and the core hold, a word of which it is said that it is not here is refused as an instruction with
/// nothing changed, or is a call that stops its job with 2. Every other operation of a user's program is carried out.
#[tactic(auto, using(crate::proofs::Refused::are_refused, crate::proofs::Refused::calls_stop, crate::proofs::Refused::others_go))]
pub fn words_not_here_are_refused()
    ensures refused { AreRefused }
    ensures stopped { CallsStopTheirJobs }
    ensures others { OthersAreCarriedOut }
{}
