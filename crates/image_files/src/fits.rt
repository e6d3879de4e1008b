//! The packing that bytes could be in.
ghost use Rattle.std.specs.Prelude.{◌≡◌, [], IfOk};
ghost use Rattle.image_files.specs.Fits.{fits, if_fits, is_image_in, are_words_in, only_one, packing_that_fits};
ghost use Rattle.image_files.specs.declared.packings.Packing.TheVariants.{CoreDump, HighDensity, AnsiAscii, Simh, Octal};

use crate::core_images::{read_image, read_words};
use crate::faults::ImageError;
use crate::packings::Packing;
use std::alloc::{AllocError, Global};

/// What bytes are read as.
#[derive(Clone, Copy, Debug, PartialEq, Eq)]
pub enum Wanted {
    /// Any words.
    Words,
    /// The words of a core image.
    Image,
}

/// Whether bytes are words in a packing.
fn are_words_in(alloc: Global, packing: Packing, bytes: &[u8]) -> Result<bool, AllocError>
    ensures { IfOk result (λ fits. fits ≡ are_words_in packing bytes.now) }
{
    match read_words(alloc, packing, bytes) {
        Ok(_) => Ok(true),
        Err(ImageError::Fault(_)) => Ok(false),
        Err(ImageError::Memory) => Err(AllocError),
    }
}

/// Whether bytes are a core image in a packing.
fn is_image_in(alloc: Global, packing: Packing, bytes: &[u8]) -> Result<bool, AllocError>
    ensures { IfOk result (λ fits. fits ≡ is_image_in packing bytes.now) }
{
    match read_image(alloc, packing, bytes) {
        Ok(_) => Ok(true),
        Err(ImageError::Fault(_)) => Ok(false),
        Err(ImageError::Memory) => Err(AllocError),
    }
}

/// Whether bytes are what is wanted, in a packing.
fn fits(alloc: Global, wanted: Wanted, packing: Packing, bytes: &[u8]) -> Result<bool, AllocError>
    ensures { IfOk result (λ is. is ≡ fits wanted packing bytes.now) }
{
    match wanted {
        Wanted::Words => are_words_in(alloc, packing, bytes),
        Wanted::Image => is_image_in(alloc, packing, bytes),
    }
}

/// The packing that fits, where exactly one does, by whether each does.
fn only_one(core: bool, dense: bool, ascii: bool, simh: bool, octal: bool) -> Option<Packing>
    ensures { result ≡ only_one (if_fits core CoreDump (if_fits dense HighDensity
        (if_fits ascii AnsiAscii (if_fits simh Simh (if_fits octal Octal []))))) }
{
    match (core, dense, ascii, simh, octal) {
        (true, false, false, false, false) => Some(Packing::CoreDump),
        (false, true, false, false, false) => Some(Packing::HighDensity),
        (false, false, true, false, false) => Some(Packing::AnsiAscii),
        (false, false, false, true, false) => Some(Packing::Simh),
        (false, false, false, false, true) => Some(Packing::Octal),
        _ => None,
    }
}

/// The packing in which bytes are what is wanted, where there is exactly one.
pub fn packing_that_fits(
    alloc: Global,
    wanted: Wanted,
    bytes: &[u8],
) -> Result<Option<Packing>, AllocError>
    ensures { IfOk result (λ found. found ≡ packing_that_fits wanted bytes.now) }
{
    let core = fits(alloc, wanted, Packing::CoreDump, bytes)?;
    let dense = fits(alloc, wanted, Packing::HighDensity, bytes)?;
    let ascii = fits(alloc, wanted, Packing::AnsiAscii, bytes)?;
    let simh = fits(alloc, wanted, Packing::Simh, bytes)?;
    let octal = fits(alloc, wanted, Packing::Octal, bytes)?;
    Ok(only_one(core, dense, ascii, simh, octal))
}
