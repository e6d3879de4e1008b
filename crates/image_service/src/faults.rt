//! What is wrong with an input, as a line.
ghost use Rattle.std.specs.Prelude.{◌≡◌, ◌++◌, codes, decimal, IfOk, OnOk};
ghost use Rattle.image_files.specs.Fits.{packing_that_fits};
ghost use Rattle.image_service.specs.declared.endings.Ending.TheVariants as endings;
ghost use Rattle.image_service.specs.Transcripts.{ending_text, fault_line, numbered_text, pack_kind_text, save_kind_text};

use crate::endings::Ending;
use image_files::{ImageFault, PackErrorKind, SaveErrorKind, Wanted, packing_that_fits};
use script_io::push_decimal;
use std::alloc::{AllocError, Global};

/// The name of what is wrong with the bytes of a word.
fn pack_kind_text(kind: PackErrorKind) -> &'static str
    ensures { result.now ≡ pack_kind_text kind }
{
    match kind {
        PackErrorKind::CutShort => "CUTSHORT",
        PackErrorKind::ExtraBits => "EXTRABITS",
        PackErrorKind::NotOctal => "NOTOCTAL",
    }
}

/// The name of what is wrong with a word of a core image.
fn save_kind_text(kind: SaveErrorKind) -> &'static str
    ensures { result.now ≡ save_kind_text kind }
{
    match kind {
        SaveErrorKind::NoBlock => "NOBLOCK",
        SaveErrorKind::NotRising => "NOTRISING",
        SaveErrorKind::TooHigh => "TOOHIGH",
        SaveErrorKind::CutShort => "CUTSHORT",
        SaveErrorKind::NoStart => "NOSTART",
        SaveErrorKind::Behind => "BEHIND",
    }
}

/// Adds a line of a name, a number and a kind.
#[tactic(auto, using(std::proofs::Common::append_assoc))]
fn push_numbered(out: &mut Vec<u8>, name: &str, number: usize, kind: &str) -> Result<(), AllocError>
    ensures { OnOk result (out.new.items ≡ out.old.items ++ numbered_text name.now number kind.now) }
{
    out.extend_from_slice(name.as_bytes())?;
    push_decimal(out, number)?;
    out.push(b' ')?;
    out.extend_from_slice(kind.as_bytes())?;
    out.push(b'\n')?;
    Ok(())
}

/// Adds `?ASM line code`.
#[tactic(auto, using(std::proofs::Common::append_assoc))]
fn push_source_fault(out: &mut Vec<u8>, line: usize, code: u8) -> Result<(), AllocError>
    ensures { OnOk result (out.new.items ≡ out.old.items ++ numbered_text (codes "?ASM ") line (decimal code)) }
{
    out.extend_from_slice(b"?ASM ")?;
    push_decimal(out, line)?;
    out.push(b' ')?;
    push_decimal(out, code)?;
    out.push(b'\n')?;
    Ok(())
}

/// Adds `?WORD n KIND` or `?SAVE n KIND`.
fn push_fault(out: &mut Vec<u8>, fault: ImageFault) -> Result<(), AllocError>
    ensures { OnOk result (out.new.items ≡ out.old.items ++ fault_line fault) }
{
    match fault {
        ImageFault::Word { number, kind } => {
            push_numbered(out, "?WORD ", number, pack_kind_text(kind))
        }
        ImageFault::Save { number, kind } => {
            push_numbered(out, "?SAVE ", number, save_kind_text(kind))
        }
    }
}

/// Adds what is said of an ending: nothing where all is done.
pub fn push_ending(out: &mut Vec<u8>, ending: Ending) -> Result<(), AllocError>
    ensures { OnOk result (out.new.items ≡ out.old.items ++ ending_text ending) }
{
    match ending {
        Ending::Done => Ok(()),
        Ending::File { fault, other: _ } => push_fault(out, fault),
        Ending::Source { line, code } => push_source_fault(out, line, code),
    }
}

/// Adds the line on the first fault of a file that is not what is wanted, and gives how the service ends: with that fault, and
/// the packing that the file could be in.
pub fn refuse(
    alloc: Global,
    out: &mut Vec<u8>,
    wanted: Wanted,
    bytes: &[u8],
    fault: ImageFault,
) -> Result<Ending, AllocError>
    ensures ending { IfOk result (λ ending. ending ≡ endings.File fault (packing_that_fits wanted bytes.now)) }
    ensures told { OnOk result (out.new.items ≡ out.old.items ++ fault_line fault) }
{
    let other = packing_that_fits(alloc, wanted, bytes)?;
    push_fault(out, fault)?;
    Ok(Ending::File { fault, other })
}
