//! What is wrong with a file of words, in words.
ghost use Rattle.std.specs.Prelude.{◌≡◌, ◌++◌, IfOk, OnOk};
ghost use Rattle.image_files.specs.Texts.{advice_text, fault_line, fault_text, numbered_text, pack_reason, save_reason};

use crate::faults::ImageFault;
use crate::names::packing_name;
use crate::packings::{PackErrorKind, Packing};
use crate::saves::SaveErrorKind;
use script_io::push_decimal;
use std::alloc::{AllocError, Global};

/// What is wrong with the bytes of a word.
fn pack_reason(kind: PackErrorKind) -> &'static str
    ensures { result.now ≡ pack_reason kind }
{
    match kind {
        PackErrorKind::CutShort => "the file ends within it",
        PackErrorKind::ExtraBits => "a bit is set that this packing leaves 0",
        PackErrorKind::NotOctal => "its line is no word in octal, as 254000,,000140",
    }
}

/// What is wrong with a word of a core image.
fn save_reason(kind: SaveErrorKind) -> &'static str
    ensures { result.now ≡ save_reason kind }
{
    match kind {
        SaveErrorKind::NoBlock => "an IOWD or the JRST to the start is wanted here",
        SaveErrorKind::NotRising => "a block begins below the end of the one before it",
        SaveErrorKind::TooHigh => "a block ends above 777777",
        SaveErrorKind::CutShort => "the file ends within a block",
        SaveErrorKind::NoStart => "the file ends, and no JRST to the start stands in it",
        SaveErrorKind::Behind => "a word other than 0 stands behind the JRST to the start",
    }
}

/// Adds `FILE: word N: REASON`.
#[tactic(auto, using(std::proofs::Common::append_assoc))]
fn push_numbered(
    out: &mut Vec<u8>,
    file: &str,
    number: usize,
    reason: &str,
) -> Result<(), AllocError>
    ensures { OnOk result (out.new.items ≡ out.old.items ++ numbered_text file.now number reason.now) }
{
    out.extend_from_slice(file.as_bytes())?;
    out.extend_from_slice(b": word ")?;
    push_decimal(out, number)?;
    out.extend_from_slice(b": ")?;
    out.extend_from_slice(reason.as_bytes())?;
    Ok(())
}

/// Adds which word of a file is at fault, and what is wrong with it.
fn push_fault(out: &mut Vec<u8>, file: &str, fault: ImageFault) -> Result<(), AllocError>
    ensures { OnOk result (out.new.items ≡ out.old.items ++ fault_line file.now fault) }
{
    match fault {
        ImageFault::Word { number, kind } => push_numbered(out, file, number, pack_reason(kind)),
        ImageFault::Save { number, kind } => push_numbered(out, file, number, save_reason(kind)),
    }
}

/// Adds a line on the packing that a file could be in.
#[tactic(auto, using(std::proofs::Common::append_assoc))]
fn push_advice(out: &mut Vec<u8>, other: Option<Packing>) -> Result<(), AllocError>
    ensures { OnOk result (out.new.items ≡ out.old.items ++ advice_text other) }
{
    match other {
        Some(packing) => {
            out.extend_from_slice(b"\n    it can be read by --from ")?;
            out.extend_from_slice(packing_name(packing).as_bytes())?;
            out.push(b'\n')?;
            Ok(())
        }
        None => {
            out.extend_from_slice(
                b"\n    --from says how its words are packed: core, dense, ascii, simh or octal\n",
            )?;
            Ok(())
        }
    }
}

/// What is wrong with a file of words, in whole lines: which word, what is wrong with it, and the packing that the file could
/// be in, where there is one.
#[tactic(auto, using(std::proofs::Common::append_assoc))]
pub fn fault_text(
    alloc: Global,
    file: &str,
    fault: ImageFault,
    other: Option<Packing>,
) -> Result<Vec<u8>, AllocError>
    ensures { IfOk result (λ text. text.items ≡ fault_text file.now fault other) }
{
    let mut text = Vec::new(alloc);
    push_fault(&mut text, file, fault)?;
    push_advice(&mut text, other)?;
    Ok(text)
}
