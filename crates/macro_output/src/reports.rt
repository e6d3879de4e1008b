//! What is wrong with a source.
ghost use Rattle.std.specs.Prelude.{IfOk};
ghost use Rattle.macro_output.specs.Listings.{InOrder};

use joined_files::{Part, part_of};
use ka_isa::{Family, classify, decode, mnemonic};
use macro_faults::{Fault, Report, Spot, push_around_place, push_report, push_words};
use macro_names::text_of;
use macro_operations::of_others;
use macro_state::{Assembly, OtherUse};
use script_io::push_decimal;
use std::alloc::{AllocError, Global};
use word36::Word;

/// How many faults are written.
const MOST_WRITTEN: usize = 20;

/// The place of a fault, by which faults are sorted, and its index.
#[derive(Clone, Copy, PartialEq, Eq, PartialOrd, Ord)]
struct FaultKey {
    line: u32,
    column: u32,
    index: usize,
}

/// The faults by line and column.
pub fn sorted_faults(alloc: Global, faults: &[Report]) -> Result<Vec<Report>, AllocError>
    ensures { IfOk result (λ sorted. InOrder faults.now sorted.items) }
{
    let mut keys = Vec::new(alloc);
    for (index, report) in faults.iter().enumerate() {
        keys.push(FaultKey {
            line: report.place.line,
            column: report.place.column,
            index,
        })?;
    }
    keys.sort()?;
    let mut sorted = Vec::new(alloc);
    for key in &keys {
        if let Some(report) = faults.get(key.index) {
            sorted.push(*report)?;
        }
    }
    Ok(sorted)
}

/// Where a line of a source of several files is told to be, or of one where there are no parts.
pub fn spot_of(parts: &[Part], line: u32) -> Spot<'_> {
    match part_of(parts, line as usize) {
        Some(part) => Spot {
            file: Some(part.file.as_str()),
            line: line.saturating_sub(u32::try_from(part.before).unwrap_or(u32::MAX)),
        },
        None => Spot { file: None, line },
    }
}

/// Adds the faults of a source by line and column, at most twenty of them, and how many more there are. `parts` are the files of
/// the source, where there are several.
pub fn push_faults(
    out: &mut Vec<u8>,
    state: &Assembly,
    source: &[u8],
    parts: &[Part],
) -> Result<(), AllocError> {
    let sorted = sorted_faults(state.alloc, state.faults.as_slice())?;
    let mut written = 0usize;
    for report in &sorted {
        if written >= MOST_WRITTEN {
            out.extend_from_slice(b"and ")?;
            push_decimal(out, sorted.len().saturating_sub(written))?;
            out.extend_from_slice(b" more errors\n")?;
            return Ok(());
        }
        let spot = spot_of(parts, report.place.line);
        push_report(out, report, spot, state.stream.around(), source)?;
        written += 1;
    }
    Ok(())
}

/// Whether a job stops at a word that is an operation or a call of another machine or another monitor, and whose fields no operand changes.
fn stops(word: Word) -> bool {
    let fields = decode(word);
    match classify(fields.op) {
        Family::Other | Family::Calli | Family::Ttcall => true,
        Family::Jrst => fields.ac != 0 && fields.ac != 2 && fields.ac != 4,
        _ => false,
    }
}

/// Adds what the machine does at the word of a use; nothing of a number that is no operation.
fn push_effect(out: &mut Vec<u8>, other: &OtherUse) -> Result<(), AllocError> {
    let Some(operation) = of_others(text_of(other.name).as_slice()) else {
        return Ok(());
    };
    let word = operation.word.unwrap_or(Word::new(0));
    let op = decode(word).op;
    if op == 0 {
        return Ok(());
    }
    if stops(word) {
        return out.extend_from_slice(b" (a job that gets to it stops there: illegal instruction)");
    }
    out.extend_from_slice(b" (a job carries out its word, which is that of ")?;
    out.extend_from_slice(mnemonic(op).unwrap_or("").as_bytes())?;
    out.push(b')')?;
    Ok(())
}

/// Adds a line for each use of an operation or a call of another machine or another monitor, and the texts around it. `parts` are the files of
/// the source.
pub fn push_warnings(
    out: &mut Vec<u8>,
    state: &Assembly,
    source: &[u8],
    parts: &[Part],
) -> Result<(), AllocError> {
    for other in &state.others {
        let spot = spot_of(parts, other.place.line);
        out.extend_from_slice(b"%MACRO ")?;
        if let Some(file) = spot.file {
            out.extend_from_slice(file.as_bytes())?;
            out.push(b':')?;
        }
        push_decimal(out, spot.line)?;
        out.push(b':')?;
        push_decimal(out, other.place.column)?;
        out.push(b' ')?;
        let fault = Fault::LeftOut(other.name, other.reason, true);
        push_words(out, fault, source, other.place.line)?;
        push_effect(out, other)?;
        out.push(b'\n')?;
        push_around_place(out, other.place, state.stream.around(), source)?;
    }
    Ok(())
}
