//! Sources in MACRO-10, which the assembler of the subset refuses.
ghost use Rattle.std.specs.Prelude.{IfOk};
ghost use Rattle.source_check.specs.Same.{ComesTo};
ghost use Rattle.program_files.specs.Reads.{HasWritten, HandsOver};

use crate::files::ProgramFile;
use crate::reports::report_text;
use joined_files::unread_text;
use macro_assembly::assemble;
use macro_output::{Written, source_of};
use macro_state::Assembly;
use macro_symbols::DefinitionKind;
use macro_values::word_of;
use source_labels::{Assembled, Literals, NamedNumber, Program, places_in};
use std::alloc::{AllocError, Global};

/// The line where the words of a source are not those that are read back.
const NOT_READ_BACK: &str =
    "a fault of this program: what it wrote or listed is not the words of the source";

/// The names of a source that stand for numbers: those that are assigned, and labels between PHASE and DEPHASE, whose words
/// stand elsewhere.
fn numbers_of(state: &Assembly) -> Result<Vec<NamedNumber>, AllocError> {
    let mut numbers = Vec::new(state.alloc);
    for at in 0..state.symbols.len() {
        let Some((name, definition)) = state.symbols.at(at) else {
            break;
        };
        if definition.kind != DefinitionKind::Assigned && !definition.phased {
            continue;
        }
        let Some(number) = definition.value else {
            continue;
        };
        if let Some(value) = word_of(number) {
            numbers.push(NamedNumber {
                name,
                value,
                is_shown: definition.shown,
            })?;
        }
    }
    Ok(numbers)
}

/// The pools of literals of a source.
fn pools_of(state: &Assembly) -> Result<Vec<Literals>, AllocError> {
    let mut pools = Vec::new(state.alloc);
    for pool in &state.placed_pools {
        pools.push(Literals {
            first: pool.first,
            end: pool.first.saturating_add(pool.words),
        })?;
    }
    Ok(pools)
}

/// What a source had typed out, and the lines on its files that are not read.
fn typed_of(state: &Assembly, file: &ProgramFile<'_>) -> Result<Vec<u8>, AllocError> {
    let (parts, end) = (file.parts.as_slice(), state.listing.last as usize);
    let unread = unread_text(state.alloc, parts, end)?;
    let mut typed = Vec::from_slice(state.alloc, state.typed.as_slice())?;
    typed.extend_from_slice(unread.as_str().as_bytes())?;
    Ok(typed)
}

/// The program of an assembly without faults, for which this source was written.
fn program_of<'a>(
    file: &ProgramFile<'a>,
    state: &Assembly,
    written: Written,
) -> Result<Program<'a>, AllocError>
    requires { ComesTo written.text.items written.image }
    ensures { IfOk result HasWritten }
{
    let typed = typed_of(state, file)?;
    let numbers = numbers_of(state)?;
    let pools = pools_of(state)?;
    let Written { text, image } = written;
    let mut places = places_in(state.alloc, text.as_slice(), &image)?;
    places.numbers = numbers;
    places.pools = pools;
    Ok(Program {
        file: file.source.file,
        image,
        places,
        written: Some(text),
        typed,
    })
}

/// What is wrong with a source. The lines of PRINTX stand before it.
fn refusal_text(
    state: &Assembly,
    file: &ProgramFile<'_>,
    most: usize,
) -> Result<Vec<u8>, AllocError> {
    let mut report = typed_of(state, file)?;
    let text = report_text(state, file, most)?;
    report.extend_from_slice(text.as_str().as_bytes())?;
    Ok(report)
}

/// What comes of a source by its assembly.
fn answer_of<'a>(
    state: &Assembly,
    file: &ProgramFile<'a>,
    most: usize,
) -> Result<Assembled<'a>, AllocError>
    ensures { HandsOver result }
{
    if !state.faults.is_empty() {
        return Ok(Assembled::Refused(refusal_text(state, file, most)?));
    }
    let Some(written) = source_of(state, file.source.text.as_slice())? else {
        let file = file.source.file;
        let text = format!(in state.alloc; "{file}: {NOT_READ_BACK}\n")?;
        return Ok(Assembled::Refused(text.into_bytes()));
    };
    Ok(Assembled::Program(program_of(file, state, written)?))
}

/// Lets an assembly go.
fn let_go(_state: Assembly) {}

/// What comes of a source that the assembler of the subset refuses: a program that stands for the source of
/// the subset that is written for it, or what is wrong with it.
pub fn assemble_macro<'a>(
    alloc: Global,
    file: &ProgramFile<'a>,
    most: usize,
) -> Result<Assembled<'a>, AllocError>
    ensures { HandsOver result }
{
    let state = assemble(alloc, file.source.text.as_slice(), false)?;
    let answer = answer_of(&state, file, most);
    let_go(state);
    answer
}
