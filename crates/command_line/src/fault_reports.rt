//! Why a line was refused, as one line for a person.
ghost use Rattle.std.specs.Prelude.{◌≡◌, ◌++◌, ◌+◌, [], ◌∷◌, false, Err, IfOk, OnOk, codes, decimal};
ghost use Rattle.script_io.specs.Endings.{served_as};
ghost use Rattle.command_line.specs.Programs.{ReportsFault, TellsHead, IsLineOn, place_of_line, place_of_source};

use crate::lines::{Language, Lines};
use fault_text::{NO_ENDASM, Refused, explain};
use machine::Config;
use op_script::OtherMachine;
use script_io::{ByteOut, ServeError, SourceFault, push_decimal, write_all};
use std::alloc::{AllocError, Global};
use std::convert::AsStr;

/// The language of what the program reads by its arguments, which begin with its name. Where they are wrong it reads
/// nothing.
pub fn language_of<S: AsStr>(arguments: &[S]) -> Language {
    match arguments.get(1).map(|argument| argument.as_str()) {
        Some("asm") => Language::Asm,
        Some("run") => Language::Run,
        _ => Language::Queue,
    }
}

/// Reports it if a script is obeyed on another machine than its first line names. If `notes` fails or there is no memory, this
/// is left out.
pub fn report_head<N: ByteOut>(alloc: Global, lines: &Lines, taken: Config, notes: &mut N)
    requires { N.has_failed notes.old ≡ false }
    ensures { TellsHead taken (N.written notes.old) (N.written notes.new) (N.has_failed notes.new) }
{
    let Some(said) = lines.head() else {
        return;
    };
    let Some(other) = OtherMachine::of(said, taken) else {
        return;
    };
    let Ok(text) = format!(in alloc; "lockmon: {other}\n") else {
        return;
    };
    let _ = write_all(notes, text.as_str().as_bytes());
}

/// Reports the line that was refused, if one was: `lockmon: line n: ..`. Where `errors` fails or there is no memory,
/// the report is left out.
pub fn report_fault<E: ByteOut>(
    alloc: Global,
    lines: &Lines,
    answer: Result<(), ServeError>,
    errors: &mut E,
)
    requires { E.has_failed errors.old ≡ false }
    ensures { ReportsFault (served_as answer) (E.written errors.old) (E.written errors.new) (E.has_failed errors.new) }
{
    if let Err(error) = answer {
        report_error(alloc, lines, error, errors);
    }
}

/// Reports the line that was refused, if the error is a refusal.
fn report_error<E: ByteOut>(alloc: Global, lines: &Lines, error: ServeError, errors: &mut E)
    requires { E.has_failed errors.old ≡ false }
    ensures { ReportsFault (served_as (Err error)) (E.written errors.old) (E.written errors.new) (E.has_failed errors.new) }
{
    match error {
        ServeError::Script(number) => {
            if let Ok(text) = script_text(alloc, lines, number) {
                let _ = write_all(errors, text.as_slice());
            }
        }
        ServeError::Source(fault) => {
            if let Ok(text) = source_text(alloc, lines, fault) {
                let _ = write_all(errors, text.as_slice());
            }
        }
        ServeError::Read | ServeError::Write | ServeError::Memory => {}
    }
}

/// The report on a line of a script.
fn script_text(alloc: Global, lines: &Lines, number: u128) -> Result<Vec<u8>, AllocError>
    ensures { IfOk result (λ text. IsLineOn (place_of_line number) text.items) }
{
    let reason = script_reason(alloc, lines, number)?;
    let mut text = Vec::new(alloc);
    push_place(&mut text, number)?;
    push_reason(&mut text, reason.as_str().as_bytes())?;
    Ok(text)
}

/// What is wrong with a line of a script.
fn script_reason(alloc: Global, lines: &Lines, number: u128) -> Result<String, AllocError> {
    match (lines.line(number), lines.language()) {
        (Some(line), Language::Run) => explain(alloc, Refused::Run, line),
        (Some(line), _) => explain(alloc, Refused::Queue, line),
        (None, Language::Run) if !lines.is_lost() => String::from_str(alloc, NO_ENDASM),
        (None, _) => Err(AllocError),
    }
}

/// The report on a line of a source.
fn source_text(alloc: Global, lines: &Lines, fault: SourceFault) -> Result<Vec<u8>, AllocError>
    ensures { IfOk result (λ text. IsLineOn (place_of_source fault) text.items) }
{
    let Some(number) = fault.before.checked_add(fault.line as u128) else {
        return Err(AllocError);
    };
    let reason = source_reason(alloc, lines, fault)?;
    let mut text = Vec::new(alloc);
    push_place_of_source(&mut text, fault, number)?;
    push_reason(&mut text, reason.as_str().as_bytes())?;
    Ok(text)
}

/// What is wrong with a line of a source.
fn source_reason(alloc: Global, lines: &Lines, fault: SourceFault) -> Result<String, AllocError> {
    if lines.is_lost() {
        return Err(AllocError);
    }
    let before = fault.before.saturating_sub(u128::from(lines.dropped()));
    source_faults::explain(alloc, fault.code, before, fault.line, lines.as_bytes())
}

/// Adds the number of the line.
#[tactic(auto, using(std::proofs::Common::append_assoc))]
fn push_place(out: &mut Vec<u8>, number: u128) -> Result<(), AllocError>
    ensures { OnOk result (out.new.items ≡ out.old.items ++ place_of_line number) }
{
    out.extend_from_slice(b"lockmon: line ")?;
    push_decimal(out, number)?;
    Ok(())
}

/// Adds the number of a line of a source: its number in the input, and in the source too, where the source stands in
/// a script.
#[tactic(auto, using(std::proofs::Common::append_assoc))]
fn push_place_of_source(
    out: &mut Vec<u8>,
    fault: SourceFault,
    number: u128,
) -> Result<(), AllocError>
    requires { number ≡ fault.before + fault.line }
    ensures { OnOk result (out.new.items ≡ out.old.items ++ place_of_source fault) }
{
    push_place(out, number)?;
    if fault.before == 0 {
        return Ok(());
    }
    push_line_of_source(out, fault.line)?;
    Ok(())
}

/// Adds the line's number in its source.
#[tactic(auto, using(std::proofs::Common::append_assoc))]
fn push_line_of_source(out: &mut Vec<u8>, line: usize) -> Result<(), AllocError>
    ensures { OnOk result (out.new.items ≡ out.old.items ++ codes ", line " ++ decimal line ++ codes " of its source") }
{
    out.extend_from_slice(b", line ")?;
    push_decimal(out, line)?;
    out.extend_from_slice(b" of its source")?;
    Ok(())
}

/// Adds the reason and the line end.
#[tactic(auto, using(std::proofs::Common::append_assoc))]
fn push_reason(out: &mut Vec<u8>, reason: &[u8]) -> Result<(), AllocError>
    ensures { OnOk result (out.new.items ≡ out.old.items ++ codes ": " ++ reason.now ++ codes "\n") }
{
    out.extend_from_slice(b": ")?;
    out.extend_from_slice(reason)?;
    out.push(b'\n')?;
    Ok(())
}
