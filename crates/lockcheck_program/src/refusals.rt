//! How a script is refused.
ghost use Rattle.std.specs.Prelude.{◌≡◌, ◌⊎◌, ◌++◌, false, IfOk, OnOk, codes};
ghost use Rattle.lockcheck_program.specs.Checks.{IsRefusalLine, IsRefused, RefusesScript, WantsMemory, refusal_line};
ghost use Rattle.lockcheck_program.specs.Reading.{IsReason, programs_of};

use crate::reading::ScriptError;
use crate::script_lines::line_at;
use program_shell::{FAILED, REFUSED, report_to};
use queue_faults::explain;
use script_io::{ByteOut, push_decimal};
use std::alloc::{AllocError, Global};

/// Adds words, and ends the line.
#[tactic(auto, using(std::proofs::Common::append_assoc))]
fn push_words(out: &mut Vec<u8>, words: &[u8]) -> Result<(), AllocError>
    ensures { OnOk result (out.new.items ≡ out.old.items ++ (words.now ++ codes "\n")) }
{
    out.extend_from_slice(words)?;
    out.push(b'\n')?;
    Ok(())
}

/// Adds the line on a refused line of a script.
fn push_refusal(out: &mut Vec<u8>, number: usize, words: &[u8]) -> Result<(), AllocError>
    ensures { OnOk result (out.new.items ≡ out.old.items ++ refusal_line number words.now) }
{
    out.extend_from_slice(b"lockcheck: line ")?;
    push_decimal(out, number)?;
    out.extend_from_slice(b": ")?;
    push_words(out, words)?;
    Ok(())
}

/// What is wrong with a line of a script, in a line.
fn line_text(alloc: Global, script: &[u8], number: usize) -> Result<Vec<u8>, AllocError>
    ensures { IfOk result (λ text. IsRefusalLine (ScriptError.Line number) text.items) }
{
    let words = explain(alloc, line_at(script, number))?;
    let mut text = Vec::new(alloc);
    push_refusal(&mut text, number, words.as_str().as_bytes())?;
    Ok(text)
}

/// Reports that there was no memory, and gives the exit status.
pub fn report_memory<E: ByteOut>(errors: &mut E) -> u8
    requires { E.has_failed errors.old ≡ false }
    ensures { WantsMemory (E.written errors.old) (E.written errors.new) (E.has_failed errors.new) result }
{
    report_to(errors, b"lockcheck: memory\n", FAILED)
}

/// Reports that a script has too many lines, and gives the exit status.
pub fn report_length<E: ByteOut>(errors: &mut E) -> u8
    requires { E.has_failed errors.old ≡ false }
    ensures { IsRefused ScriptError.TooLong (E.written errors.old) (E.written errors.new) (E.has_failed errors.new) result }
{
    report_to(
        errors,
        b"lockcheck: the script has more than 10000 lines\n",
        REFUSED,
    )
}

/// Reports the refused line of a script, and gives the exit status.
fn report_line<E: ByteOut>(alloc: Global, script: &[u8], number: usize, errors: &mut E) -> u8
    requires { E.has_failed errors.old ≡ false }
    ensures { IsRefused (ScriptError.Line number) (E.written errors.old) (E.written errors.new) (E.has_failed errors.new) result
        ⊎ WantsMemory (E.written errors.old) (E.written errors.new) (E.has_failed errors.new) result }
{
    match line_text(alloc, script, number) {
        Ok(text) => report_to(errors, text.as_slice(), REFUSED),
        Err(_) => report_memory(errors),
    }
}

/// Reports why a script is refused, and gives the exit status.
pub fn refuse_script<E: ByteOut>(
    alloc: Global,
    script: &[u8],
    error: ScriptError,
    errors: &mut E,
) -> u8
    requires sound { E.has_failed errors.old ≡ false }
    requires reason { IsReason (programs_of script.now) error }
    ensures { RefusesScript (programs_of script.now) (E.written errors.old) (E.written errors.new) (E.has_failed errors.new) result }
{
    match error {
        ScriptError::Memory => report_memory(errors),
        ScriptError::Line(number) => report_line(alloc, script, number, errors),
        ScriptError::TooLong => report_length(errors),
    }
}
