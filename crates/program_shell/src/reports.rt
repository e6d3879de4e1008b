//! What a program reports to a person as it ends.
ghost use Rattle.std.specs.Prelude.{◌≡◌, ◌≢◌, false, IfErr, IfOk};
ghost use Rattle.program_shell.specs.Reports.{AreUnread, Hands, IsReported, WritesOnlyWhenDone};

use crate::arguments::arguments_of;
use crate::failure::{Failure, FailureLines};
use crate::refusal::{Refusal, refusal_text};
use crate::statuses::{DONE, FAILED, USAGE};
use script_io::{ByteOut, write_all};
use shown_bytes::shown_text;
use std::alloc::{AllocError, Global};
use std::env::Env;
use std::io::{self, ErrorKind};

/// Writes a text to standard error, and gives the exit status. A failure of `errors` changes nothing.
pub fn report_to<E: ByteOut>(errors: &mut E, text: &[u8], status: u8) -> u8
    requires { E.has_failed errors.old ≡ false }
    ensures status { result ≡ status }
    ensures handed { Hands (E.written errors.old) (E.written errors.new) (E.has_failed errors.new) text.now }
{
    let _ = write_all(errors, text);
    status
}

/// Writes the line on a failure to standard error, and gives `FAILED`.
pub fn report_failure<E: ByteOut>(errors: &mut E, lines: &FailureLines, failure: Failure) -> u8
    requires { E.has_failed errors.old ≡ false }
    ensures status { result ≡ FAILED }
    ensures told { IsReported (E.written errors.old) (E.written errors.new) (E.has_failed errors.new) result }
{
    report_to(errors, lines.of(failure), FAILED)
}

/// Writes a text to the output. Gives `DONE`, or `FAILED` where the output failed, which is reported.
pub fn write_output<W: ByteOut, E: ByteOut>(
    writer: &mut W,
    text: &[u8],
    lines: &FailureLines,
    errors: &mut E,
) -> u8
    requires writer_sound { W.has_failed writer.old ≡ false }
    requires errors_sound { E.has_failed errors.old ≡ false }
    ensures status { W.has_failed writer.new ≡ false → result ≡ DONE }
    ensures handed { Hands (W.written writer.old) (W.written writer.new) (W.has_failed writer.new) text.now }
{
    match write_all(writer, text) {
        Ok(()) => DONE,
        Err(_) => report_failure(errors, lines, Failure::Write),
    }
}

/// Reports why arguments are refused, or writes the help or the version that they ask for to the output; gives the
/// exit status.
pub fn refuse_arguments<W: ByteOut, E: ByteOut>(
    alloc: Global,
    refusal: Refusal,
    lines: &FailureLines,
    writer: &mut W,
    errors: &mut E,
) -> u8
    requires writer_sound { W.has_failed writer.old ≡ false }
    requires errors_sound { E.has_failed errors.old ≡ false }
    ensures silent { WritesOnlyWhenDone (W.has_failed writer.new) (W.written writer.old) (W.written writer.new) result }
{
    match refusal_text(alloc, refusal) {
        Ok(said) if said.is_asked_for => {
            write_output(writer, said.text.as_str().as_bytes(), lines, errors)
        }
        Ok(said) => report_to(errors, said.text.as_str().as_bytes(), USAGE),
        Err(_) => report_failure(errors, lines, Failure::Memory),
    }
}

/// The line on a file that cannot be read or written: `head`, the file's name as a line for a person shows it, and why.
pub fn file_error_text(
    alloc: Global,
    head: &str,
    file: &str,
    error: io::Error,
) -> Result<String, AllocError> {
    let name = shown_text(alloc, file.as_bytes())?;
    format!(in alloc; "{head}{name}: {error}\n")
}

/// Reports why the arguments could not be read, and gives the exit status: one of them is not UTF-8, which refuses
/// them, or there was no memory, which this line reports.
pub fn unread_arguments<E: ByteOut>(kind: ErrorKind, memory_line: &[u8], errors: &mut E) -> u8
    requires { E.has_failed errors.old ≡ false }
    ensures no_text { kind ≡ ErrorKind.InvalidData → result ≡ USAGE }
    ensures no_memory { kind ≢ ErrorKind.InvalidData → result ≡ FAILED }
    ensures line { kind ≢ ErrorKind.InvalidData
        → Hands (E.written errors.old) (E.written errors.new) (E.has_failed errors.new) memory_line.now }
{
    if kind == ErrorKind::InvalidData {
        let text = b"error: invalid UTF-8 was detected in one or more arguments\n";
        report_to(errors, text, USAGE)
    } else {
        report_to(errors, memory_line, FAILED)
    }
}

/// The arguments of the process, as `arguments_of` gives them; or, where they cannot be read, the exit status for that,
/// which is reported as `unread_arguments` reports it.
pub fn arguments_or_status<H: Env + AllocGlobal, E: ByteOut>(
    rt: &H,
    memory_line: &[u8],
    errors: &mut E,
) -> Result<Vec<String>, u8>
    requires { E.has_failed errors.old ≡ false }
    ensures sound { IfOk result (λ _. E.has_failed errors.new ≡ false) }
    ensures quiet { IfOk result (λ _. E.written errors.new ≡ E.written errors.old) }
    ensures unread { IfErr result (λ status. AreUnread memory_line.now
        (E.written errors.old) (E.written errors.new) (E.has_failed errors.new) status) }
{
    match arguments_of(rt) {
        Ok(arguments) => Ok(arguments),
        Err(error) => Err(unread_arguments(error.kind(), memory_line, errors)),
    }
}
