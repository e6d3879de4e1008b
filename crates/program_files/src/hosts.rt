//! What every program that runs programs does at its host: it reads their files, reports, and answers arguments that are refused.
ghost use Rattle.std.specs.Prelude.{◌≡◌, ◌⊎◌, IfOk};

use crate::files::{ProgramFile, read_files};
use program_shell::{
    DONE, FAILED, Failure, Host, PendingText, Refusal, Stream, USAGE, file_error_text, refusal_text,
};
use std::alloc::Global;

/// Reads all files, each under the name by which it is shown; false at the first that cannot be read, which is reported in a line that
/// begins with `head`.
pub fn read_all_files<'a, H: Host>(
    host: &H,
    head: &str,
    files: &[&str],
    names: &'a [String],
    read: &mut Vec<ProgramFile<'a>>,
    report: &mut PendingText,
) -> bool {
    for (file, name) in files.iter().zip(names) {
        let Some(program) = read_files(host, head, file, name.as_str(), report) else {
            return false;
        };
        if read.push(program).is_err() {
            report.fail();
        }
    }
    true
}

/// Writes a text as far as it was put together, and begins it anew; fails if memory ran out before it was whole.
pub fn write_pending<H: Host>(
    host: &mut H,
    stream: Stream,
    text: &mut PendingText,
) -> Result<(), Failure> {
    if !text.as_bytes().is_empty() && host.write(stream, text.as_bytes()).is_err() {
        return Err(Failure::Write);
    }
    text.restart()
}

/// Writes what is kept of a run that had this status to a file, and gives the status. If the file cannot be written, it reports why
/// in a line that begins with `head`, and gives `FAILED`.
pub fn write_kept<H: Host>(
    host: &mut H,
    head: &str,
    file: &str,
    kept: &[u8],
    status: u8,
    errors: &mut PendingText,
) -> Result<u8, Failure>
    ensures { IfOk result (λ s. (s ≡ status) ⊎ (s ≡ FAILED)) }
{
    match host.write_file(file, kept) {
        Ok(()) => Ok(status),
        Err(error) => {
            errors.say_made(file_error_text(errors.alloc, head, file, error));
            write_pending(host, Stream::Errors, errors).and(Ok(FAILED))
        }
    }
}

/// Reports why the arguments were refused, or writes the help or the version that they ask for to the output. Gives the exit
/// status.
pub fn answer_refusal<H: Host>(alloc: Global, refusal: Refusal, host: &mut H) -> Result<u8, Failure>
    ensures { IfOk result (λ s. (s ≡ DONE) ⊎ (s ≡ USAGE)) }
{
    let said = refusal_text(alloc, refusal)?;
    let (stream, status) = if said.is_asked_for {
        (Stream::Output, DONE)
    } else {
        (Stream::Errors, USAGE)
    };
    host.write(stream, said.text.as_str().as_bytes())?;
    Ok(status)
}
