//! A file or an input that is read as a whole, and the report where it cannot be read.
ghost use Rattle.std.specs.Prelude.{◌≡◌, ◌<◌, false, length, IfErr, IfOk};
ghost use Rattle.std.specs.Io.KnownBytes.{Consumes, IsAtEnd};
ghost use Rattle.program_shell.specs.Reports.{IsReported};

use crate::failure::{Failure, FailureLines};
use crate::reports::{file_error_text, report_failure, report_to};
use crate::statuses::FAILED;
use crate::whole_input::read_whole;
use script_io::{ByteIn, ByteOut};
use std::alloc::Global;
use std::fs;
use std::rt::Files;

/// The bytes of a file; or, where it cannot be read, the exit status for that, which is reported in a line that begins
/// with `head`.
pub fn read_file<F: Files + AllocGlobal, E: ByteOut>(
    rt: &F,
    head: &str,
    file: &str,
    lines: &FailureLines,
    errors: &mut E,
) -> Result<Vec<u8>, u8>
    requires { E.has_failed errors.old ≡ false }
    ensures sound { IfOk result (λ _. E.has_failed errors.new ≡ false) }
    ensures quiet { IfOk result (λ _. E.written errors.new ≡ E.written errors.old) }
    ensures unread { IfErr result (λ status. IsReported (E.written errors.old) (E.written errors.new) (E.has_failed errors.new) status) }
{
    let error = match fs::read(rt, file) {
        Ok(bytes) => return Ok(bytes),
        Err(error) => error,
    };
    match file_error_text(rt.alloc(), head, file, error) {
        Ok(text) => Err(report_to(errors, text.as_str().as_bytes(), FAILED)),
        Err(_) => Err(report_failure(errors, lines, Failure::Memory)),
    }
}

/// The bytes of an input, as `read_whole` gives them; or, where they cannot be read, the exit status for that, which is
/// reported.
pub fn read_input<R: ByteIn, E: ByteOut>(
    alloc: Global,
    reader: &mut R,
    most: usize,
    lines: &FailureLines,
    errors: &mut E,
) -> Result<Vec<u8>, u8>
    requires reader_sound { R.has_failed reader.old ≡ false }
    requires errors_sound { E.has_failed errors.old ≡ false }
    ensures consumed { IfOk result (λ bytes. Consumes (R.to_come reader.old) (R.to_come reader.new) bytes.items) }
    ensures end { IfOk result (λ bytes. length bytes.items < most → IsAtEnd (R.to_come reader.new)) }
    ensures sound { IfOk result (λ _. E.has_failed errors.new ≡ false) }
    ensures quiet { IfOk result (λ _. E.written errors.new ≡ E.written errors.old) }
    ensures unread { IfErr result (λ status. IsReported (E.written errors.old) (E.written errors.new) (E.has_failed errors.new) status) }
{
    match read_whole(alloc, reader, most) {
        Ok(bytes) => Ok(bytes),
        Err(failure) => Err(report_failure(errors, lines, failure)),
    }
}
