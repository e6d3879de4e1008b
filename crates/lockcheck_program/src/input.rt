//! The script that the program reads.
ghost use Rattle.std.specs.Prelude.{◌≡◌, false, is_some, IfErr, IfOk};
ghost use Rattle.lockcheck_program.specs.Runs.{IsScript, IsUnread};

use crate::refusals::report_length;
use crate::serving::FAILURE_LINES;
use program_shell::{read_file, read_whole, report_failure};
use script_io::{ByteIn, ByteOut};
use std::alloc::Global;
use std::rt::Files;

/// A script of so many bytes is refused as one with too many lines.
const MOST_BYTES: usize = 1 << 28;

/// The bytes of the reader; or, where it fails or has too many, the exit status for that, which is reported.
fn read_input<R: ByteIn, E: ByteOut>(
    alloc: Global,
    reader: &mut R,
    errors: &mut E,
) -> Result<Vec<u8>, u8>
    requires reader_sound { R.has_failed reader.old ≡ false }
    requires errors_sound { E.has_failed errors.old ≡ false }
    ensures script { IfOk result (λ script. IsScript false (R.to_come reader.old) (R.to_come reader.new) script.items) }
    ensures sound { IfOk result (λ _. E.has_failed errors.new ≡ false) }
    ensures quiet { IfOk result (λ _. E.written errors.new ≡ E.written errors.old) }
    ensures unread { IfErr result (λ status. IsUnread false (R.to_come reader.old) (R.to_come reader.new)
        (E.written errors.old) (E.written errors.new) (E.has_failed errors.new) status) }
{
    match read_whole(alloc, reader, MOST_BYTES) {
        Ok(script) => {
            if script.len() < MOST_BYTES {
                Ok(script)
            } else {
                Err(report_length(errors))
            }
        }
        Err(failure) => Err(report_failure(errors, &FAILURE_LINES, failure)),
    }
}

/// The script of the file, if one is named, or of the reader; or the exit status where it cannot be read, which is
/// reported.
pub fn read_script<F: Files + AllocGlobal, R: ByteIn, E: ByteOut>(
    rt: &F,
    file: &Option<String>,
    reader: &mut R,
    errors: &mut E,
) -> Result<Vec<u8>, u8>
    requires reader_sound { R.has_failed reader.old ≡ false }
    requires errors_sound { E.has_failed errors.old ≡ false }
    ensures script { IfOk result (λ script. IsScript (is_some file.now) (R.to_come reader.old) (R.to_come reader.new) script.items) }
    ensures sound { IfOk result (λ _. E.has_failed errors.new ≡ false) }
    ensures quiet { IfOk result (λ _. E.written errors.new ≡ E.written errors.old) }
    ensures unread { IfErr result (λ status. IsUnread (is_some file.now) (R.to_come reader.old) (R.to_come reader.new)
        (E.written errors.old) (E.written errors.new) (E.has_failed errors.new) status) }
{
    match file {
        Some(file) => read_file(rt, "lockcheck: ", file.as_str(), &FAILURE_LINES, errors),
        None => read_input(rt.alloc(), reader, errors),
    }
}
