//! Files that are read and written.

use program_shell::{Host, NameEnd, OutputFault, PendingText, file_error_text, output_fault};
use shown_bytes::shown_text;
use std::alloc::{AllocError, Global};

/// The bytes of a file; `None` where it cannot be read, and a line that begins with `head` reports why.
pub fn read_file<H: Host>(
    host: &H,
    head: &str,
    file: &str,
    report: &mut PendingText,
) -> Option<Vec<u8>> {
    match host.read_file(file) {
        Ok(text) => Some(text),
        Err(error) => {
            report.say_made(file_error_text(report.alloc, head, file, error));
            None
        }
    }
}

/// The line on a file that may not be written: `head`, the file's name as it is shown, and why.
fn fault_line(
    alloc: Global,
    head: &str,
    file: &str,
    fault: OutputFault,
) -> Result<String, AllocError> {
    let name = shown_text(alloc, file.as_bytes())?;
    format!(in alloc; "{head}{name}: {fault}\n")
}

/// Writes bytes to a file, whose name has to end so and is that of none of these inputs; where it may not or cannot be written, a
/// line that begins with `head` reports why.
pub fn write_file<H: Host>(
    host: &mut H,
    head: &str,
    (file, end): (&str, NameEnd),
    inputs: &[&str],
    bytes: &[u8],
    report: &mut PendingText,
) {
    if let Some(fault) = output_fault(end, file, inputs) {
        report.say_made(fault_line(report.alloc, head, file, fault));
    } else if let Err(error) = host.write_file(file, bytes) {
        report.say_made(file_error_text(report.alloc, head, file, error));
    }
}
