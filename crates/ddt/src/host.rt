//! What is written at once.

use program_shell::{Failure, Host, PendingText, Stream};
use shown_bytes::shown_lines;

/// Writes an answer, and empties it. Nothing is written where there was no memory for all of it, which is a failure.
pub fn write_answer<H: Host>(host: &mut H, answer: &mut PendingText) -> Result<(), Failure> {
    if !answer.is_whole() {
        return Err(Failure::Memory);
    }
    if host.write(Stream::Output, answer.as_bytes()).is_err() {
        return Err(Failure::Write);
    }
    answer.restart()
}

/// Writes what is reported before the first line to the errors, as lines for a person are shown, and empties it. Nothing is
/// written where there is no memory for all of it, which is a failure.
pub fn write_report<H: Host>(host: &mut H, report: &mut PendingText) -> Result<(), Failure> {
    if !report.is_whole() {
        return Err(Failure::Memory);
    }
    let Ok(text) = shown_lines(report.alloc, report.as_bytes()) else {
        return Err(Failure::Memory);
    };
    if host
        .write(Stream::Errors, text.as_str().as_bytes())
        .is_err()
    {
        return Err(Failure::Write);
    }
    report.restart()
}
