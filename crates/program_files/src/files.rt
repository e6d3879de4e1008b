//! The files of programs, as they are named and read.

use crate::names::is_image_name;
use joined_files::{Joined, NamesFault, Part, part_of, push_names};
use program_shell::{Host, PendingText, Wrong, file_error_text};
use shown_bytes::shown_text;
use source_labels::Source;
use std::alloc::{AllocError, Global};

/// What is wrong with a core image among the files of a source.
const IMAGE_IN_SOURCE: &str = "a core image, FILE.sav, is no part of a source";

/// A file with a program, or several files that are a source together.
#[derive(Drop)]
pub struct ProgramFile<'a> {
    /// The name as the argument has it, and the text of all files.
    pub source: Source<'a>,
    /// The files, where there are several.
    pub parts: Vec<Part>,
}

impl ProgramFile<'_> {
    /// The file that a line of the source stands in, and its number there.
    pub fn spot(&self, line: usize) -> (&str, usize) {
        match part_of(self.parts.as_slice(), line) {
            Some(part) => (part.file.as_str(), line.saturating_sub(part.before)),
            None => (self.source.file, line),
        }
    }
}

/// The files that arguments name, each one file or, with `+` between their names, several.
pub fn inputs_in<'a>(alloc: Global, arguments: &[&'a str]) -> Result<Vec<&'a str>, Wrong<'a>> {
    let mut inputs = Vec::new(alloc);
    for argument in arguments {
        let first = inputs.len();
        match push_names(&mut inputs, argument) {
            Ok(()) => (),
            Err(NamesFault::Memory) => return Err(Wrong::Memory),
            Err(fault) => return Err(Wrong::Other(fault.words())),
        }
        let own = inputs.as_slice().get(first..).unwrap_or(&[]);
        if own.len() > 1 && own.iter().any(|name| is_image_name(name)) {
            return Err(Wrong::Other(IMAGE_IN_SOURCE));
        }
    }
    Ok(inputs)
}

/// Adds a file to a source; false where it cannot be read, which is reported in a line that begins with `head`.
fn add_file<H: Host>(
    host: &H,
    head: &str,
    name: &str,
    joined: &mut Joined,
    report: &mut PendingText,
) -> Result<bool, AllocError> {
    let alloc = report.alloc;
    let shown = shown_text(alloc, name.as_bytes())?;
    match host.read_file(name) {
        Ok(text) => {
            joined.add(alloc, shown.as_str(), text.as_slice())?;
            Ok(true)
        }
        Err(error) => {
            report.say_made(file_error_text(alloc, head, shown.as_str(), error));
            Ok(false)
        }
    }
}

/// Reads the files that an argument names; false where one cannot be read, which is reported.
fn join_files<H: Host>(
    host: &H,
    head: &str,
    argument: &str,
    joined: &mut Joined,
    report: &mut PendingText,
) -> Result<bool, AllocError> {
    let mut names = Vec::new(report.alloc);
    if push_names(&mut names, argument).is_err() {
        return Err(AllocError);
    }
    for name in &names {
        if !add_file(host, head, name, joined, report)? {
            return Ok(false);
        }
    }
    Ok(true)
}

/// Reads the files that an argument names, and gives them under a name. None where one cannot be read, which is reported in a line
/// that begins with `head`, or there is no memory.
pub fn read_files<'a, H: Host>(
    host: &H,
    head: &str,
    argument: &str,
    name: &'a str,
    report: &mut PendingText,
) -> Option<ProgramFile<'a>> {
    let mut joined = Joined::new(report.alloc);
    match join_files(host, head, argument, &mut joined, report) {
        Ok(true) => {
            let Joined { text, mut parts } = joined;
            if parts.len() < 2 {
                parts.clear();
            }
            let source = Source { file: name, text };
            Some(ProgramFile { source, parts })
        }
        Ok(false) => None,
        Err(_) => {
            report.fail();
            None
        }
    }
}
