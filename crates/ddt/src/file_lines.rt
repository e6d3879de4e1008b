//! The lines of a file that is obeyed.

use ddt_moves::line_from;
use program_shell::{NextLine, PendingText};
use script_io::LINE_LENGTH;
use shown_bytes::shown_lines;
use std::alloc::{AllocError, Global};

/// The lines of a file, and how far they were obeyed.
#[derive(Drop)]
pub struct FileLines {
    /// The name of the file as it is shown, while its lines are obeyed.
    file: Option<String>,
    text: Vec<u8>,
    /// The position of the next line in the text.
    next: usize,
}

impl FileLines {
    /// No file.
    pub fn none(alloc: Global) -> Self {
        FileLines {
            file: None,
            text: Vec::new(alloc),
            next: 0,
        }
    }

    /// The lines of a file, whose name is shown so.
    pub fn new(file: String, text: Vec<u8>) -> Self {
        FileLines {
            file: Some(file),
            text,
            next: 0,
        }
    }

    /// The name, as it is shown, of the file whose lines are obeyed, if there is one.
    pub fn file(&self) -> Option<&str> {
        match &self.file {
            Some(file) => Some(file.as_str()),
            None => None,
        }
    }

    /// Puts the next line in place of `line`, and adds it to the answer as it is shown: `* LINE`. At the end of the text no file is
    /// obeyed any longer.
    pub fn next_line(
        &mut self,
        line: &mut Vec<u8>,
        answer: &mut PendingText,
    ) -> Result<NextLine, AllocError> {
        line.clear();
        let Some((next, behind)) = line_from(self.text.as_slice(), self.next) else {
            self.file = None;
            return Ok(NextLine::End);
        };
        self.next = behind;
        line.extend_from_slice(next)?;
        answer.say("* ");
        answer.say_made(shown_lines(answer.alloc, next));
        answer.end_line();
        if line.len() > LINE_LENGTH {
            return Ok(NextLine::TooLong);
        }
        Ok(NextLine::Line)
    }
}
