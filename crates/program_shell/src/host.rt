//! What a program that talks with a person asks of the world around it.

use crate::failure::Failure;
use crate::line_reader::NextLine;
use script_io::Failed;
use std::io;

/// Where something is written.
#[derive(Clone, Copy)]
pub enum Stream {
    /// Takes answers, what jobs type out, and the help.
    Output,
    /// Takes the prompt, and what is reported to a person.
    Errors,
}

/// What a program that talks with a person asks of the world around it.
pub trait Host {
    /// Whether a person types the lines, who is to see a prompt.
    fn is_person(&self) -> bool;

    /// Puts the next line of the input, of any length and without its end, in place of `line`; false where none comes.
    fn next_text(&mut self, line: &mut Vec<u8>) -> Result<bool, Failure>;

    /// Puts the next line of the input in place of `line`; of one that is too long only a beginning.
    fn next_line(&mut self, line: &mut Vec<u8>) -> Result<NextLine, Failure>;

    /// Whether no more lines come.
    fn has_ended(&self) -> bool;

    /// Writes all of these bytes, or fails.
    fn write(&mut self, stream: Stream, bytes: &[u8]) -> Result<(), Failed>;

    /// The bytes of a file.
    fn read_file(&self, file: &str) -> io::Result<Vec<u8>>;

    /// Writes bytes to a file, in place of what it had: all of them, or none where that fails.
    fn write_file(&mut self, file: &str, bytes: &[u8]) -> io::Result<()>;
}
