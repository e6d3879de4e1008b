//! The standard streams and the files of the host.

use crate::answers::Answers;
use crate::failure::Failure;
use crate::host::{Host, Stream};
use crate::line_reader::{LineReader, NextLine};
use crate::whole_file::write_whole;
use script_io::{Failed, HostIn, HostOut, StdReader, StdWriter};
use std::fs;
use std::io::{self, Stderr, Stdin, Stdout};

/// The standard streams and the files of the host.
#[derive(Drop)]
pub struct Terminal<'a> {
    /// The files.
    pub rt: &'a HostRuntime,
    /// Whether a person types the lines.
    pub is_person: bool,
    /// Standard input, by lines.
    pub input: LineReader<HostIn<StdReader<Stdin>>>,
    /// Standard output.
    pub output: Answers<HostOut<StdWriter<Stdout>>>,
    /// Standard error.
    pub errors: Answers<HostOut<StdWriter<Stderr>>>,
}

impl Host for Terminal<'_> {
    fn is_person(&self) -> bool {
        self.is_person
    }

    fn next_text(&mut self, line: &mut Vec<u8>) -> Result<bool, Failure> {
        self.input.next_text(line)
    }

    fn next_line(&mut self, line: &mut Vec<u8>) -> Result<NextLine, Failure> {
        self.input.next_line(line)
    }

    fn has_ended(&self) -> bool {
        self.input.has_ended()
    }

    fn write(&mut self, stream: Stream, bytes: &[u8]) -> Result<(), Failed> {
        match stream {
            Stream::Output => self.output.write(bytes),
            Stream::Errors => self.errors.write(bytes),
        }
    }

    fn read_file(&self, file: &str) -> io::Result<Vec<u8>> {
        fs::read(self.rt, file)
    }

    fn write_file(&mut self, file: &str, bytes: &[u8]) -> io::Result<()> {
        write_whole(self.rt, file, bytes)
    }
}
