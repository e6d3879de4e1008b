//! The lines of an input, one at a time.
ghost use Rattle.std.specs.Prelude.{◌≡◌, ◌≤◌, length, false, IfOk};
ghost use Rattle.script_io.specs.declared.line_sessions.TheConstants.{LINE_LENGTH};

use crate::failure::Failure;
use script_io::{ByteIn, LINE_LENGTH};
use std::alloc::{AllocError, Global};

/// How many bytes are read at once, at most.
const PIECE: usize = 4096;

/// How many bytes of a line are kept, at most: one more than lines may have, and a CR, which shows whether it is too
/// long.
const MOST_KEPT: usize = LINE_LENGTH + 2;

/// The next line of an input, or what is in its place.
#[derive(Clone, Copy, Debug, PartialEq, Eq)]
pub enum NextLine {
    /// A line.
    Line,
    /// A line that is longer than lines may be. It is passed over.
    TooLong,
    /// The end.
    End,
}

/// A reader that is read line by line, and not again once it ended or failed.
#[derive(Drop)]
pub struct LineReader<R: ByteIn + Drop> {
    reader: R,
    /// The piece that was read last.
    piece: Vec<u8>,
    /// How many bytes of the piece were given out.
    given: usize,
    /// How many bytes of the piece were read.
    filled: usize,
    has_ended: bool,
    ghost sound: { has_ended ≡ false → R.has_failed reader ≡ false },
}

impl<R: ByteIn + Drop> LineReader<R> {
    /// The lines that this reader gives.
    pub fn new(alloc: Global, reader: R) -> Result<Self, AllocError>
        requires { R.has_failed reader ≡ false }
    {
        Ok(LineReader {
            reader,
            piece: vec![in alloc; 0u8; PIECE]?,
            given: 0,
            filled: 0,
            has_ended: false,
        })
    }

    /// Whether no more lines come.
    pub fn has_ended(&self) -> bool {
        self.has_ended
    }

    /// Reads the next piece once the last one was given out; false where there is none.
    fn fill(&mut self) -> Result<bool, Failure> {
        if self.given < self.filled {
            return Ok(true);
        }
        if self.has_ended || self.piece.is_empty() {
            return Ok(false);
        }
        let read = self.reader.read(self.piece.as_mut_slice());
        self.given = 0;
        match read {
            Ok(count) => {
                self.filled = count;
                self.has_ended = count == 0;
                Ok(count > 0)
            }
            Err(_) => {
                self.filled = 0;
                self.has_ended = true;
                Err(Failure::Read)
            }
        }
    }

    /// The next byte, if one comes. Nothing is read while a byte of the last piece is left.
    fn next_byte(&mut self) -> Result<Option<u8>, Failure> {
        if !self.fill()? {
            return Ok(None);
        }
        let byte = self.piece.as_slice().get(self.given).copied();
        self.given = self.given.saturating_add(1);
        Ok(byte)
    }

    /// Puts the next line in place of `line`, without its LF and a CR before that, and no more than its first
    /// `most` bytes; false where no line comes. A last line without LF counts where it is not empty. No byte
    /// behind the LF is waited for.
    fn take_bytes(&mut self, line: &mut Vec<u8>, most: usize) -> Result<bool, Failure> {
        line.clear();
        for _ in 0..u64::MAX {
            match self.next_byte()? {
                None => return Ok(!line.is_empty()),
                Some(b'\n') => {
                    if line.as_slice().last().copied() == Some(b'\r') {
                        line.pop();
                    }
                    return Ok(true);
                }
                Some(byte) if line.len() < most => line.push(byte)?,
                Some(_) => {}
            }
        }
        Ok(false)
    }

    /// Puts the next line, of any length, in place of `line`, without its LF and a CR before that; false where no
    /// line comes. A last line without LF counts where it is not empty. No byte behind the LF is waited for.
    pub fn next_text(&mut self, line: &mut Vec<u8>) -> Result<bool, Failure> {
        self.take_bytes(line, usize::MAX)
    }

    /// Puts the next line in place of `line`, as `next_text` does. Of a line that is too long only a beginning is
    /// put there.
    pub fn next_line(&mut self, line: &mut Vec<u8>) -> Result<NextLine, Failure>
        ensures length { IfOk result (λ next. next ≡ NextLine.Line → length line.new.items ≤ LINE_LENGTH) }
    {
        if !self.take_bytes(line, MOST_KEPT)? {
            return Ok(NextLine::End);
        }
        if line.len() > LINE_LENGTH {
            return Ok(NextLine::TooLong);
        }
        Ok(NextLine::Line)
    }
}
