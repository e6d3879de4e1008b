//! What cuts a program short.

use script_io::Failed;
use std::alloc::{AllocError, AllocFailed};
use std::fmt;

/// What cut a program short.
#[derive(Clone, Copy, Debug, PartialEq, Eq, Drop)]
pub enum Failure {
    /// The input failed.
    Read,
    /// An output failed.
    Write,
    /// There was no memory.
    Memory,
}

impl From<AllocError> for Failure {
    fn from(_error: AllocError) -> Failure {
        Failure::Memory
    }
}

impl<T: Drop> From<AllocFailed<T>> for Failure {
    fn from(_error: AllocFailed<T>) -> Failure {
        Failure::Memory
    }
}

impl From<Failed> for Failure {
    fn from(_error: Failed) -> Failure {
        Failure::Write
    }
}

impl fmt::Display for Failure {
    fn fmt<W: fmt::Write>(&self, f: &mut fmt::Formatter<W>) -> fmt::Result {
        match self {
            Failure::Read => f.write_str("the input cannot be read"),
            Failure::Write => f.write_str("the output cannot be written"),
            Failure::Memory => f.write_str("there is no memory"),
        }
    }
}

/// The lines by which a program reports a failure, each with its line end. They are at hand where there is no memory.
#[derive(Clone, Copy)]
pub struct FailureLines {
    /// For an input that failed.
    pub read: &'static [u8],
    /// For an output that failed.
    pub write: &'static [u8],
    /// For want of memory.
    pub memory: &'static [u8],
}

impl FailureLines {
    /// The line on a failure.
    pub fn of(&self, failure: Failure) -> &'static [u8] {
        match failure {
            Failure::Read => self.read,
            Failure::Write => self.write,
            Failure::Memory => self.memory,
        }
    }
}
