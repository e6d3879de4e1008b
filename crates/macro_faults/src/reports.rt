//! A fault at its place.

use crate::faults::Fault;
use macro_stream::{Place, Stop};
use std::alloc::{AllocError, AllocFailed};

/// A fault at its place.
#[derive(Clone, Copy)]
pub struct Report {
    /// Where it is.
    pub place: Place,
    /// What is wrong.
    pub fault: Fault,
}

/// Where the line of a fault is told to be.
#[derive(Clone, Copy)]
pub struct Spot<'a> {
    /// The file, where the source has several.
    pub file: Option<&'a str>,
    /// The number of the line.
    pub line: u32,
}

/// Why a statement is not carried out.
#[derive(Clone, Copy)]
pub enum Failure {
    /// There is no memory.
    Memory,
    /// What is wrong with it.
    Reported(Report),
    /// What is wrong with it is reported already.
    Told,
}

impl Failure {
    /// The failure of a fault.
    pub fn of(place: Place, fault: Fault) -> Failure {
        Failure::Reported(Report { place, fault })
    }

    /// The failure of a stream that stops at a place.
    pub fn of_stop(place: Place, stop: Stop) -> Failure {
        match stop {
            Stop::NotAscii => Failure::of(place, Fault::NotAscii),
            Stop::Limit(limit) => Failure::of(place, Fault::Limit(limit)),
            Stop::Memory => Failure::Memory,
        }
    }
}

impl From<AllocError> for Failure {
    fn from(_error: AllocError) -> Failure {
        Failure::Memory
    }
}

impl<T: Drop> From<AllocFailed<T>> for Failure {
    fn from(_error: AllocFailed<T>) -> Failure {
        Failure::Memory
    }
}
