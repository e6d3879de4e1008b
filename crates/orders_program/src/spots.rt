//! Addresses of jobs, as a person reads them.

use source_labels::{Places, Program, Spot};
use std::fmt;
use word36::Address;

/// An address of a job, by the labels of its program if there is one.
#[derive(Clone, Copy)]
pub struct JobSpot<'a> {
    /// The labels.
    pub places: Option<&'a Places>,
    /// The address.
    pub place: Address,
}

impl fmt::Display for JobSpot<'_> {
    fn fmt<W: fmt::Write>(&self, f: &mut fmt::Formatter<W>) -> fmt::Result {
        let place = self.place;
        match self.places {
            Some(places) => {
                let spot = Spot { places, place };
                write!(f, "{spot}")
            }
            None => write!(f, "{place}"),
        }
    }
}

/// An address of job n, if these are the programs of jobs 1 and on.
pub fn spot_in<'a>(programs: &'a [Program<'a>], n: u8, place: Address) -> JobSpot<'a> {
    let places = match programs.get(usize::from(n).wrapping_sub(1)) {
        Some(program) => Some(&program.places),
        None => None,
    };
    JobSpot { places, place }
}
