//! What is wrong with a source of MACRO-10: its letter, and words for a person.
#![tactic(auto)]

mod faults;
mod reports;
mod spellings;
mod words;

pub use faults::Fault;
pub use reports::{Failure, Report, Spot};
pub use words::{push_around_place, push_report, push_words};
