//! Assembles sources for a person: with their labels and the addresses of their literals; and how what is wrong with one is
//! told.
#![tactic(auto)]

mod advice;
mod faults;
mod labels;
mod lines;
mod near_names;
mod places;
mod sources;
mod spots;
mod warnings;

pub use advice::{advice_on_label, advice_on_word};
pub use faults::{ErrorPlace, MOST_REPORTED, push_error, push_more};
pub use labels::{Label, nearest};
pub use near_names::are_near;
pub use places::{Literals, NamedNumber, Places};
pub use sources::{Assembled, Program, Source, Tried, assemble_source, places_in};
pub use spots::Spot;
pub use warnings::warnings_of;
