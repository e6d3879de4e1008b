//! What a search of every order of programs found, and the text of its report.
#![tactic(auto)]

mod findings;
mod orders;
mod statuses;
mod text;

pub use findings::{Circle, DataWord, End, EndedJob, Found, GiveUp, Obstacle, Report, Typed};
pub use orders::{JobSteps, OrderPart};
pub use statuses::{CIRCLE, DIFFERS, FAULT, WAITS, status_of};
pub use text::found_text;
