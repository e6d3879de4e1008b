//! What is reported of a run, as facts: how jobs ended, and where a line of the input is typed.
#![tactic(auto)]

mod standing;
mod statuses;
mod typing;

pub use standing::{Cut, RunOutcome, Standing, has_ended_well, status_of};
pub use statuses::{CIRCLE, CUT, DONE, FAULT, REFUSED, UNASKED_CUT};
pub use typing::{Target, target_of};
