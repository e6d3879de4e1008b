//! Why the lock queue refuses a call, and who stands in the way of a request that waits.
#![tactic(auto)]

mod causes;
mod faults;
mod meetings;
mod reasons;
mod ways;

pub use causes::{Cause, cause_of};
pub use meetings::{Present, Rule};
pub use reasons::{Met, Reason, count_of, reason_of};
pub use ways::{first_unfit, way_of};
