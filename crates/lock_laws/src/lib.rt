//! The safety of the lock queue over every list of calls.
#![tactic(auto)]

mod laws;
mod runs;

pub use laws::{
    askers_are_told_alike, calls_are_safe, calls_leave_the_rest, circles_are_told,
    jobs_keep_their_locks, no_requests_are_safe, owners_are_kept, owners_are_one_party,
    plain_jobs_make_no_circle, queue_without_groups_is_simple, safety_is_kept, waits_are_by_latest,
    waits_are_kept, well_formedness_is_kept,
};
pub use runs::run_safely;
