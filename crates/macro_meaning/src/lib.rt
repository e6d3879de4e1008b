//! What a source of MACRO-10 means.
#![tactic(auto)]

mod early;
mod openings;
mod scopes;
mod sources;
mod steps;
mod walk;

pub use scopes::Table;
pub use sources::is_meant;
