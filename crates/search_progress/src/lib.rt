//! How far a long search is, as lines for a person who waits.
#![tactic(auto)]

mod progress;

pub use progress::Progress;
