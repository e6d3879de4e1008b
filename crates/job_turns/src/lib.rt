//! Turns of jobs in any order, on a machine whose state can be set.
#![tactic(auto)]

mod output;
mod settling;
mod turns;

pub use turns::Turns;
