//! The next turn of a job, found without taking it: whether others can notice it, and whether it reads the time of day.
#![tactic(auto)]

mod next_turn;

pub use next_turn::{has_limit, is_noticed, reads_clock};
