//! The facts of a run: which lock calls the jobs made and what they were answered, which requests were granted or
//! left, whose limits ended, which circles closed, and which jobs ended.
#![tactic(auto)]

mod facts;
mod grants;
mod laws;
mod runs;
mod steps;
mod ticks;

pub use facts::{Called, Fact};
pub use grants::is_rest_of;
pub use laws::{answers_are_performed, facts_are_the_last};
pub use runs::{RoundsMade, round_facts, rounds_facts, run_to_fact};
pub use steps::step_facts;
pub use ticks::tick_facts;
