//! The machine as a whole: it does what each event asks, and is safe at all times.
#![tactic(auto)]

mod copies;
mod cores;
mod deposits;
mod login;
mod next;
mod parts;
mod rounds;
mod runner;
mod system;
mod turn;

pub use copies::{copied, ungranted_in};
pub use deposits::is_complete;
pub use machine::{Answer, Config, Event, JobView, MOST_QUANTUM, RefusedEvent, Told};
pub use next::JobWords;
pub use rounds::Rounds;
pub use system::System;
pub use turn::run_job;
