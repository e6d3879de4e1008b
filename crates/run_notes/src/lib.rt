//! The lines that are reported of a run while it goes on: steps, lock calls and grants, who waits and for how long,
//! and circles of waits.
#![tactic(auto)]

mod circle_lines;
mod fact_lines;
mod flag_names;
mod instructions;
mod job_stops;
mod lock_rows;
mod locks;
mod snapshot;
mod standings;
mod steps;
mod stores;
mod traced_job;
mod wait_clocks;
mod wait_lines;

pub use circle_lines::{circle_line, circle_of, has_circle};
pub use fact_lines::{facts_text, grant_lines};
pub use flag_names::FlagNames;
pub use instructions::{IllegalText, InstructionText, Reference};
pub use job_stops::{login_refusal_text, stop_text};
pub use snapshot::{Snapshot, snapshot_of};
pub use standings::{standing_of, standing_text, standing_text_on};
pub use steps::{step_line, time_limit_line};
pub use traced_job::TracedJob;
pub use wait_clocks::WaitClocks;
