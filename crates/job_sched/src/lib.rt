//! Jobs, the table of all jobs, and the scheduler.
#![tactic(auto)]

mod job;
mod job_error;
mod laws;
mod table;
mod time_of_day;

pub use job::{Interrupts, Job, NO_FLAGS, NO_INTERRUPTS, Stop, Wait};
pub use job_error::JobError;
pub use laws::{alone_means_no_other_is_ready, idle_means_none_is_ready, next_is_ready};
pub use table::{JOB_SLOTS, JobTable};
pub use time_of_day::{TICKS_A_DAY, TICKS_A_SECOND, TimeOfDay};
