//! Every order of the calls of some jobs.
#![tactic(auto)]

mod answers;
mod circles;
mod desk;
mod kept;
mod lines;
mod normal;
mod orders;
mod packing;
mod programs;
mod stuck;
mod tables;
mod unpacking;
mod verdicts;

pub use answers::{ANSWERS, Answers, WAITS};
pub use circles::{Circle, circle_jobs};
pub use desk::Desk;
pub use kept::{KeptRequest, KeptState, KeptWant, KnownMove};
pub use lines::{Line, MOST_LINES, Step};
pub use orders::{Orders, Seen};
pub use programs::Programs;
pub use stuck::{Stuck, waiting_jobs};
pub use tables::Tables;
pub use verdicts::{Looked, Report, Verdict, all_answers, find_circle, find_stuck, look};
