//! A machine with all that has happened to it, whose steps can be taken back, and runs of it up to a stop.
#![tactic(auto)]

mod entries;
mod laws;
mod recording;
mod stops;
mod timeline;

pub use entries::{Entry, perform, play};
pub use laws::going_back_loses_nothing;
pub use recording::push_past;
pub use stops::{
    NoWatch, Run, StopCondition, Watch, WatchedStop, round, run_until, some_go_on, stands_at,
};
pub use timeline::{Timeline, let_go};
