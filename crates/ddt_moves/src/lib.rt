//! What the debugger does to the machine: runs up to a stop, starts, and terminals; and what it finds in the steps that were made.
#![tactic(auto)]

mod edits;
mod ends;
mod input;
mod lock_calls;
mod lock_watch;
mod past_steps;
mod replays;
mod run_stops;
mod runs;
mod starts;
mod stop_lists;
mod terminals;
mod turns;
mod visits;

pub use edits::{is_edited, is_executed};
pub use ends::ended_at;
pub use input::{InputLines, line_from};
pub use past_steps::{Turns, last_at, last_turns, last_write};
pub use replays::Replay;
pub use run_stops::{RunStops, StopCause, stops_of};
pub use runs::{RunEnd, run_to};
pub use starts::{begin, cause_at_start, go_on, interrupt, is_stopped, start_jobs};
pub use stop_lists::{Breakpoint, StopList, WatchedWord};
pub use terminals::{take_line, type_line};
pub use turns::{next_instruction, turn_at};
