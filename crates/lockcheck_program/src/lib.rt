//! The whole program `lockcheck` over any ports: every order of the calls of a script.
#![tactic(auto)]

mod arguments;
mod copying;
mod input;
mod reading;
mod refusals;
mod report;
mod script_lines;
mod serving;
mod statuses;

pub use arguments::{DEFAULT_STATES, Options};
pub use reading::{ScriptError, read_programs};
pub use report::report_text;
pub use serving::{FAILURE_LINES, check_script, program};
pub use statuses::{CIRCLE, STUCK};
