//! The whole program `lockmon` over any ports: its command line, what it serves, and what it reports of a line that is
//! refused.
#![tactic(auto)]

mod arguments;
mod commands;
mod fault_reports;
mod kept;
mod lines;
mod serving;
mod texts;

pub use arguments::choice;
pub use commands::Choice;
pub use fault_reports::language_of;
pub use kept::KeptIn;
pub use lines::{Language, Lines};
pub use program_shell::{DONE, FAILED, REFUSED, Refusal, USAGE};
pub use serving::{program, program_reporting, unread_arguments};
