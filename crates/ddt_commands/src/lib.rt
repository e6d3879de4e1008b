//! How a typed line becomes a command of the debugger, in the manner of DDT, or what is wrong with it.
#![tactic(auto)]

mod breakpoints;
mod characters;
mod commands;
mod dot_commands;
mod escaped;
mod limits;
mod line_errors;
mod lines;
mod numbers;
mod reader;
mod refusals;
mod spelled;
mod typed_texts;
mod values;

pub use characters::{Codes, ascii_codes, sixbit_codes};
pub use commands::{Command, NewBreakpoint, Opening, OutputMode, Retype, Search, SearchKind};
pub use dot_commands::RUN_STEPS;
pub use line_errors::LineError;
pub use lines::read_line;
pub use numbers::MOST_TIMES;
pub use refusals::CommandError;
pub use spelled::first_character;
pub use values::{Scope, Symbol};
