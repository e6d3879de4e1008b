//! Who holds which lock and who waits for whom, along a script on the lock queue.
#![tactic(auto)]

mod arrows;
mod bars;
mod columns;
mod commands;
mod course;
mod drawing;
mod errors;
mod holds;
mod lanes;
mod names;
mod queue_course;
mod script_lines;
mod scripts;

pub use arrows::Arrow;
pub use bars::{Bar, record_line};
pub use columns::Column;
pub use commands::do_command;
pub use course::Course;
pub use drawing::Drawing;
pub use errors::{MOST_LINES, ScriptError, SourceFault};
pub use holds::{Hold, holds_in};
pub use lanes::{Lane, lanes_of};
pub use names::LockLabel;
pub use script_lines::ScriptLines;
pub use scripts::{draw_script, drawing_of};
