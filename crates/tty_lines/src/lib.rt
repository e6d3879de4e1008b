//! Terminal lines: for each, the characters that were typed and not yet read, and those that were
//! put out and not yet taken.
#![tactic(auto)]

mod char7;
mod line;
mod line_error;
mod line_number;
mod lines;
mod taken_text;

pub use char7::Char7;
pub use line_error::LineError;
pub use line_number::LineNumber;
pub use lines::Lines;
pub use taken_text::TakenText;
