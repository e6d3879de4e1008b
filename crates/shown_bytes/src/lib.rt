//! Bytes from outside, such as a source's line or the name of a file, as a line for a person shows them; and what is wrong
//! with a line, and where.
#![tactic(auto)]

mod any_fault;
mod pushing;
mod quoted;

pub use any_fault::FaultOf;
pub use pushing::{MOST_SHOWN, push_shown, shown_lines, shown_text, shown_width};
pub use quoted::{Found, NOT_ASCII, Quoted, column_not_ascii};
