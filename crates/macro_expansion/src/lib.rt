//! Texts of MACRO-10: those in brackets and between marks, and the bodies of macros with their arguments.
#![tactic(auto)]

mod arguments;
mod bodies;
mod brackets;
mod calls;
mod comparisons;
mod dummies;
mod irp;
mod texts;

pub use brackets::{bracketed, joins, lined, past_comma, rounds, text_next};
pub use calls::{call, definition};
pub use comparisons::{compared, is_spaces};
pub use irp::elements;
pub use texts::{has_marks, text, up_to_next, with_word};
