//! Scripts of `lockmon queue`, line by line, with the reason of each refusal and each wait; and these reasons in
//! sentences.
#![tactic(auto)]

mod explanations;
mod pages;
mod queue_lines;
mod sentences;

pub use explanations::{Explanation, judge};
pub use pages::{explain_script, push_answers};
pub use queue_lines::{ExplainedLine, explain_lines};
