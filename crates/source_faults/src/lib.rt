//! What is wrong with a source of the assembler, in words for a person: what the parser says of its first wrong line, or, where
//! all lines are in the grammar, what their syntax tree shows by the code of the fault.
#![tactic(auto)]

mod explained;
mod misfits;
mod names;
mod of_macro;
mod pieces;
mod reasons;
mod syntax;
mod texts;
mod values;

pub use explained::{explain, explain_code};
