//! What names stand for in MACRO-10 where a source gives them no meaning of its own.
#![tactic(auto)]

mod kinds;
mod tables;

pub use kinds::{BuiltIn, Operation, Pseudo, Test};
pub use tables::{DIALECT, SUBSET, built_in, of_dialect, of_others, of_subset, of_uuosym};
