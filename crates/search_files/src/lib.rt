//! The universal file that SEARCH reads: names of this machine and of its monitor, and macros.
#![tactic(auto)]

mod macros;
mod names;
mod numbers;

pub use macros::MACROS;
pub use names::{has_macro, is_file, job_word, number_of};
