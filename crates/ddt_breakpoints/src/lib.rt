//! The breakpoints of the debugger: how many there are, and their conditions.
#![tactic(auto)]

mod conditions;

pub use conditions::{Comparison, Condition};

/// How many breakpoints there are.
pub const BREAKPOINTS: usize = 8;
