//! Words of floating point.
#![tactic(auto)]

mod words;

pub use words::{FloatFault, MOST_EXPONENT, decimal_float};
