//! Operators on the values of MACRO-10 expressions: whole numbers, and words of 36 bits.
#![tactic(auto)]

mod numbers;
mod operators;
mod whole;
mod words;

pub use numbers::{Number, Numbers};
pub use operators::{Operator, operate};
pub use whole::Whole;
pub use words::{add_halves, divide, half_of, multiply, shift, word_of};
