//! What expressions of MACRO-10 mean at the front of a text.
#![tactic(auto)]

mod characters;
mod expressions;
mod fault;
mod kinds;
mod known;
mod lines;
mod numbers;
mod operations;
mod operators;
mod reading;
mod symbols;
mod terms;

pub use characters::{
    begins_name, begins_with, blanks_len, ends_line, is_name_character, word_len,
};
pub use expressions::optional;
pub use fault::{BEYOND, Fault, Stop, WRONG};
pub use known::{Known, has_symbol, is_one_of};
pub use numbers::{as_natural, as_word};
pub use operations::{found_in, operation, other_operation};
pub use operators::or_zero;
pub use reading::Reading;
pub use symbols::Defined;
pub use terms::Around;
