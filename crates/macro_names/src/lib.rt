//! Names and characters as MACRO-10 reads them.
#![tactic(auto)]

mod characters;
mod names;

pub use characters::{is_blank, is_digit, is_name_character, sixbit_of};
pub use names::{Name, NameReader, text_of};
