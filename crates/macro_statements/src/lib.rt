//! The words that a statement of MACRO-10 gives, and what the names in a source say of it.
#![tactic(auto)]

mod brackets;
mod data;
mod forms;
mod instructions;
mod names;
mod words;

pub use brackets::{Brackets, Deeper, Ground};
pub use data::{form_words, inside, meant, words_by, zeros};
pub use forms::{Form, Meant, Test, built_in};
pub use names::{behind_word, first_word, mentions, survey};
