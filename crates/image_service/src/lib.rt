//! What the program `image` writes for the bytes that it reads.
#![tactic(auto)]

mod commands;
mod endings;
mod faults;
mod laws;
mod listing;
mod not_here;
mod repacking;
mod saving;
mod sourcing;

pub use commands::{Answer, ImageCommand, answer_to};
pub use endings::Ending;
pub use laws::{
    repacked_there_and_back, saved_sources_give_files_back, words_not_here_are_refused,
};
