//! That the definitions of what a source means compute: sources have the words that were worked out by hand. And what the lines
//! mean that `macro` writes.
#![tactic(auto)]

mod laws;
mod macro_lines;
mod macro_sources;

pub use laws::{example_is_meant, rounds_are_meant, stopped_rounds_are_meant};
pub use macro_lines::{written_numbers_are_taken, written_words_are_put};
pub use macro_sources::{
    readers_of_written_sources_agree, written_example_has_its_image, written_example_is_written,
    written_lines_have_their_image, written_sources_assemble_to_their_images,
    written_sources_mean_their_images,
};
