//! Whether a source assembles to an image.
#![tactic(auto)]

mod checks;

pub use checks::assembles_to;
