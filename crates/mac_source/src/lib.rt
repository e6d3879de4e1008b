//! Sources that give images back.
#![tactic(auto)]

mod characters;
mod laws;
mod lines;
mod marks;
mod notes;
mod pieces;
mod reaching;
mod shown;
mod sources;
mod texts;

pub use laws::{
    assembled_images_are_images, labels_tell_their_addresses, sources_assemble,
    sources_of_images_assemble,
};
pub use reaching::reaches_memory;
pub use shown::Shown;
pub use sources::source_of;
