//! The assembler: from the bytes of a source to the image of a program.
#![tactic(auto)]

mod assembly;
mod cells;
mod texts;
mod words;

pub use assembly::{Listing, assemble, assemble_with_symbols};
pub use mac_layout::{AsmCode, AsmError};
