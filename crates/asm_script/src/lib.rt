//! The listing of a source: the language of `lockmon asm`.
#![tactic(auto)]

mod asm_sources;
mod listings;

pub use asm_sources::serve_asm;
pub use listings::{push_asm_fault, source_ending};
