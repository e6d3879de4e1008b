//! The first pass of the assembler: where the labels, the statements and the literals of a source stand, and the values of
//! its expressions.
#![tactic(auto)]

mod addresses;
mod error;
mod layout;
mod sums;
mod text_sizes;

pub use addresses::{FIRST, MEMORY_SIZE, clamped};
pub use error::{AsmCode, AsmError};
pub use layout::{Layout, lay_out};
pub use sums::{Labels, Scope, Sum, is_known, short_above, short_residue, short_value, value};
pub use text_sizes::text_words;
