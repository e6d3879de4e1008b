//! What a source defines: symbols, and meanings of names of operations.
#![tactic(auto)]

mod definitions;
mod tables;

pub use definitions::{Definition, DefinitionKind, Dummy, MacroDefinition, Meaning};
pub use tables::{Definitions, Meanings, PlacedWords};
