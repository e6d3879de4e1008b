//! A program as it is loaded into a job.

use crate::Word;

/// A program's words with their addresses, and the address where it starts: plain data, of which
/// nothing is promised here (a login refuses an image with no words, or whose addresses are too
/// large or do not rise).
#[derive(Debug, Drop)]
pub struct Image {
    /// Each word with its address, in the order of the addresses.
    pub words: Vec<(u32, Word)>,
    /// The address of the first instruction.
    pub start: u32,
}
