//! The block of a lock call, read from a job's memory: the request id, the limit and the wants, or the first
//! refusal.
#![tactic(auto)]

mod bits;
mod block;
mod laws;
mod name;
mod want;

pub use block::{Block, BlockHead, fill_block, read_block};
pub use laws::{asciz_names_are_read, locks_are_read_in_order};
