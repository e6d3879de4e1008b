//! Core for the jobs of a machine: each job's words, and the blocks that are free.
#![tactic(auto)]

mod areas;
mod block;
mod moves;
mod plain;
mod rooms;
mod store;

pub use block::BlockCore;
pub use plain::PlainCore;
pub use store::{CoreStore, NoCore};
