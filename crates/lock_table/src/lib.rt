//! A lock table that keeps its requests in a slab, with a queue for each key.
#![tactic(auto)]

mod calls;
mod change;
mod depart;
mod dequeues;
mod enqueues;
mod flips;
mod found;
mod indexed;
mod leaving;
mod notifying;
mod queues;
mod readings;
mod refusals;
mod status;
mod steps;
mod table;
mod waking;

pub use indexed::{IndexedTable, ProgramTable};
