//! The plain lock table: one list of requests, from which every answer is worked out.
#![tactic(auto)]

mod changes;
mod dequeues;
mod enqueues;
mod jobs;
mod plain;
mod row;
mod rows;
mod status;
mod waking;

pub use plain::PlainTable;
