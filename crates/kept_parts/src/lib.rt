//! Parts of states of a machine, as a search keeps them: slots of jobs and requests, which can be compared and hashed.
#![tactic(auto)]

mod digests;
mod requests;
mod slots;

pub use requests::KeptRequest;
pub use slots::KeptSlot;
