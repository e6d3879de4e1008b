//! The machine that programs are run on: `System` of `monitor` with one lock table and one core store.
#![tactic(auto)]

mod requests;
mod texts;
mod waits;
mod whole_machine;

pub use whole_machine::Machine;
