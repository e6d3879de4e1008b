//! Tests of the hardware: words and operations, the processor, both stores of core, terminal lines; and callers of a
//! store of core, by its trait alone.
#![tactic(auto)]

#[cfg(test)]
mod chains;
#[cfg(test)]
mod core_acts;
mod core_jobs;
#[cfg(test)]
mod core_stores;
#[cfg(test)]
mod core_tables;
#[cfg(test)]
mod families;
#[cfg(test)]
mod instructions;
mod slice_core;
#[cfg(test)]
mod terminal_lines;
#[cfg(test)]
mod words;

pub use core_jobs::{
    come_and_go, copy_word, fetch_in, grow, hand_over, log_in, set_blocks, step_beside, step_in,
    write_in,
};
pub use slice_core::SliceCore;
