//! Every order in which jobs can take their turns.
#![tactic(auto)]

mod ends;
mod kept;
mod looking;
mod machines;
mod orders;
mod packing;
mod pages;
mod start;
mod tables;
mod unpacking;

pub use ends::{End, Left, Standing};
pub use kept::KeptState;
pub use looking::{GivenUp, Looked, Reason, Report, Waiting, highest_job, look};
pub use machines::Machine;
pub use orders::{NoRoom, Orders};
pub use pages::{Page, Slot, Text};
pub use start::Start;
pub use tables::{PAGE_WORDS, Tables};
