//! What a program sees of a KA10: the registers and the memory of its job, and what comes of an instruction.
#![tactic(auto)]

mod accumulator;
mod core_words;
mod kept_memory;
mod memory;
mod outcome;
mod registers;

pub use accumulator::Accumulator;
pub use core_words::CoreWords;
pub use kept_memory::{are_legal, are_legal_kept, fetch_kept, is_legal_kept, word_kept};
pub use memory::{JobMemory, ReadMemory, fetch, fetch_code, is_in_core, store, try_store};
pub use outcome::{CallKind, Outcome, StopReason};
pub use registers::{Flags, Regs, flags_of, next_pc_word, pc_word};
