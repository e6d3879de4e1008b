//! The processor: one instruction of a KA10 in user mode.
#![tactic(auto)]

mod address;
mod arithmetic;
mod blocks;
mod bytes;
mod conditions;
mod dispatch;
mod halves;
mod instruction;
mod jumps;
mod laws;
mod limits;
mod logic;
mod moves;
mod next;
mod processor;
mod shifts;
mod stacks;

pub use address::find_address;
pub use laws::{address_laws, block_laws, exec_laws, refusal_laws, run_laws, stack_laws, xct_laws};
pub use limits::{MOST_EXECUTES, MOST_LINKS};
pub use next::{executed_word, next_call};
pub use processor::{execute_word, run_steps, run_steps_from, step, step_in_loop};
