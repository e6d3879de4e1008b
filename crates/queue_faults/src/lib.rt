//! What is wrong with a refused line of a script of `lockmon queue`, in words for a person: worked out from the line alone.
//! `fault_text` reads lines of other scripts by the same items and tables of commands.
#![tactic(auto)]

ghost use Rattle.std.specs.Prelude.{◌≤◌, ◌+◌, length};

mod commands;
mod fault;
mod items;
mod lines;
mod locks;

pub use commands::{Param, Shape, check_param, check_params, params_of};
pub use fault::{Fault, Range, Reason};
pub use items::{Item, Items, check_blanks, check_form};
use std::alloc::{AllocError, Global};

/// Says what is wrong with a line, which has no line end, and in which column where that is known. It fails only where there
/// is no memory.
pub fn explain(alloc: Global, line: &[u8]) -> Result<String, AllocError> {
    let fault = fault_of(line);
    format!(in alloc; "{fault}")
}

fn fault_of(line: &[u8]) -> Fault<'_>
    ensures { result.column ≤ length line.now + 1 }
{
    lines::fault_of(line).within(line.len())
}
