//! What is wrong with a refused line of a script of `lockmon queue` or `lockmon run`, in words for a person: worked out from
//! the line alone.
#![tactic(auto)]

ghost use Rattle.std.specs.Prelude.{◌≤◌, ◌+◌, length};

mod commands;
mod run_lines;

use queue_faults::Fault;
use std::alloc::{AllocError, Global};

/// Whose line was refused.
#[derive(Clone, Copy, Debug, PartialEq, Eq)]
pub enum Refused {
    /// A script of `lockmon queue`: the line is not in its grammar.
    Queue,
    /// A script of `lockmon run`: the line is not in its grammar, or there is no image of its name.
    Run,
}

/// The text for a script that ends before ENDASM.
pub const NO_ENDASM: &str = "the input ends before ENDASM";

/// Says what is wrong with a line, which has no line end, and in which column where that is known. It fails only where there
/// is no memory.
pub fn explain(alloc: Global, refused: Refused, line: &[u8]) -> Result<String, AllocError> {
    match refused {
        Refused::Queue => queue_faults::explain(alloc, line),
        Refused::Run => explain_run(alloc, line),
    }
}

fn explain_run(alloc: Global, line: &[u8]) -> Result<String, AllocError> {
    let fault = fault_of(line);
    format!(in alloc; "{fault}")
}

fn fault_of(line: &[u8]) -> Fault<'_>
    ensures { result.column ≤ length line.now + 1 }
{
    run_lines::fault_of(line).within(line.len())
}
