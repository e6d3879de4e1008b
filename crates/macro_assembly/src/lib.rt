//! Reads a source of MACRO-10: expressions, macros, conditions, repetitions, statements, and the two passes.
#![tactic(auto)]

mod brackets;
mod calls;
mod dispatch;
mod elements;
mod instructions;
mod numbers;
mod operators;
mod passes;
mod pseudo;
mod statements;
mod steps;
mod terms;

pub use passes::{assemble, assemble_up_to};
