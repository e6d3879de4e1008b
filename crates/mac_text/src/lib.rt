//! The language of the assembler, a subset of MACRO-10: from the bytes of a source to its statements.
#![tactic(auto)]

mod characters;
mod expressions;
mod fault;
mod keyword;
mod labels;
mod laws;
mod line;
mod numbers;
mod operations;
mod optional;
mod scanner;
mod sequence;
mod source;
mod statements;
mod sum;
mod symbol;
mod syntax;
mod texts;

pub use characters::upper_case;
pub use fault::{ParseError, SyntaxFault, Wanted};
pub use labels::Labels;
pub use laws::{an_example_is_written, written_lines_are_read, written_sources_are_read};
pub use line::is_end;
pub use sequence::Sequence;
pub use source::parse;
pub use sum::{Expression, Parts, Span};
pub use symbol::{Symbol, folded, symbols_tell_names};
pub use syntax::{
    Data, Instruction, Line, Operand, Program, Sign, SignedTerm, Statement, Term, TextForm,
};
