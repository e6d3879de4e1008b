//! A run of programs as a script of `lockmon run`, in which the same events happen.
#![tactic(auto)]

mod happened;
mod pieces;
mod quoting;
mod scripts;
mod sequence;

pub use happened::RunEvent;
pub use pieces::{MOST_ROUNDS, MOST_TYPED, Piece};
pub use quoting::{Unquotable, UnquotableLine, unquotable_line};
pub use scripts::{push_end, push_head, push_pieces, push_program};
pub use sequence::EventSequence;
