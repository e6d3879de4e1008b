//! What the manuals of the KA10, of TOPS-10 and of MACRO-10 have and is not here, by name, and what is instead.
#![tactic(auto)]

mod reasons;
mod tables;
mod words;

pub use reasons::Reason;
pub use tables::{LEFT_OUT, left_out};
pub use words::{Operands, OtherOperation, name_of, other_of};
