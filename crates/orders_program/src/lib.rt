//! The whole program `orders`: programs in every order in which their turns can come one after another.
#![tactic(auto)]

mod arguments;
mod calls;
mod ends;
mod following;
mod loading;
mod looking;
mod options;
mod program;
mod recording;
mod refusals;
mod spots;
mod texts;

pub use arguments::read_arguments;
pub use options::Options;
pub use program::{FAILURE_LINES, orders};
