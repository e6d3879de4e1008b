//! The stream of texts that a source is read as: a stack of texts, each with its position, in which marks stand for
//! arguments.
#![tactic(auto)]

mod bodies;
mod frames;
mod lists;
mod places;
mod stops;
mod stream;
mod texts;

pub use frames::{Arguments, Frame, Kind, Rounds};
pub use places::{Around, Place};
pub use stops::{Limit, Stop};
pub use stream::Stream;
pub use texts::{Item, MARK, Range};
