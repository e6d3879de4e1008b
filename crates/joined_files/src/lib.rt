//! Files that are read as one source.
#![tactic(auto)]

mod ends;
mod joined;
mod names;
mod unread;

pub use ends::end_line;
pub use joined::{Joined, Part, part_of};
pub use names::{NamesFault, push_names};
pub use unread::unread_text;
