//! The commands of a script of `lockmon run`, read from its lines: what each asks for, the names of programs, and texts as they
//! are typed.
#![tactic(auto)]

mod commands;
mod names;
mod texts;

pub use commands::{Command, MOST_ADDRESS, MOST_EVENTS, MOST_NUMBER, is_command, read_command};
pub use names::{ImageName, NAME_LENGTH};
pub use texts::{TypedText, push_text};
