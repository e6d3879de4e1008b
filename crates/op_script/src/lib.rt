//! Scripts on the machine, and their transcripts: the language of `lockmon run`.
#![tactic(auto)]

mod events;
mod heads;
mod images;
mod line_ends;
mod printing;
mod run_scripts;
mod script_state;
mod showing;
mod sources;

pub use heads::{OtherMachine, head_of};
pub use line_ends::{LineEnd, Undone};
pub use monitor::Config;
pub use run_scripts::{obey, serve};
pub use script_state::{Machine, RunState, ScriptState};
