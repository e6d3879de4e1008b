//! What a file holds as a program: a source in the subset of MACRO-10 or in MACRO-10, or a core image.
#![tactic(auto)]

mod files;
mod from_option;
mod hosts;
mod macro_sources;
mod names;
mod programs;
mod recorded;
mod reports;
mod several;

pub use files::{ProgramFile, inputs_in, read_files};
pub use from_option::{make_from, packing_in};
pub use hosts::{answer_refusal, read_all_files, write_kept, write_pending};
pub use names::is_image_name;
pub use programs::read_program;
pub use recorded::{NotRecorded, are_recordable, not_recorded, push_programs};
pub use several::read_programs;
