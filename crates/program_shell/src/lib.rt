//! What every program of this project has around it: its command line and its arguments, the lines of an input,
//! answers to them, the standard streams and the files, what it reports as it ends, and its exit statuses.
#![tactic(auto)]

mod answers;
mod arguments;
mod command;
mod failure;
mod host;
mod inputs;
mod line_reader;
mod outputs;
mod pending_text;
mod refusal;
mod reports;
mod statuses;
mod terminal;
mod whole_file;
mod whole_input;

pub use answers::Answers;
pub use arguments::{
    MachineSize, arguments_of, files_in, matches_of, number_of, output_in, size_in,
};
pub use command::{VERSION, make_command, make_flag, make_option, make_top, with_files};
pub use failure::{Failure, FailureLines};
pub use host::{Host, Stream};
pub use inputs::{read_file, read_input};
pub use line_reader::{LineReader, NextLine};
pub use outputs::{NameEnd, OutputFault, output_fault};
pub use pending_text::PendingText;
pub use refusal::{Refusal, RefusalText, Wrong, refusal_of, refusal_text, refused, usage_text};
pub use reports::{
    arguments_or_status, file_error_text, refuse_arguments, report_failure, report_to,
    unread_arguments, write_output,
};
pub use statuses::{DONE, FAILED, REFUSED, USAGE};
pub use terminal::Terminal;
pub use whole_file::write_whole;
pub use whole_input::read_whole;
