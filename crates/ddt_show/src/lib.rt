//! What the debugger shows: words, addresses, jobs, registers, requests for locks, and the help.
#![tactic(auto)]

mod addresses;
mod help;
mod jobs;
mod refusals;
mod registers;
mod requests;
mod word_text;

pub use addresses::{ShownJob, address_line, address_text, next_address, previous_address};
pub use help::add_help;
pub use jobs::job_line;
pub use refusals::refuse;
pub use registers::register_lines;
pub use requests::{lock_lines, wait_lines};
pub use word_text::{WordText, change_text, word_line};
