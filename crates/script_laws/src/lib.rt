//! Laws of every script: the lock queue's promises after each line, each number of the manual and the formats stated once as
//! a number, and that printed texts and recorded runs are read back. Each function does nothing: its contract is the law.
#![tactic(auto)]

mod codes;
mod formats;
mod queues;
mod sizes;

pub use codes::{
    fault_codes_of_sources, refusal_codes_of_events, refusal_codes_of_locks, stop_codes,
};
pub use formats::{
    exit_statuses, lines_are_read_back, numbers_of_lines, numbers_of_locks, numbers_of_sources,
    printed_texts_are_read, takes_take_all,
};
pub use queues::{
    lines_keep_owners, requests_are_those_of_the_transcript, scripts_are_safe,
    scripts_make_no_plain_circle,
};
pub use sizes::{
    sizes_of_characters, sizes_of_locks, sizes_of_memory, sizes_of_the_machine, sizes_of_time,
    sizes_of_words,
};
