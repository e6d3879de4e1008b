//! Scripts on the lock queue, and their transcripts: the language of `lockmon queue`.
#![tactic(auto)]

mod call_room;
mod call_wants;
mod commands;
mod locks;
mod options;
mod printing;
mod queue_scripts;
mod wait_pairs;

pub use call_room::CallRoom;
pub use commands::{Command, read_command};
pub use locks::{CODE_DIGITS, MOST_CODE};
pub use options::{MOST_HALF, MOST_LEVEL, read_half};
pub use printing::{push_code, push_request};
pub use queue_scripts::{QueueService, push_requests, serve_queue};
pub use wait_pairs::push_waits;
