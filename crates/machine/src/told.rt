//! What a job's turn makes known.

use lock_queue::LockReply;
use uuo_calls::{Asked, MonitorCall};
use word36::Address;

/// What a job's turn makes known, from the parts that decide it. The block of a lock call is left in a `BlockRoom`.
#[derive(Drop)]
pub struct Told {
    /// The number of the job.
    pub job: u8,
    /// Its PC behind the instruction: where a call that does not skip goes on. At an interrupt its handler.
    pub next: Address,
    /// The monitor call that it made, if it made one.
    pub call: Option<MonitorCall>,
    /// What it asked by that, if that is a lock call.
    pub asked: Option<Asked>,
    /// What it was answered, if that is a lock call.
    pub reply: Option<LockReply>,
}
