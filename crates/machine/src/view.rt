//! What there is to see of a job.

use job_sched::{Stop, Wait};
use ka_state::Flags;
use tty_lines::LineNumber;
use word36::Address;

/// What there is to see of a job, besides its memory.
#[derive(Clone, Copy, Debug, PartialEq, Eq)]
pub struct JobView {
    /// Its terminal line.
    pub line: LineNumber,
    /// The blocks of its core, of 1024 words each.
    pub blocks: u32,
    /// Its PC.
    pub pc: Address,
    /// Its flags, which its instructions change.
    pub flags: Flags,
    /// Why it is stopped, if it is.
    pub stop: Option<Stop>,
    /// What it waits for; none where its wait holds no longer.
    pub wait: Wait,
}
