//! The facts of a run.

use call_block::Block;
use job_sched::Stop;
use lock_queue::{LockReply, Refusal, Request, RequestId};
use uuo_calls::Asked;
use word36::Address;

/// A lock call that a job has made.
#[derive(Drop)]
pub struct Called {
    /// The number of the job.
    pub job: u8,
    /// Its PC behind the call.
    pub next: Address,
    /// Which call it is, and what it asks.
    pub asked: Asked,
    /// The block that it reads, or the first refusal of that; `None` where it reads none.
    pub block: Option<Result<Block, Refusal>>,
    /// What it was answered.
    pub reply: LockReply,
}

/// What happens to the locks and the jobs of a machine.
#[derive(Drop)]
pub enum Fact {
    /// A job made a lock call.
    Called(Called),
    /// A request that waited is gone, by a step or an operator's event, and was not granted.
    Left(Request),
    /// A request that waited is granted.
    Granted(Request),
    /// The limit of a job's wait ended, and with it this request of the job.
    LimitEnded(u8, Option<RequestId>),
    /// A job began to wait, and closed a circle of waits with that.
    CircleClosed(u8),
    /// A job is stopped.
    Stopped(u8, Stop),
    /// A job has logged out.
    LoggedOut(u8),
}
