//! A monitor call, and how it ends.

use ka_state::{Accumulator, CallKind};
use lock_queue::LockReply;
use word36::Address;

/// A monitor call, as the processor hands it over.
#[derive(Clone, Copy, Debug, PartialEq, Eq)]
pub struct MonitorCall {
    /// Its operation, CALLI or TTCALL.
    pub kind: CallKind,
    /// Its AC field.
    pub ac: Accumulator,
    /// Its effective address.
    pub e: Address,
}

/// How a call ends.
#[derive(Clone, Copy, Debug, PartialEq, Eq)]
pub enum CallOutcome {
    /// The call is done or refused, or the job is stopped at it.
    Done,
    /// The job begins to wait for its line, and makes the call again later: an empty step.
    Empty,
    /// The job is gone.
    Gone,
}

/// How a call ends, and what it is answered.
#[derive(Clone, Copy)]
pub struct CallEnd {
    /// How it ends.
    pub outcome: CallOutcome,
    /// The answer, if it is a lock call.
    pub reply: Option<LockReply>,
}
