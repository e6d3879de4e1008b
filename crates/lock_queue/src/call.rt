//! Calls on the queue, and their answers.

use crate::{EnqueueKind, Refusal, RequestId, Wants};

/// What a call says of the request that it enters, beside the locks.
#[derive(Clone, Copy)]
pub struct Asking {
    /// What the request does where it is not granted at once.
    pub kind: EnqueueKind,
    /// The number that the job gives it.
    pub id: RequestId,
    /// Whether the job has an interrupt vector, which a request of kind `Interrupt` needs.
    pub armed: bool,
    /// How many requests the job may have.
    pub quota: u16,
}

/// A call on the queue.
#[derive(Drop)]
pub enum LockCall {
    /// Ask for locks, all together (ENQ. functions 0 to 2).
    Enqueue {
        /// What the call says of the request.
        asking: Asking,
        /// The locks.
        wants: Wants,
    },
    /// Make present wants shared or exclusive (ENQ. function 3).
    Modify(Wants),
    /// Give up the wants of these keys (DEQ. function 0).
    DequeueNamed(Wants),
    /// Give up all wants (DEQ. function 1).
    DequeueAll,
    /// Give up all requests of an id (DEQ. function 2).
    DequeueId(RequestId),
}

/// What a call answers.
#[derive(Clone, Copy, Debug, PartialEq, Eq)]
pub enum LockReply {
    /// All locks of the request are owned.
    Granted,
    /// The job waits for its request.
    Queued,
    /// The change or the release is made.
    Done,
    /// The call is refused and changed nothing; but an interrupt request that is not granted at once
    /// (`NotGranted`) stays in the queue.
    Refused(Refusal),
}
