//! Requests for locks.
ghost use Rattle.std.specs.Prelude.{◌≡◌, ◌<◌, ◌^◌};

use crate::Wants;
use std::marker::Model;

/// The number by which a job knows its request, of 18 bits. Several requests may have one number.
#[derive(Clone, Copy, Debug, PartialEq, Eq)]
pub struct RequestId {
    number: u32,
}

impl Model for RequestId {
    ghost use Rattle.std.specs.Prelude.{ℕ, ◌<◌, ◌^◌};

    ghost Value = { ℕ };

    ghost view = { λ i. i.number };

    ghost inverse = { λ n. record { number = n } };

    ghost invariant = { λ i. i.number < 2 ^ 18 };
}

impl RequestId {
    /// The id of this number.
    pub fn new(number: u32) -> Self
        requires { number < 2 ^ 18 }
        ensures { result ≡ number }
    {
        RequestId { number }
    }

    /// The number.
    pub fn number(self) -> u32
        ensures value { result ≡ self }
        ensures below { result < 2 ^ 18 }
    {
        self.number
    }
}

/// What a request does where it is not granted at once.
#[derive(Clone, Copy, Debug, PartialEq, Eq)]
pub enum EnqueueKind {
    /// The job waits for the grant (ENQ. function 0).
    Blocking,
    /// The request does not stay (ENQ. function 1).
    AtOnce,
    /// The job goes on, and an interrupt notifies it of the grant (ENQ. function 2).
    Interrupt,
}

/// A request in the queue.
#[derive(Drop)]
pub struct Request {
    /// Whose it is.
    pub job: u8,
    /// The number that the job gave it.
    pub id: RequestId,
    /// What it does where it is not granted at once.
    pub kind: EnqueueKind,
    /// Whether the job was notified of its grant, where an interrupt does so.
    pub notified: bool,
    /// The locks that it wants, all together.
    pub wants: Wants,
}

/// A request of job 0 without wants: what an unused slot holds.
impl Default for Request {
    ghost use Rattle.std.specs.Prelude.{◌≡◌};
    ghost use Rattle.lock_queue.specs.Unused.{unused_request};

    ghost is_default = { λ r. r ≡ unused_request };

    fn default() -> Self {
        Request {
            job: 0,
            id: RequestId::new(0),
            kind: EnqueueKind::AtOnce,
            notified: false,
            wants: Wants::new(),
        }
    }
}
