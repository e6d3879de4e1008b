//! The grants that a call makes, and which jobs are notified of them.
ghost use Rattle.std.specs.Prelude.{◌≡◌};
ghost use Rattle.lock_queue.specs.Grants.{is_notified_of, grant_of};

use crate::{EnqueueKind, Request, RequestId};
use arrayvec::ArrayVec;
use word36::MOST_REQUESTS;

/// A request that was not granted before a call and is granted after it.
#[derive(Clone, Copy, Debug, PartialEq, Eq)]
pub struct Grant {
    /// Whose request it is.
    pub job: u8,
    /// The number that the job gave it.
    pub id: RequestId,
}

/// The grants that a call makes, in order of arrival of their requests.
pub type Woken = ArrayVec<Grant, MOST_REQUESTS>;

/// A grant to job 0: what the unused elements of a `Woken` hold.
impl Default for Grant {
    ghost is_default = { λ grant. grant ≡ record { job = 0; id = 0 } };

    fn default() -> Self {
        Grant {
            job: 0,
            id: RequestId::new(0),
        }
    }
}

/// Whether a job is notified of the grant of a request of this kind: of one that waits or interrupts.
pub fn is_notified_of(kind: EnqueueKind) -> bool
    ensures { result ≡ is_notified_of kind }
{
    match kind {
        EnqueueKind::Blocking | EnqueueKind::Interrupt => true,
        EnqueueKind::AtOnce => false,
    }
}

/// A request's job and id, as a grant.
pub fn grant_of(r: &Request) -> Grant
    ensures { result ≡ grant_of r.now }
{
    Grant {
        job: r.job,
        id: r.id,
    }
}
