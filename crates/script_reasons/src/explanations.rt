//! Why a call is not done, or not granted, at once.
ghost use Rattle.std.specs.Prelude.{◌≡◌, IfOk, option_map};
ghost use Rattle.script_reasons.specs.Explanations.{as_explanation, judged};

use lock_queue::{LockCall, Refusal, Request};
use lock_reasons::{Cause, cause_of};
use std::alloc::{AllocError, Global};
use word36::MOST_REQUESTS;

/// Why a job's call is not done, or not granted, at once.
#[derive(Drop)]
pub enum Explanation {
    /// This job waits, and makes no call.
    Busy(u8),
    /// The call is wrong in itself, and is refused before it is judged.
    Wrong(Refusal),
    /// The queue does not do the call of this job, or does not grant it, for this cause.
    Judged(u8, Cause),
}

/// Why a job's call is not done, or not granted, at once, behind these requests in a queue of the largest size; None where it
/// is.
pub fn judge(
    alloc: Global,
    requests: &[Request],
    job: u8,
    call: &LockCall,
) -> Result<Option<Explanation>, AllocError>
    ensures { IfOk result (λ explanation. option_map as_explanation explanation ≡ judged requests.now job call.now) }
{
    match cause_of(alloc, MOST_REQUESTS, requests, job, call)? {
        Some(cause) => Ok(Some(Explanation::Judged(job, cause))),
        None => Ok(None),
    }
}
