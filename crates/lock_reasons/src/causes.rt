//! Why a job's call is not done, or not granted, at once.
ghost use Rattle.std.specs.Prelude.{◌≡◌, IfOk, Some, is_some, not, option_map};
ghost use Rattle.lock_queue.specs.Calls.{outcome_of};
ghost use Rattle.lock_reasons.specs.Causes.{as_cause, cause_for, cause_of, is_done, unfit_cause, unfit_in};

use crate::meetings::Present;
use crate::reasons::{Reason, reason_of};
use crate::ways::{first_unfit, way_of};
use lock_queue::{LockCall, Request, Want};
use std::alloc::{AllocError, Global};

/// Why a job's call is not done, or not granted, at once.
#[derive(Drop)]
pub enum Cause {
    /// The call is refused.
    Refused(Reason),
    /// This want of the call does not fit behind the requests in the queue, and these wants stand in its way.
    InTheWay(Want, Vec<Present>),
}

/// The first want of a call that does not fit behind the requests, where it asks for locks.
fn unfit_in(requests: &[Request], call: &LockCall) -> Option<Want>
    ensures { result ≡ unfit_in requests.now call.now }
{
    match call {
        LockCall::Enqueue { wants, .. } => first_unfit(requests, wants.as_slice()),
        _ => None,
    }
}

/// The cause where a want does not fit.
fn unfit_cause(alloc: Global, requests: &[Request], want: Want) -> Result<Option<Cause>, AllocError>
    ensures { IfOk result (λ cause. option_map as_cause cause ≡ Some (unfit_cause requests.now want)) }
{
    let way = way_of(alloc, requests, &want)?;
    Ok(Some(Cause::InTheWay(want, way)))
}

/// The cause of a call, by the reason for which it is refused, if it is.
fn cause_for(
    alloc: Global,
    requests: &[Request],
    call: &LockCall,
    reason: Option<Reason>,
) -> Result<Option<Cause>, AllocError>
    ensures { IfOk result (λ cause. option_map as_cause cause ≡ cause_for requests.now call.now reason) }
{
    match reason {
        Some(Reason::NotGranted(want)) => unfit_cause(alloc, requests, want),
        Some(reason) => Ok(Some(Cause::Refused(reason))),
        None => match unfit_in(requests, call) {
            Some(want) => unfit_cause(alloc, requests, want),
            None => Ok(None),
        },
    }
}

/// Why a job's call is not done, or not granted, at once, on a queue of some size that has these requests; None where it
/// is. A request that is not granted at once has the first want that does not fit, and who stands in its way.
pub fn cause_of(
    alloc: Global,
    size: usize,
    requests: &[Request],
    job: u8,
    call: &LockCall,
) -> Result<Option<Cause>, AllocError>
    ensures cause { IfOk result (λ cause. option_map as_cause cause ≡ cause_of size requests.now job call.now) }
    ensures law { IfOk result (λ cause. is_some cause ≡ not (is_done (outcome_of size requests.now job call.now).reply)) }
{
    let reason = reason_of(alloc, size, requests, job, call)?;
    cause_for(alloc, requests, call, reason)
}
