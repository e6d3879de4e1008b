//! Why a call is refused.
ghost use Rattle.std.specs.Prelude.{◌≡◌, ◌&&◌, [], IfOk, length, map, nat_le, option_map, not};
ghost use Rattle.std.specs.List.{list_any};
ghost use Rattle.lock_queue.specs.Calls.{outcome_of};
ghost use Rattle.lock_queue.specs.Changes.{changed, with_changes};
ghost use Rattle.lock_queue.specs.Dequeues.{has_id, is_of_job};
ghost use Rattle.lock_queue.specs.Queue.{granted_behind, requests_of};
ghost use Rattle.lock_reasons.specs.Reasons.{enqueue_reason, lost_behind, modify_reason, reason_if, reason_of};
ghost use Rattle.lock_reasons.specs.Reasons.{refusal_in, refusal_of};
ghost use Rattle.lock_reasons.specs.declared.reasons.Reason.TheVariants.{NoRequest, NoRequestOf};

use crate::faults::{Check, first_fault};
use crate::meetings::{Present, Rule};
use crate::ways::first_unfit;
use lock_queue::steps::{changed_wants, is_granted, write_like};
use lock_queue::{Asking, EnqueueKind, LockCall, Request, RequestId, Want};
use std::alloc::{AllocError, Global};

/// The want that a want at fault meets.
#[derive(Drop)]
pub enum Met {
    /// One of the call, before it.
    Earlier(Want),
    /// One in the queue.
    InQueue(Present),
}

/// Why a call is refused.
#[derive(Drop)]
pub enum Reason {
    /// A want of the call meets another one so.
    Meets(Rule, Want, Met),
    /// The job has no want of this one's key (code 12).
    NotPresent(Want),
    /// The job has no request (code 12).
    NoRequest,
    /// The job has no request of this number (code 12).
    NoRequestOf(RequestId),
    /// The job has no interrupt vector (code 15).
    NoVector,
    /// The job has as many requests as this, its quota, or more (code 16).
    OverQuota(u16),
    /// The queue has as many requests as this, its size (code 14).
    QueueFull(usize),
    /// This want does not fit behind the requests in the queue, and the request does not wait (code 1).
    NotGranted(Want),
    /// The request of this job and this number would lose its grant (code 13).
    WouldLose(u8, RequestId),
}

/// How many requests a job has.
pub fn count_of(requests: &[Request], job: u8) -> usize
    ensures { result ≡ length (requests_of requests.now job) }
{
    let mut count = 0;
    for r in requests {
        if r.job == job {
            count += 1;
        }
    }
    count
}

/// Why a request of this number of them, all right in themselves, is refused.
fn enqueue_reason(
    size: usize,
    requests: &[Request],
    job: u8,
    asking: &Asking,
    wants: &[Want],
) -> Option<Reason>
    ensures { result ≡ enqueue_reason size requests.now job asking.now wants.now }
{
    if let Some(reason) = first_fault(Check::Request, requests, job, wants) {
        return Some(reason);
    }
    if let Some(reason) = first_fault(Check::Levels, requests, job, wants) {
        return Some(reason);
    }
    if matches!(asking.kind, EnqueueKind::Interrupt) && !asking.armed {
        return Some(Reason::NoVector);
    }
    if usize::from(asking.quota) <= count_of(requests, job) {
        return Some(Reason::OverQuota(asking.quota));
    }
    if size <= requests.len() {
        return Some(Reason::QueueFull(size));
    }
    if matches!(asking.kind, EnqueueKind::Blocking) {
        return None;
    }
    match first_unfit(requests, wants) {
        Some(w) => Some(Reason::NotGranted(w)),
        None => None,
    }
}

/// A request of the job with its wants changed; another's as it is.
fn changed(r: &Request, job: u8, changes: &[Want]) -> Request
    ensures { result ≡ changed job changes.now r.now }
{
    let mut copy = Request::default();
    if r.job == job {
        let wants = changed_wants(changes, &r.wants);
        write_like(&mut copy, r, &wants);
    } else {
        write_like(&mut copy, r, &r.wants);
    }
    copy
}

/// The requests once the job's wants of the named keys are changed.
fn with_changes(
    alloc: Global,
    requests: &[Request],
    job: u8,
    changes: &[Want],
) -> Result<Vec<Request>, AllocError>
    ensures { IfOk result (λ after. after.items ≡ with_changes requests.now job changes.now) }
{
    let mut after = Vec::new(alloc);
    for r in requests {
        after.push(changed(r, job, changes))?;
    }
    Ok(after)
}

/// Whether a request is granted behind these ones, and is not in its new form behind the new ones.
fn loses_grant(before: &[Request], after: &[Request], r: &Request, changed: &Request) -> bool
    ensures { result ≡ (granted_behind before.now r.now && not (granted_behind after.now changed.now)) }
{
    is_granted(before, r) && !is_granted(after, changed)
}

/// The first request that is granted, and is not in its new form.
fn first_lost(requests: &[Request], after: &[Request]) -> Option<Reason>
    requires { length after.now ≡ length requests.now }
    ensures { result ≡ lost_behind [] [] requests.now after.now }
{
    for (i, r) in requests.iter().enumerate() {
        if loses_grant(&requests[..i], &after[..i], r, &after[i]) {
            return Some(Reason::WouldLose(r.job, r.id));
        }
    }
    None
}

fn modify_reason(
    alloc: Global,
    requests: &[Request],
    job: u8,
    changes: &[Want],
) -> Result<Option<Reason>, AllocError>
    ensures { IfOk result (λ reason. reason ≡ modify_reason requests.now job changes.now) }
{
    if let Some(reason) = first_fault(Check::Change, requests, job, changes) {
        return Ok(Some(reason));
    }
    let after = with_changes(alloc, requests, job, changes)?;
    Ok(first_lost(requests, after.as_slice()))
}

/// Why a job has nothing to give up at once.
fn all_reason(requests: &[Request], job: u8) -> Option<Reason>
    ensures { result ≡ reason_if (not (list_any (is_of_job job) requests.now)) NoRequest }
{
    for r in requests {
        if r.job == job {
            return None;
        }
    }
    Some(Reason::NoRequest)
}

/// Why a job has no request of a number to give up.
fn id_reason(requests: &[Request], job: u8, id: RequestId) -> Option<Reason>
    ensures { result ≡ reason_if (not (list_any (has_id job id) requests.now)) (NoRequestOf id) }
{
    for r in requests {
        if r.job == job && r.id == id {
            return None;
        }
    }
    Some(Reason::NoRequestOf(id))
}

/// Why a job's call is refused, on a queue of some size that has these requests; None where it is not refused. It is
/// the first want at fault in the order in which they are judged, and the first one that it meets: in the queue by
/// order of arrival, or in the call.
pub fn reason_of(
    alloc: Global,
    size: usize,
    requests: &[Request],
    job: u8,
    call: &LockCall,
) -> Result<Option<Reason>, AllocError>
    ensures reason { IfOk result (λ reason. reason ≡ reason_of size requests.now job call.now) }
    ensures law { IfOk result (λ reason.
        option_map refusal_in reason ≡ refusal_of (outcome_of size requests.now job call.now).reply) }
{
    match call {
        LockCall::Enqueue { asking, wants } => {
            Ok(enqueue_reason(size, requests, job, asking, wants.as_slice()))
        }
        LockCall::Modify(wants) => modify_reason(alloc, requests, job, wants.as_slice()),
        LockCall::DequeueNamed(wants) => Ok(first_fault(
            Check::Release,
            requests,
            job,
            wants.as_slice(),
        )),
        LockCall::DequeueAll => Ok(all_reason(requests, job)),
        LockCall::DequeueId(id) => Ok(id_reason(requests, job, *id)),
    }
}
