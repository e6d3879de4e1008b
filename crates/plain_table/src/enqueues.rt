//! Why a request that arrives is refused.
ghost use Rattle.std.specs.Prelude.{◌≡◌, [], length, nat_le};
ghost use Rattle.std.specs.List.{list_all, list_any};
ghost use Rattle.lock_queue.specs.Enqueues.{are_alike, enqueue_fault, some_too_low, enqueue_refusal};
ghost use Rattle.lock_queue.specs.Outcomes.{first_refusal};
ghost use Rattle.lock_queue.specs.Queue.{wants_at, requests_of, wants_of};

use crate::jobs::has_want;
use lock_queue::steps::{are_alike_in, names_key, reach_level};
use lock_queue::{Asking, EnqueueKind, Level, Refusal, Request, Want};

/// Whether the present wants of a want's key have its level and its pool's size.
fn are_all_alike(requests: &[Request], w: &Want) -> bool
    ensures { result ≡ list_all (λ v. are_alike v w.now) (wants_at requests.now w.now.key) }
{
    for r in requests {
        if !are_alike_in(r.wants.as_slice(), w) {
            return false;
        }
    }
    true
}

/// Why a want is refused that comes after the call's earlier ones.
fn fault_of(requests: &[Request], job: u8, earlier: &[Want], w: &Want) -> Option<Refusal>
    ensures { result ≡ enqueue_fault requests.now job earlier.now w.now }
{
    if !are_all_alike(requests, w) {
        Some(Refusal::Differs)
    } else if names_key(earlier, &w.key) || has_want(requests, job, &w.key) {
        Some(Refusal::NamedAlready)
    } else {
        None
    }
}

/// Why the first refused want of a call is refused.
fn first_fault(requests: &[Request], job: u8, wants: &[Want]) -> Option<Refusal>
    ensures { result ≡ first_refusal (enqueue_fault requests.now job) [] wants.now }
{
    for (i, w) in wants.iter().enumerate() {
        let fault = fault_of(requests, job, &wants[..i], w);
        if fault.is_some() {
            return fault;
        }
    }
    None
}

/// Whether a present want of the job has this level or a higher one.
fn job_reaches_level(requests: &[Request], job: u8, level: Level) -> bool
    ensures { result ≡ list_any (λ v. nat_le level v.level) (wants_of requests.now job) }
{
    for r in requests {
        if r.job == job && reach_level(r.wants.as_slice(), level) {
            return true;
        }
    }
    false
}

/// Whether a want without bypass has a level that is not above those of the call's wants before it
/// and of all present wants of the job.
fn are_out_of_order(requests: &[Request], job: u8, wants: &[Want]) -> bool
    ensures { result ≡ some_too_low (wants_of requests.now job) wants.now }
{
    for (i, w) in wants.iter().enumerate() {
        if !w.bypass
            && (job_reaches_level(requests, job, w.level) || reach_level(&wants[..i], w.level))
        {
            return true;
        }
    }
    false
}

/// How many requests the job has.
fn count_of(requests: &[Request], job: u8) -> usize
    ensures { result ≡ length (requests_of requests.now job) }
{
    let mut count = 0;
    for r in requests {
        if r.job == job {
            count += 1;
        }
    }
    count
}

/// Why a request is refused, if it is: first lock by lock, then for its levels, then since the job has no
/// interrupt vector, then since it has as many requests as it may have, then since the table is full.
pub fn refusal_of_enqueue(
    requests: &[Request],
    size: usize,
    job: u8,
    asking: &Asking,
    wants: &[Want],
) -> Option<Refusal>
    ensures { result ≡ enqueue_refusal size requests.now job asking.now wants.now }
{
    let fault = first_fault(requests, job, wants);
    if fault.is_some() {
        fault
    } else if are_out_of_order(requests, job, wants) {
        Some(Refusal::LevelOrder)
    } else if matches!(asking.kind, EnqueueKind::Interrupt) && !asking.armed {
        Some(Refusal::NoVector)
    } else if count_of(requests, job) >= asking.quota as usize {
        Some(Refusal::OverQuota)
    } else if requests.len() >= size {
        Some(Refusal::QueueFull)
    } else {
        None
    }
}
