//! Giving up: why it is refused, and how wants and requests leave.
ghost use Rattle.std.specs.Prelude.{◌≡◌, ◌≤◌, [], not, filter, length, map};
ghost use Rattle.std.specs.List.{list_any};
ghost use Rattle.lock_queue.specs.Dequeues.{dequeue_fault, has_wants, without_keys_of, without_named, is_of_job, has_id};
ghost use Rattle.lock_queue.specs.Jobs.{released};
ghost use Rattle.lock_queue.specs.Outcomes.{first_refusal};

use crate::jobs::has_want;
use crate::row::Row;
use lock_queue::steps::{names_key, remove_keys};
use lock_queue::{Refusal, Request, RequestId, Want};

/// Why a named want is refused that comes after the call's earlier ones.
fn fault_of(requests: &[Request], job: u8, earlier: &[Want], w: &Want) -> Option<Refusal>
    ensures { result ≡ dequeue_fault requests.now job earlier.now w.now }
{
    if names_key(earlier, &w.key) {
        Some(Refusal::NamedAlready)
    } else if !has_want(requests, job, &w.key) {
        Some(Refusal::NotPresent)
    } else {
        None
    }
}

/// Why the first refused want of a call is refused.
pub fn refusal_of_dequeue(requests: &[Request], job: u8, named: &[Want]) -> Option<Refusal>
    ensures { result ≡ first_refusal (dequeue_fault requests.now job) [] named.now }
{
    for (i, w) in named.iter().enumerate() {
        let fault = fault_of(requests, job, &named[..i], w);
        if fault.is_some() {
            return fault;
        }
    }
    None
}

/// Removes the wants of the named keys from the job's requests.
pub fn remove_keys_of(requests: &mut [Request], job: u8, named: &[Want])
    ensures { requests.new ≡ map (without_keys_of job named.now) requests.old }
{
    for r in requests.iter_mut() {
        if r.job == job {
            remove_keys(r, named);
        }
    }
}

/// Removes the requests without wants.
fn remove_empty<const REQS: usize>(row: &mut Row<REQS>)
    ensures value { row.new ≡ filter has_wants row.old }
    ensures few { length row.new ≤ REQS }
{
    for i in (0..row.as_slice().len()).rev() {
        if row.as_slice()[i].wants.is_empty() {
            row.remove(i);
        }
    }
}

/// Removes the wants of the named keys from the job's requests, and then the requests without wants.
pub fn remove_named<const REQS: usize>(row: &mut Row<REQS>, job: u8, named: &[Want])
    ensures value { row.new ≡ without_named row.old job named.now }
    ensures few { length row.new ≤ REQS }
{
    row.remove_keys_of(job, named);
    remove_empty(row);
}

/// Whether there is a request of the job.
pub fn has_request(requests: &[Request], job: u8) -> bool
    ensures { result ≡ list_any (is_of_job job) requests.now }
{
    requests.iter().any(|r| r.job == job)
}

/// Removes the requests of the job.
pub fn remove_job<const REQS: usize>(row: &mut Row<REQS>, job: u8)
    ensures value { row.new ≡ released row.old job }
    ensures few { length row.new ≤ REQS }
{
    for i in (0..row.as_slice().len()).rev() {
        if row.as_slice()[i].job == job {
            row.remove(i);
        }
    }
}

fn has_id(r: &Request, job: u8, id: RequestId) -> bool
    ensures { result ≡ has_id job id r.now }
{
    r.job == job && r.id == id
}

/// Whether there is a request of the job with that id.
pub fn has_request_id(requests: &[Request], job: u8, id: RequestId) -> bool
    ensures { result ≡ list_any (has_id job id) requests.now }
{
    requests.iter().any(|r| has_id(r, job, id))
}

/// Removes the requests of the job with that id.
pub fn remove_id<const REQS: usize>(row: &mut Row<REQS>, job: u8, id: RequestId)
    ensures value { row.new ≡ filter (λ r. not (has_id job id r)) row.old }
    ensures few { length row.new ≤ REQS }
{
    for i in (0..row.as_slice().len()).rev() {
        if has_id(&row.as_slice()[i], job, id) {
            row.remove(i);
        }
    }
}
