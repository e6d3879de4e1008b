//! Wants that are made shared or exclusive.
ghost use Rattle.std.specs.Prelude.{◌≡◌, ◌≤◌, [], length};
ghost use Rattle.std.specs.List.{list_any};
ghost use Rattle.lock_queue.specs.Changes.{modify_fault, with_changes, some_lost};
ghost use Rattle.lock_queue.specs.Outcomes.{first_refusal};
ghost use Rattle.lock_queue.specs.Queue.{is_pooled, wants_at, requests_of};

use crate::jobs::has_want;
use crate::row::Row;
use lock_queue::steps::{changed_wants, is_granted, is_pooled_in, names_key};
use lock_queue::{Key, Refusal, Request, Want};

/// Whether the job has a want of this key that is of a pool.
fn has_pooled(requests: &[Request], job: u8, key: &Key) -> bool
    ensures { result ≡ list_any is_pooled (wants_at (requests_of requests.now job) key.now) }
{
    for r in requests {
        if r.job == job && is_pooled_in(r.wants.as_slice(), key) {
            return true;
        }
    }
    false
}

/// Why a change is refused that comes after the call's earlier ones, whatever would become of the grants.
fn fault_of(requests: &[Request], job: u8, earlier: &[Want], c: &Want) -> Option<Refusal>
    ensures { result ≡ modify_fault requests.now job earlier.now c.now }
{
    if names_key(earlier, &c.key) {
        Some(Refusal::NamedAlready)
    } else if !has_want(requests, job, &c.key) {
        Some(Refusal::NotPresent)
    } else if c.shared && has_pooled(requests, job, &c.key) {
        Some(Refusal::BadPool)
    } else {
        None
    }
}

/// Why the first refused change of a call is refused, whatever would become of the grants.
pub fn refusal_of_modify(requests: &[Request], job: u8, changes: &[Want]) -> Option<Refusal>
    ensures { result ≡ first_refusal (modify_fault requests.now job) [] changes.now }
{
    for (i, c) in changes.iter().enumerate() {
        let fault = fault_of(requests, job, &changes[..i], c);
        if fault.is_some() {
            return fault;
        }
    }
    None
}

/// Writes the requests over those of another row, with the changes made in those of the job.
pub fn write_changed<const REQS: usize>(
    later: &mut Row<REQS>,
    requests: &[Request],
    job: u8,
    changes: &[Want],
)
    requires { length requests.now ≤ REQS }
    ensures { later.new ≡ with_changes requests.now job changes.now }
{
    later.clear();
    for r in requests {
        if r.job == job {
            let wants = changed_wants(changes, &r.wants);
            later.push_like(r, &wants);
        } else {
            later.push_like(r, &r.wants);
        }
    }
}

/// Whether a request that is granted in the first list is not granted in the second.
pub fn is_some_lost(requests: &[Request], later: &[Request]) -> bool
    requires { length requests.now ≡ length later.now }
    ensures { result ≡ some_lost requests.now later.now }
{
    for i in 0..requests.len() {
        let granted = is_granted(&requests[..i], &requests[i]);
        let stays_granted = is_granted(&later[..i], &later[i]);
        if granted && !stays_granted {
            return true;
        }
    }
    false
}
