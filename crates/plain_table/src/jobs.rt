//! The requests of one job: what it wants, whether it waits, of which grant it is notified, what leaves.
ghost use Rattle.std.specs.Prelude.{◌≡◌, ◌≤◌, length};
ghost use Rattle.lock_queue.specs.Jobs.{is_waiting_job, withdrawn, withdrawn_all, is_pending, pending, as_notified, job_notified};
ghost use Rattle.lock_queue.specs.Queue.{names, wants_of};

use crate::row::Row;
use lock_queue::steps::{is_blocked, is_blocked_among, is_granted, names_key};
use lock_queue::{EnqueueKind, Key, Request, RequestId};

/// Whether the job has a want of the key.
pub fn has_want(requests: &[Request], job: u8, key: &Key) -> bool
    ensures { result ≡ names (wants_of requests.now job) key.now }
{
    for r in requests {
        if r.job == job && names_key(r.wants.as_slice(), key) {
            return true;
        }
    }
    false
}

/// Whether the job waits by one of its requests.
pub fn is_waiting(requests: &[Request], job: u8) -> bool
    ensures { result ≡ is_waiting_job requests.now job }
{
    for (i, r) in requests.iter().enumerate() {
        if is_blocked(&requests[..i], r, job) {
            return true;
        }
    }
    false
}

/// Takes out the requests by which the job waits. A request is judged by those before it, so it goes from
/// the last to the first.
pub fn remove_blocked<const REQS: usize>(row: &mut Row<REQS>, job: u8)
    ensures value { row.new ≡ withdrawn row.old job }
    ensures few { length row.new ≤ REQS }
{
    for i in (0..row.as_slice().len()).rev() {
        let all = row.as_slice();
        if is_blocked(&all[..i], &all[i], job) {
            row.remove(i);
        }
    }
}

/// Takes out the requests by which some jobs wait: job `j` where bit 2^j of `jobs` is set. A request is
/// judged by those before it, so it goes from the last to the first.
pub fn remove_blocked_among<const REQS: usize>(row: &mut Row<REQS>, jobs: u64)
    ensures value { row.new ≡ withdrawn_all row.old jobs }
    ensures few { length row.new ≤ REQS }
{
    for i in (0..row.as_slice().len()).rev() {
        let all = row.as_slice();
        if is_blocked_among(&all[..i], &all[i], jobs) {
            row.remove(i);
        }
    }
}

fn is_pending(earlier: &[Request], r: &Request, job: u8) -> bool
    ensures { result ≡ is_pending job earlier.now r.now }
{
    r.job == job
        && matches!(r.kind, EnqueueKind::Interrupt)
        && !r.notified
        && is_granted(earlier, r)
}

/// The id of the job's first granted interrupt request of whose grant it was not notified.
pub fn pending_of(requests: &[Request], job: u8) -> Option<RequestId>
    ensures { result ≡ pending requests.now job }
{
    for (i, r) in requests.iter().enumerate() {
        if is_pending(&requests[..i], r, job) {
            return Some(r.id);
        }
    }
    None
}

fn set_notified(r: &mut Request)
    ensures { r.new ≡ as_notified r.old }
{
    r.notified = true;
}

/// Marks the grant of that request as notified.
pub fn mark_notified(requests: &mut [Request], job: u8)
    ensures { requests.new ≡ job_notified requests.old job }
{
    for i in 0..requests.len() {
        let all = &requests[..];
        if is_pending(&all[..i], &all[i], job) {
            set_notified(&mut requests[i]);
            return;
        }
    }
}
