//! Which job keeps another waiting, hard or softly.
ghost use Rattle.std.specs.Prelude.{◌≡◌};
ghost use Rattle.std.specs.List.{list_any};
ghost use Rattle.lock_queue.specs.Jobs.{is_blocked_by, is_in_the_way, is_kept_by, waits_for};
ghost use Rattle.lock_queue.specs.Queue.{chosen, granted_behind, requests_of, wants_at};
ghost use Rattle.lock_queue.specs.Waits.{is_withheld_by, is_withheld_from, waits_hard_for};
ghost use Rattle.wait_graph.specs.LockWaits.{keeps, waits_by};

use lock_queue::steps::{is_blocked, is_fitting, is_granted, some_in_the_way};
use lock_queue::{Request, Want};

/// Whether an earlier want that the job owns is in a want's way.
fn owned_is_in_the_way(earlier: &[Request], w: &Want, owner: u8) -> bool
    ensures { result ≡ list_any (λ v. is_in_the_way v w.now)
        (wants_at (requests_of (chosen granted_behind earlier.now) owner) w.now.key) }
{
    for (i, r) in earlier.iter().enumerate() {
        if r.job == owner
            && is_granted(&earlier[..i], r)
            && some_in_the_way(r.wants.as_slice(), w)
        {
            return true;
        }
    }
    false
}

/// Whether an earlier want of the job, owned or not, is in a want's way.
fn asked_is_in_the_way(earlier: &[Request], w: &Want, other: u8) -> bool
    ensures { result ≡ list_any (λ v. is_in_the_way v w.now)
        (wants_at (requests_of earlier.now other) w.now.key) }
{
    for r in earlier {
        if r.job == other && some_in_the_way(r.wants.as_slice(), w) {
            return true;
        }
    }
    false
}

/// Whether a want does not fit, and one that the owner owns is in its way.
fn is_withheld_by(earlier: &[Request], w: &Want, owner: u8) -> bool
    ensures { result ≡ is_withheld_by owner earlier.now w.now }
{
    !is_fitting(earlier, w) && owned_is_in_the_way(earlier, w, owner)
}

/// Whether a want does not fit, and an earlier one of another job is in its way.
fn is_kept_by(earlier: &[Request], w: &Want, other: u8) -> bool
    ensures { result ≡ is_kept_by other earlier.now w.now }
{
    !is_fitting(earlier, w) && asked_is_in_the_way(earlier, w, other)
}

/// Whether a want does not fit behind earlier requests, and one of another job is in its way. With
/// `is_held` only one that the other job owns counts.
pub fn keeps(earlier: &[Request], w: &Want, other: u8, is_held: bool) -> bool
    ensures { result ≡ keeps is_held earlier.now w.now other }
{
    if is_held {
        is_withheld_by(earlier, w, other)
    } else {
        is_kept_by(earlier, w, other)
    }
}

fn is_some_withheld(earlier: &[Request], wants: &[Want], owner: u8) -> bool
    ensures { result ≡ list_any (is_withheld_by owner earlier.now) wants.now }
{
    wants.iter().any(|w| is_withheld_by(earlier, w, owner))
}

fn is_some_kept(earlier: &[Request], wants: &[Want], other: u8) -> bool
    ensures { result ≡ list_any (is_kept_by other earlier.now) wants.now }
{
    wants.iter().any(|w| is_kept_by(earlier, w, other))
}

fn is_withheld_from(earlier: &[Request], r: &Request, job: u8, owner: u8) -> bool
    ensures { result ≡ is_withheld_from job owner earlier.now r.now }
{
    is_blocked(earlier, r, job) && is_some_withheld(earlier, r.wants.as_slice(), owner)
}

fn is_blocked_by(earlier: &[Request], r: &Request, job: u8, other: u8) -> bool
    ensures { result ≡ is_blocked_by job other earlier.now r.now }
{
    is_blocked(earlier, r, job) && is_some_kept(earlier, r.wants.as_slice(), other)
}

/// Whether the first job waits for a lock that the second owns: it waits hard.
pub fn waits_hard_for(requests: &[Request], job: u8, owner: u8) -> bool
    ensures { result ≡ waits_hard_for requests.now job owner }
{
    for (i, r) in requests.iter().enumerate() {
        if is_withheld_from(&requests[..i], r, job, owner) {
            return true;
        }
    }
    false
}

/// Whether the first job waits for the second, hard or softly.
pub fn waits_for(requests: &[Request], job: u8, other: u8) -> bool
    ensures { result ≡ waits_for requests.now job other }
{
    for (i, r) in requests.iter().enumerate() {
        if is_blocked_by(&requests[..i], r, job, other) {
            return true;
        }
    }
    false
}

/// Whether a job waits for another. With `is_held` only a wait for an owner counts.
pub fn waits_by(requests: &[Request], job: u8, other: u8, is_held: bool) -> bool
    ensures { result ≡ waits_by is_held requests.now job other }
{
    if is_held {
        waits_hard_for(requests, job, other)
    } else {
        waits_for(requests, job, other)
    }
}
