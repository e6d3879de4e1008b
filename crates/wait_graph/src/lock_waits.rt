//! By which lock a job waits, and who keeps it waiting.
ghost use Rattle.std.specs.Prelude.{◌≡◌, ◌≢◌, ◌≤◌, [], ◌++◌};
ghost use Rattle.std.specs.Prelude.{All, None, Some, true, false, length, take, IfOk, IfSome, OnOk};
ghost use Rattle.std.specs.List.{list_any};
ghost use Rattle.lock_queue.specs.Jobs.{waits_for};
ghost use Rattle.lock_queue.specs.Queue.{some_behind};
ghost use Rattle.lock_queue.specs.Waits.{jobs, waits_hard_for};
ghost use Rattle.wait_graph.specs.LockWaits.{is_kept_from, is_kept_waiting, keeper, keepers, keeps};
ghost use Rattle.wait_graph.specs.LockWaits.{want_at, want_kept, want_waited_for, waits_by, waits_for_owner};

use crate::in_the_way::{keeps, waits_by};
use crate::pairs::NUMBERS;
use lock_queue::steps::is_blocked;
use lock_queue::{Request, Want};
use std::alloc::{AllocError, Global};

/// What a job waits for.
#[derive(Drop)]
pub struct LockWait<'a> {
    /// The position of the request by which it waits, in order of arrival.
    pub position: usize,
    /// The first lock of that request that does not fit, and from which `jobs` keep it.
    pub want: &'a Want,
    /// Whether `jobs` own the lock; else nobody owns what the job waits for, and they asked before it.
    pub is_held: bool,
    /// Who keeps it waiting, by rising number.
    pub jobs: Vec<u8>,
}

/// Whether a job waits for an owner.
fn waits_for_owner(requests: &[Request], job: u8) -> bool
    ensures { result ≡ waits_for_owner requests.now job }
{
    for other in 1..NUMBERS {
        if waits_by(requests, job, other as u8, true) {
            return true;
        }
    }
    false
}

/// Adds a job for which another waits, and which keeps a want from fitting behind earlier requests.
fn push_keeper(
    found: &mut Vec<u8>,
    requests: &[Request],
    job: u8,
    earlier: &[Request],
    w: &Want,
    other: u8,
    is_held: bool,
) -> Result<(), AllocError>
    ensures { OnOk result (found.new.items ≡ found.old.items ++ keeper is_held requests.now job earlier.now w.now other) }
{
    if waits_by(requests, job, other, is_held) && keeps(earlier, w, other, is_held) {
        found.push(other)?;
    }
    Ok(())
}

/// The jobs for which a job waits, and which keep a want from fitting behind earlier requests.
fn keepers(
    alloc: Global,
    requests: &[Request],
    job: u8,
    earlier: &[Request],
    w: &Want,
    is_held: bool,
) -> Result<Vec<u8>, AllocError>
    ensures { IfOk result (λ found. found.items ≡ keepers is_held requests.now job earlier.now w.now) }
{
    let mut found = Vec::new(alloc);
    for other in 1..NUMBERS {
        push_keeper(&mut found, requests, job, earlier, w, other as u8, is_held)?;
    }
    Ok(found)
}

/// What a job waits for by the request at `position`, if it waits by it and other jobs keep it from one of
/// its wants.
fn wait_at<'a>(
    alloc: Global,
    requests: &'a [Request],
    position: usize,
    r: &'a Request,
    job: u8,
) -> Result<Option<LockWait<'a>>, AllocError>
    requires { position ≤ length requests.now }
    ensures held { IfOk result (λ o. IfSome o (λ w. w.is_held ≡ waits_for_owner requests.now job)) }
    ensures some { IfOk result (λ o. IfSome o (λ w. w.jobs.items ≢ [])) }
    ensures position { IfOk result (λ o. IfSome o (λ w. w.position ≡ position)) }
    ensures jobs { IfOk result (λ o. IfSome o (λ w.
        w.jobs.items ≡ keepers w.is_held requests.now job (take position requests.now) w.want.now)) }
    ensures lock { IfOk result (λ o. IfSome o (λ w.
        want_waited_for w.is_held requests.now job (take position requests.now) r.now ≡ Some w.want.now)) }
    ensures none { IfOk result (λ o. o ≡ None
        → is_kept_waiting (waits_for_owner requests.now job) requests.now job (take position requests.now) r.now ≡ false) }
{
    if !is_blocked(&requests[..position], r, job) {
        return Ok(None);
    }
    let is_held = waits_for_owner(requests, job);
    for want in r.wants.as_slice() {
        let jobs = keepers(alloc, requests, job, &requests[..position], want, is_held)?;
        if !jobs.is_empty() {
            return Ok(Some(LockWait {
                position,
                want,
                is_held,
                jobs,
            }));
        }
    }
    Ok(None)
}

/// What a job waits for, if it waits for others: by its first request by which others keep it waiting, and the first
/// lock of this request from which they keep it. The jobs that keep it waiting own the lock where the job
/// waits for any owner; else they asked for the lock before it.
#[tactic(auto, using(crate::proofs::KeeperLemmas::keepers_are_waited_for))]
pub fn lock_wait<'a>(
    alloc: Global,
    requests: &'a [Request],
    job: u8,
) -> Result<Option<LockWait<'a>>, AllocError>
    ensures held { IfOk result (λ o. IfSome o (λ w. w.is_held ≡ waits_for_owner requests.now job)) }
    ensures some { IfOk result (λ o. IfSome o (λ w. w.jobs.items ≢ [])) }
    ensures waits { IfOk result (λ o. IfSome o (λ w. All (λ other. waits_by w.is_held requests.now job other ≡ true) w.jobs.items)) }
    ensures jobs { IfOk result (λ o. IfSome o (λ w.
        w.jobs.items ≡ keepers w.is_held requests.now job (take w.position requests.now) w.want.now)) }
    ensures lock { IfOk result (λ o. IfSome o (λ w.
        want_at (want_waited_for w.is_held requests.now job) requests.now w.position ≡ Some w.want.now)) }
    ensures first { IfOk result (λ o. IfSome o (λ w.
        some_behind (is_kept_waiting w.is_held requests.now job) [] (take w.position requests.now) ≡ false)) }
    ensures none { IfOk result (λ o. o ≡ None → list_any (waits_for requests.now job) jobs ≡ false) }
{
    for (i, r) in requests.iter().enumerate() {
        if let Some(wait) = wait_at(alloc, requests, i, r, job)? {
            return Ok(Some(wait));
        }
    }
    Ok(None)
}

/// A lock from which one job keeps another.
#[derive(Clone, Copy)]
pub struct LockBetween<'a> {
    /// The position of the request by which it waits, in order of arrival.
    pub position: usize,
    /// The lock.
    pub want: &'a Want,
    /// Whether the other owns it.
    pub is_held: bool,
}

/// The first lock of a request from which another job keeps its job, where this waits by the request.
fn kept_want<'a>(
    earlier: &[Request],
    r: &'a Request,
    job: u8,
    other: u8,
    is_held: bool,
) -> Option<&'a Want>
    ensures keeps { IfSome result (λ w. keeps is_held earlier.now w.now other ≡ true) }
    ensures lock { IfSome result (λ w. want_kept is_held job other earlier.now r.now ≡ Some w.now) }
    ensures none { result ≡ None → is_kept_from is_held job other earlier.now r.now ≡ false }
{
    if !is_blocked(earlier, r, job) {
        return None;
    }
    for want in r.wants.as_slice() {
        if keeps(earlier, want, other, is_held) {
            return Some(want);
        }
    }
    None
}

/// The first lock from which `other` keeps `job`, where `job` waits for it: a lock of a request by which `job` waits.
pub fn lock_between(requests: &[Request], job: u8, other: u8) -> Option<LockBetween<'_>>
    ensures held { IfSome result (λ b. b.is_held ≡ waits_hard_for requests.now job other) }
    ensures keeps { IfSome result (λ b. keeps b.is_held (take b.position requests.now) b.want.now other ≡ true) }
    ensures lock { IfSome result (λ b. want_at (want_kept b.is_held job other) requests.now b.position ≡ Some b.want.now) }
    ensures first { IfSome result (λ b. some_behind (is_kept_from b.is_held job other) [] (take b.position requests.now) ≡ false) }
    ensures none { result ≡ None → waits_for requests.now job other ≡ false }
{
    let is_held = waits_by(requests, job, other, true);
    for (position, r) in requests.iter().enumerate() {
        if let Some(want) = kept_want(&requests[..position], r, job, other, is_held) {
            return Some(LockBetween {
                position,
                want,
                is_held,
            });
        }
    }
    None
}
