//! The lock table as a static library for C.
//!
//! C keeps a handle in memory of its own: null at first, and then C neither reads nor writes it.
#![tactic(auto)]

mod handle;

ghost use Rattle.std.specs.Prelude.{◌≡◌, Ok, None, slice_get};
ghost use Rattle.lock_queue.specs.declared.call.LockCall.TheVariants.{DequeueAll};
ghost use Rattle.lock_queue.specs.declared.terms.BlockUse.TheVariants.{Named};
ghost use Rattle.lock_service.specs.Effects.{job_effect, enqueue_call, modify_call, dequeue_call, dequeue_id_call, release_effect, withdraw_effect};
ghost use Rattle.lock_service.specs.Readings.{shown_grant, shown_request, shown_want, want_in, circle_code, status_over, status_code};
ghost use Rattle.lock_service.specs.Spelled.{want_of};
ghost use Rattle.locks_c.specs.Answers.{IsMade, Serves, told, counted, written, grants_of, requests_in, waiting_code, waits_code, code_there, shown_over};

use handle::Handle;
use lock_service::{LockGrant, LockRequest, LockStatus, LockTerms, Locks, NO_MEMORY, NO_TABLE, OK};
use std::alloc::Global;

/// Makes a table, where the handle has none.
#[unsafe(no_mangle)]
pub extern "C" fn locks_make(alloc: Global, locks: &mut Handle) -> u32
    ensures { IsMade locks.old.held locks.new.held result }
{
    if locks.has_table() {
        return NO_TABLE;
    }
    let Ok(made) = Locks::new(alloc) else {
        return NO_MEMORY;
    };
    match Box::new(alloc, made) {
        Ok(made) => {
            locks.put(made);
            OK
        }
        Err(_) => NO_MEMORY,
    }
}

/// Frees the table, if there is one.
#[unsafe(no_mangle)]
pub extern "C" fn locks_free(alloc: Global, locks: &mut Handle)
    ensures { locks.new.held ≡ None }
{
    match locks.take(alloc) {
        Some(service) => drop(service),
        None => {}
    }
}

/// Asks for locks, all together.
#[unsafe(no_mangle)]
pub extern "C" fn locks_enqueue(
    alloc: Global,
    locks: &mut Handle,
    job: u8,
    kind: u32,
    id: u32,
    quota: u16,
    terms: &[LockTerms],
) -> u32
    ensures { Serves (job_effect job (enqueue_call job kind id quota terms.now)) locks.old.held locks.new.held result }
{
    match locks.take(alloc) {
        Some(mut service) => {
            let code = service.enqueue(job, kind, id, quota, terms);
            locks.put(service);
            code
        }
        None => NO_TABLE,
    }
}

/// Makes wants of a job shared or exclusive.
#[unsafe(no_mangle)]
pub extern "C" fn locks_modify(
    alloc: Global,
    locks: &mut Handle,
    job: u8,
    terms: &[LockTerms],
) -> u32
    ensures { Serves (job_effect job (modify_call job terms.now)) locks.old.held locks.new.held result }
{
    match locks.take(alloc) {
        Some(mut service) => {
            let code = service.modify(job, terms);
            locks.put(service);
            code
        }
        None => NO_TABLE,
    }
}

/// Gives up the wants of these locks.
#[unsafe(no_mangle)]
pub extern "C" fn locks_dequeue(
    alloc: Global,
    locks: &mut Handle,
    job: u8,
    terms: &[LockTerms],
) -> u32
    ensures { Serves (job_effect job (dequeue_call job terms.now)) locks.old.held locks.new.held result }
{
    match locks.take(alloc) {
        Some(mut service) => {
            let code = service.dequeue(job, terms);
            locks.put(service);
            code
        }
        None => NO_TABLE,
    }
}

/// Gives up all wants of a job.
#[unsafe(no_mangle)]
pub extern "C" fn locks_dequeue_all(alloc: Global, locks: &mut Handle, job: u8) -> u32
    ensures { Serves (job_effect job (Ok DequeueAll)) locks.old.held locks.new.held result }
{
    match locks.take(alloc) {
        Some(mut service) => {
            let code = service.dequeue_all(job);
            locks.put(service);
            code
        }
        None => NO_TABLE,
    }
}

/// Gives up the requests of an id.
#[unsafe(no_mangle)]
pub extern "C" fn locks_dequeue_id(alloc: Global, locks: &mut Handle, job: u8, id: u32) -> u32
    ensures { Serves (job_effect job (dequeue_id_call id)) locks.old.held locks.new.held result }
{
    match locks.take(alloc) {
        Some(mut service) => {
            let code = service.dequeue_id(job, id);
            locks.put(service);
            code
        }
        None => NO_TABLE,
    }
}

/// Removes all requests of a job, as when it is gone. It may wait.
#[unsafe(no_mangle)]
pub extern "C" fn locks_release(alloc: Global, locks: &mut Handle, job: u8) -> u32
    ensures { Serves (release_effect job) locks.old.held locks.new.held result }
{
    match locks.take(alloc) {
        Some(mut service) => {
            let code = service.release(job);
            locks.put(service);
            code
        }
        None => NO_TABLE,
    }
}

/// Removes the requests by which some jobs wait: job `j` where the bit of weight 2^j is set.
#[unsafe(no_mangle)]
pub extern "C" fn locks_withdraw(alloc: Global, locks: &mut Handle, jobs: u64) -> u32
    ensures { Serves (withdraw_effect jobs) locks.old.held locks.new.held result }
{
    match locks.take(alloc) {
        Some(mut service) => {
            let code = service.withdraw(jobs);
            locks.put(service);
            code
        }
        None => NO_TABLE,
    }
}

/// How many grants the last call made.
#[unsafe(no_mangle)]
pub extern "C" fn locks_grants(alloc: Global, locks: &mut Handle) -> usize
    ensures same { locks.new.held ≡ locks.old.held }
    ensures count { result ≡ counted grants_of locks.old.held }
{
    match locks.take(alloc) {
        Some(service) => {
            let answer = service.grants();
            locks.put(service);
            answer
        }
        None => 0,
    }
}

/// Writes one of them, in order of arrival.
#[unsafe(no_mangle)]
pub extern "C" fn locks_grant(
    alloc: Global,
    locks: &mut Handle,
    i: usize,
    out: &mut LockGrant,
) -> u32
    ensures same { locks.new.held ≡ locks.old.held }
    ensures code { result ≡ told (code_there (λ l. slice_get (grants_of l) i)) locks.old.held }
    ensures out { out.new ≡ written out.old (shown_over shown_grant out.old (λ l. slice_get (grants_of l) i)) locks.old.held }
{
    match locks.take(alloc) {
        Some(service) => {
            let answer = service.grant(i, out);
            locks.put(service);
            answer
        }
        None => NO_TABLE,
    }
}

/// Writes the status of a lock, for the job that asks.
#[unsafe(no_mangle)]
pub extern "C" fn locks_status(
    alloc: Global,
    locks: &mut Handle,
    job: u8,
    lock: &LockTerms,
    out: &mut LockStatus,
) -> u32
    ensures same { locks.new.held ≡ locks.old.held }
    ensures code { result ≡ told (λ l. status_code (want_of Named job lock.now)) locks.old.held }
    ensures out { out.new ≡ written out.old (λ l. status_over (requests_in l) job out.old (want_of Named job lock.now)) locks.old.held }
{
    match locks.take(alloc) {
        Some(service) => {
            let answer = service.status(job, lock, out);
            locks.put(service);
            answer
        }
        None => NO_TABLE,
    }
}

/// Whether a job waits: `WAITS` or `OK`.
#[unsafe(no_mangle)]
pub extern "C" fn locks_waiting(alloc: Global, locks: &mut Handle, job: u8) -> u32
    ensures same { locks.new.held ≡ locks.old.held }
    ensures code { result ≡ told (waiting_code job) locks.old.held }
{
    match locks.take(alloc) {
        Some(service) => {
            let answer = service.waiting(job);
            locks.put(service);
            answer
        }
        None => NO_TABLE,
    }
}

/// Whether one job waits for another: `WAITS` or `OK`.
#[unsafe(no_mangle)]
pub extern "C" fn locks_waits_for(alloc: Global, locks: &mut Handle, job: u8, other: u8) -> u32
    ensures same { locks.new.held ≡ locks.old.held }
    ensures code { result ≡ told (waits_code job other) locks.old.held }
{
    match locks.take(alloc) {
        Some(service) => {
            let answer = service.waits_for(job, other);
            locks.put(service);
            answer
        }
        None => NO_TABLE,
    }
}

/// Whether a walk of waits leads from a job back to it: `WAITS` or `OK`.
#[unsafe(no_mangle)]
pub extern "C" fn locks_in_circle(alloc: Global, locks: &mut Handle, job: u8) -> u32
    ensures same { locks.new.held ≡ locks.old.held }
    ensures code { result ≡ told (λ l. circle_code (requests_in l) job) locks.old.held }
{
    match locks.take(alloc) {
        Some(service) => {
            let answer = service.in_circle(job);
            locks.put(service);
            answer
        }
        None => NO_TABLE,
    }
}

/// How many requests there are.
#[unsafe(no_mangle)]
pub extern "C" fn locks_requests(alloc: Global, locks: &mut Handle) -> usize
    ensures same { locks.new.held ≡ locks.old.held }
    ensures count { result ≡ counted requests_in locks.old.held }
{
    match locks.take(alloc) {
        Some(service) => {
            let answer = service.len();
            locks.put(service);
            answer
        }
        None => 0,
    }
}

/// Writes the request at a place of the list.
#[unsafe(no_mangle)]
pub extern "C" fn locks_request(
    alloc: Global,
    locks: &mut Handle,
    i: usize,
    out: &mut LockRequest,
) -> u32
    ensures same { locks.new.held ≡ locks.old.held }
    ensures code { result ≡ told (code_there (λ l. slice_get (requests_in l) i)) locks.old.held }
    ensures out { out.new ≡ written out.old (λ l. shown_over (shown_request (requests_in l) i) out.old (λ m. slice_get (requests_in m) i) l) locks.old.held }
{
    match locks.take(alloc) {
        Some(service) => {
            let answer = service.request(i, out);
            locks.put(service);
            answer
        }
        None => NO_TABLE,
    }
}

/// Writes a want of the request at a place of the list.
#[unsafe(no_mangle)]
pub extern "C" fn locks_want(
    alloc: Global,
    locks: &mut Handle,
    i: usize,
    k: usize,
    out: &mut LockTerms,
) -> u32
    ensures same { locks.new.held ≡ locks.old.held }
    ensures code { result ≡ told (code_there (λ l. want_in (slice_get (requests_in l) i) k)) locks.old.held }
    ensures out { out.new ≡ written out.old (shown_over shown_want out.old (λ l. want_in (slice_get (requests_in l) i) k)) locks.old.held }
{
    match locks.take(alloc) {
        Some(service) => {
            let answer = service.want(i, k, out);
            locks.put(service);
            answer
        }
        None => NO_TABLE,
    }
}
