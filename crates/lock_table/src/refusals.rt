//! Why calls are refused.
ghost use Rattle.std.specs.Prelude.{◌≡◌, ◌≤◌, [], IfSome, is_some, length, nat_le, true};
ghost use Rattle.std.specs.List.{All, list_any};
ghost use Rattle.word36.specs.declared.sizes.TheConstants.{JOBS, LOCKS_A_CALL};
ghost use Rattle.key_queues.specs.Found.{IsFound};
ghost use Rattle.key_queues.specs.Locks.{lock_at};
ghost use Rattle.key_queues.specs.States.{IsTable, in_use};
ghost use Rattle.lock_queue.specs.Changes.{modify_fault};
ghost use Rattle.lock_queue.specs.Dequeues.{dequeue_fault};
ghost use Rattle.lock_queue.specs.Enqueues.{enqueue_fault, enqueue_refusal, some_too_low};
ghost use Rattle.lock_queue.specs.Outcomes.{first_refusal};
ghost use Rattle.lock_queue.specs.Queue.{all_wants, is_pooled, names, requests_of, wants_at, wants_of};
ghost use Rattle.key_queues.specs.Tables.{is_there};
ghost use Rattle.lock_table.specs.Arrivals.{AreFound};
ghost use Rattle.lock_table.specs.TableStates.{state_of};
ghost use Rattle.lock_table.specs.Reads.{requests_at, is_job_queued_at};
ghost use Rattle.lock_table.specs.Whole.{LevelsAgree, requests_in};

use crate::found::{FoundKeys, is_named};
use crate::queues::{first_want, lock_of};
use crate::steps::slot_of;
use key_queues::{Found, Keys, Lock, Store};
use lock_queue::steps::{is_alike, names_key, reach_level};
use lock_queue::{Asking, EnqueueKind, Key, Level, Refusal, Want};

/// Whether a job's request in one of these slots has a want in a queue.
fn is_job_queued<const REQS: usize>(store: &Store<REQS>, slots: &[u16], job: u8, n: u16) -> bool
    requires { All (λ p. is_there p store.now.order ≡ true) slots.now }
    ensures { result ≡ list_any (is_job_queued_at store.now job n) slots.now }
{
    for p in slots {
        let f = store.get(*p);
        if f.request.job == job && f.queues.as_slice().contains(&n) {
            return true;
        }
    }
    false
}

/// Whether a job has a want of the key of a lock in use. The shorter of two lists is searched: the slots of the queue,
/// or those of the job.
fn is_wanted_by<const REQS: usize>(store: &Store<REQS>, keys: &Keys<REQS>, job: u8, n: u16) -> bool
    requires table { IsTable (state_of store.now keys.now) }
    requires in_use { in_use (lock_at keys.now n).queue ≡ true }
    requires job { job ≤ JOBS }
    ensures { result ≡ names (wants_of (requests_in store.now) job) (lock_at keys.now n).key }
{
    let slots = lock_of(keys, n).queue.as_slice();
    let own = store.of_job(job);
    if own.len() < slots.len() {
        is_job_queued(store, own, job, n)
    } else {
        slot_of(store, slots, job).is_some()
    }
}

/// The lock in use of a key of which a job has a want.
fn lock_wanted<'a, const REQS: usize>(
    store: &Store<REQS>,
    keys: &'a Keys<REQS>,
    job: u8,
    key: &Key,
) -> Option<&'a Lock>
    requires { IsTable (state_of store.now keys.now) }
    ensures wanted { is_some result ≡ names (wants_of (requests_in store.now) job) key.now }
    ensures pooled { IfSome result (λ l. is_some l.now.size
        ≡ list_any is_pooled (wants_at (requests_of (requests_in store.now) job) key.now)) }
{
    let n = keys.find(key)?;
    let lock = lock_of(keys, n);
    if is_job_queued(store, lock.queue.as_slice(), job, n) {
        Some(lock)
    } else {
        None
    }
}

/// Why a want is refused beside the present ones of its key. Those are alike, so the first is compared.
fn fault_beside<const REQS: usize>(
    store: &Store<REQS>,
    keys: &Keys<REQS>,
    job: u8,
    w: &Want,
    found: Found,
) -> Option<Refusal>
    requires table { IsTable (state_of store.now keys.now) }
    requires levels { LevelsAgree store.now }
    requires job { job ≤ JOBS }
    requires found { IsFound keys.now w.now.key found }
    ensures { result ≡ enqueue_fault (requests_in store.now) job [] w.now }
{
    let n = found.number?;
    if !is_alike(first_want(store, keys, n), w) {
        Some(Refusal::Differs)
    } else if is_wanted_by(store, keys, job, n) {
        Some(Refusal::NamedAlready)
    } else {
        None
    }
}

/// Why the first refused want of a call is refused. Where none is, fills in the look-ups of the wants' keys.
fn first_enqueue_fault<const REQS: usize>(
    store: &Store<REQS>,
    keys: &Keys<REQS>,
    job: u8,
    wants: &[Want],
    found: &mut FoundKeys,
) -> Option<Refusal>
    requires table { IsTable (state_of store.now keys.now) }
    requires levels { LevelsAgree store.now }
    requires job { job ≤ JOBS }
    requires few { length wants.now ≤ LOCKS_A_CALL }
    requires none { found.old.items ≡ [] }
    ensures fault { result ≡ first_refusal (enqueue_fault (requests_in store.now) job) [] wants.now }
    ensures long { result ≡ None → length found.new.items ≡ length wants.now }
    ensures found { result ≡ None → AreFound 0 keys.now wants.now found.new.items }
{
    for (i, w) in wants.iter().enumerate() {
        let seen = keys.look_up(&w.key);
        let fault = fault_beside(store, keys, job, w, seen);
        if fault.is_some() {
            return fault;
        }
        if is_named(&wants[..i], found.as_slice(), &w.key, seen.hash) {
            return Some(Refusal::NamedAlready);
        }
        found.push(seen);
    }
    None
}

/// Whether a request in one of these slots has a want of this level or a higher one.
fn reach_level_at<const REQS: usize>(store: &Store<REQS>, slots: &[u16], level: Level) -> bool
    requires { All (λ p. is_there p store.now.order ≡ true) slots.now }
    ensures { result ≡ list_any (λ v. nat_le level v.level) (all_wants (requests_at store.now slots.now)) }
{
    for p in slots {
        if reach_level(store.get(*p).request.wants.as_slice(), level) {
            return true;
        }
    }
    false
}

/// Whether a want without bypass has a level that is not above those of the call's wants before it
/// and of all present wants of the job.
fn is_some_too_low<const REQS: usize>(store: &Store<REQS>, job: u8, wants: &[Want]) -> bool
    requires { job ≤ JOBS }
    ensures { result ≡ some_too_low (wants_of (requests_in store.now) job) wants.now }
{
    let own = store.of_job(job);
    for (i, w) in wants.iter().enumerate() {
        if !w.bypass && (reach_level_at(store, own, w.level) || reach_level(&wants[..i], w.level)) {
            return true;
        }
    }
    false
}

/// How many requests the job has.
#[tactic(auto, using(crate::proofs::Reading::count_is))]
fn count_of<const REQS: usize>(store: &Store<REQS>, job: u8) -> usize
    requires { job ≤ JOBS }
    ensures { result ≡ length (requests_of (requests_in store.now) job) }
{
    store.of_job(job).len()
}

/// Why a request is refused, if it is: first lock by lock, then for its levels, then since the job has no interrupt
/// vector, then since it has as many requests as it may have, then since the table is full. Where it is not refused,
/// fills in the look-ups of its keys.
pub fn refusal_of_enqueue<const REQS: usize>(
    store: &Store<REQS>,
    keys: &Keys<REQS>,
    job: u8,
    asking: &Asking,
    wants: &[Want],
    found: &mut FoundKeys,
) -> Option<Refusal>
    requires table { IsTable (state_of store.now keys.now) }
    requires levels { LevelsAgree store.now }
    requires job { job ≤ JOBS }
    requires few { length wants.now ≤ LOCKS_A_CALL }
    requires none { found.old.items ≡ [] }
    ensures refusal { result ≡ enqueue_refusal REQS (requests_in store.now) job asking.now wants.now }
    ensures long { result ≡ None → length found.new.items ≡ length wants.now }
    ensures found { result ≡ None → AreFound 0 keys.now wants.now found.new.items }
{
    let fault = first_enqueue_fault(store, keys, job, wants, found);
    if fault.is_some() {
        fault
    } else if is_some_too_low(store, job, wants) {
        Some(Refusal::LevelOrder)
    } else if matches!(asking.kind, EnqueueKind::Interrupt) && !asking.armed {
        Some(Refusal::NoVector)
    } else if count_of(store, job) >= asking.quota as usize {
        Some(Refusal::OverQuota)
    } else if store.len() >= REQS {
        Some(Refusal::QueueFull)
    } else {
        None
    }
}

/// Why the first refused want of a call is refused. Where none is, fills in the look-ups of the named keys.
pub fn refusal_of_dequeue<const REQS: usize>(
    store: &Store<REQS>,
    keys: &Keys<REQS>,
    job: u8,
    named: &[Want],
    found: &mut FoundKeys,
) -> Option<Refusal>
    requires table { IsTable (state_of store.now keys.now) }
    requires job { job ≤ JOBS }
    requires few { length named.now ≤ LOCKS_A_CALL }
    requires none { found.old.items ≡ [] }
    ensures refusal { result ≡ first_refusal (dequeue_fault (requests_in store.now) job) [] named.now }
    ensures long { result ≡ None → length found.new.items ≡ length named.now }
    ensures found { result ≡ None → AreFound 0 keys.now named.now found.new.items }
{
    for (i, w) in named.iter().enumerate() {
        let seen = keys.look_up(&w.key);
        if is_named(&named[..i], found.as_slice(), &w.key, seen.hash) {
            return Some(Refusal::NamedAlready);
        }
        let Some(n) = seen.number else {
            return Some(Refusal::NotPresent);
        };
        if !is_wanted_by(store, keys, job, n) {
            return Some(Refusal::NotPresent);
        }
        found.push(seen);
    }
    None
}

/// Why the first refused change of a call is refused, whatever would become of the grants.
pub fn refusal_of_modify<const REQS: usize>(
    store: &Store<REQS>,
    keys: &Keys<REQS>,
    job: u8,
    changes: &[Want],
) -> Option<Refusal>
    requires table { IsTable (state_of store.now keys.now) }
    ensures { result ≡ first_refusal (modify_fault (requests_in store.now) job) [] changes.now }
{
    for (i, c) in changes.iter().enumerate() {
        if names_key(&changes[..i], &c.key) {
            return Some(Refusal::NamedAlready);
        }
        let Some(lock) = lock_wanted(store, keys, job, &c.key) else {
            return Some(Refusal::NotPresent);
        };
        if c.shared && lock.size.is_some() {
            return Some(Refusal::BadPool);
        }
    }
    None
}
