//! Questions about requests, and about the jobs that wait by them.
ghost use Rattle.std.specs.Prelude.{◌≡◌, ◌<◌, IfSome, Some, length, slice_get, true};
ghost use Rattle.std.specs.List.{All, find, list_any};
ghost use Rattle.key_queues.specs.States.{IsTable};
ghost use Rattle.lock_queue.specs.Jobs.{is_in_the_way, is_kept_by, is_waiting_job, pending, waits_for};
ghost use Rattle.lock_queue.specs.Queue.{granted, requests_of, wants_at};
ghost use Rattle.key_queues.specs.Stores.{entry_at, slots_of};
ghost use Rattle.key_queues.specs.Tables.{is_there};
ghost use Rattle.lock_table.specs.TableStates.{state_of, want_at};
ghost use Rattle.lock_table.specs.Reads.{IsSole, MarksGrants, before_of, is_kept_from, is_pending_entry, request_at, requests_at};
ghost use Rattle.lock_table.specs.Whole.{AreRight, requests_in};

use crate::queues::lock_of;
use key_queues::{Keys, Store, index_of};
use lock_queue::steps::some_in_the_way;
use lock_queue::{EnqueueKind, Key, Request, RequestId, Want};
use word36::JOBS;

/// The slots of a job's requests, in order of arrival.
#[tactic(auto, using(crate::proofs::Telling::no_job))]
pub fn own_slots<const REQS: usize>(store: &Store<REQS>, job: u8) -> &[u16]
    requires { AreRight store.now }
    ensures { result.now ≡ slots_of store.now job }
{
    if job <= JOBS { store.of_job(job) } else { &[] }
}

/// Whether a job waits by one of its requests.
#[tactic(auto, using(crate::proofs::Telling::any_some, crate::proofs::Telling::no_job, crate::proofs::Telling::waiting_is))]
pub fn is_waiting<const REQS: usize>(store: &Store<REQS>, job: u8) -> bool
    requires right { AreRight store.now }
    requires marks { MarksGrants store.now }
    ensures { result ≡ is_waiting_job (requests_in store.now) job }
{
    job <= JOBS && store.blocked(job) != 0
}

/// The slot of a job's first interrupt request that is granted and not notified.
pub fn first_pending<const REQS: usize>(store: &Store<REQS>, job: u8) -> Option<u16>
    requires { AreRight store.now }
    ensures { result ≡ find (λ p. is_pending_entry (entry_at store.now p)) (slots_of store.now job) }
{
    for p in own_slots(store, job) {
        let f = store.get(*p);
        if matches!(f.request.kind, EnqueueKind::Interrupt) && !f.request.notified && f.granted {
            return Some(*p);
        }
    }
    None
}

/// The id of that request.
pub fn pending_of<const REQS: usize>(store: &Store<REQS>, job: u8) -> Option<RequestId>
    requires right { AreRight store.now }
    requires marks { MarksGrants store.now }
    ensures { result ≡ pending (requests_in store.now) job }
{
    let p = first_pending(store, job)?;
    Some(store.get(p).request.id)
}

/// The request at a position of the list.
pub fn request_of<const REQS: usize>(store: &Store<REQS>, i: usize) -> &Request
    requires { i < length store.now.order }
    ensures { slice_get (requests_in store.now) i ≡ Some result.now }
{
    &store.get(store.order()[i]).request
}

/// Whether that request is granted.
pub fn is_granted<const REQS: usize>(store: &Store<REQS>, i: usize) -> bool
    requires within { i < length store.now.order }
    requires marks { MarksGrants store.now }
    ensures { result ≡ granted (requests_in store.now) i }
{
    store.get(store.order()[i]).granted
}

/// The slot of a job's only request, where its only want is of a key.
pub fn sole_of<const REQS: usize>(store: &Store<REQS>, job: u8, key: &Key) -> Option<u16>
    requires { AreRight store.now }
    ensures { IfSome result (IsSole store.now job key.now) }
{
    let [p] = own_slots(store, job) else {
        return None;
    };
    match store.get(*p).request.wants.as_slice() {
        [w] if w.key.is_same(key) => Some(*p),
        _ => None,
    }
}

/// Whether a job's want in one of these slots, of a want's key, stands in that want's way.
fn is_in_the_way_at<const REQS: usize>(
    store: &Store<REQS>,
    slots: &[u16],
    w: &Want,
    job: u8,
) -> bool
    requires { All (λ p. is_there p store.now.order ≡ true) slots.now }
    ensures { result ≡ list_any (λ v. is_in_the_way v w.now)
        (wants_at (requests_of (requests_at store.now slots.now) job) w.now.key) }
{
    for p in slots {
        let r = &store.get(*p).request;
        if r.job == job && some_in_the_way(r.wants.as_slice(), w) {
            return true;
        }
    }
    false
}

/// Whether the k-th want of a request does not fit, and an earlier want of the job stands in its way.
fn is_kept_at<const REQS: usize>(
    store: &Store<REQS>,
    keys: &Keys<REQS>,
    p: u16,
    k: usize,
    job: u8,
) -> bool
    requires table { IsTable (state_of store.now keys.now) }
    requires present { is_there p store.now.order ≡ true }
    requires want { k < length (request_at store.now p).wants.items }
    requires queue { k < length (entry_at store.now p).queues.items }
    ensures { result ≡ is_kept_by job (requests_at store.now (before_of store.now.order p)) (want_at store.now p k) }
{
    let f = store.get(p);
    let queue = &lock_of(keys, f.queues.as_slice()[k]).queue;
    let slots = queue.as_slice();
    let before = &slots[..index_of(slots, p)];
    !queue.counts(p) && is_in_the_way_at(store, before, &f.request.wants.as_slice()[k], job)
}

/// Whether an earlier want of the job keeps a request from one of its wants.
fn is_kept_from<const REQS: usize>(store: &Store<REQS>, keys: &Keys<REQS>, p: u16, job: u8) -> bool
    requires table { IsTable (state_of store.now keys.now) }
    requires present { is_there p store.now.order ≡ true }
    ensures { result ≡ is_kept_from store.now job p }
{
    for k in 0..store.get(p).request.wants.len() {
        if is_kept_at(store, keys, p, k, job) {
            return true;
        }
    }
    false
}

/// Whether the first job waits for the second: one of its requests blocks it, and the second keeps that request
/// from a want.
pub fn waits_for<const REQS: usize>(
    store: &Store<REQS>,
    keys: &Keys<REQS>,
    job: u8,
    other: u8,
) -> bool
    requires right { AreRight store.now }
    requires marks { MarksGrants store.now }
    requires table { IsTable (state_of store.now keys.now) }
    ensures { result ≡ waits_for (requests_in store.now) job other }
{
    for p in own_slots(store, job) {
        if store.get(*p).is_blocked() && is_kept_from(store, keys, *p, other) {
            return true;
        }
    }
    false
}
