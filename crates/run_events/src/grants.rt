//! Requests that left or were granted between two looks at a table.
ghost use Rattle.std.specs.Prelude.{◌≡◌, ◌++◌, ◌&&◌, OnOk};
ghost use Rattle.run_events.specs.Facts.{granted_facts, left_facts, moved_facts};
ghost use Rattle.run_events.specs.Grants.{has_lock_of, is_present, is_rest_of, waiting_id, was_waiting};

use crate::facts::Fact;
use lock_queue::steps::names_key;
use lock_queue::{EnqueueKind, LockTable, Request, RequestId};
use monitor::copied;
use std::alloc::AllocError;

/// Whether a request has one of another's locks.
fn has_lock_of(r: &Request, old: &Request) -> bool
    ensures { result ≡ has_lock_of r.now old.now }
{
    let locks = old.wants.as_slice();
    r.wants.as_slice().iter().any(|w| names_key(locks, &w.key))
}

/// Whether a request is what remains of an earlier one: the same job and id, and one lock in common.
pub fn is_rest_of(r: &Request, old: &Request) -> bool
    ensures { result ≡ is_rest_of r.now old.now }
{
    r.job == old.job && r.id == old.id && has_lock_of(r, old)
}

/// Whether a request was among those that were not granted before.
fn was_waiting(before: &[Request], r: &Request) -> bool
    ensures { result ≡ was_waiting before.now r.now }
{
    before.iter().any(|old| is_rest_of(r, old))
}

/// Whether something of an earlier request is still present.
fn is_present<L: LockTable>(locks: &L, old: &Request) -> bool
    ensures { result ≡ is_present (L.requests locks.now) old.now }
{
    for i in 0..locks.len() {
        if is_rest_of(locks.request(i), old) {
            return true;
        }
    }
    false
}

/// Of the requests that were not granted before, the id of the one by which a job waited, if it waited by one. Where
/// the job's time limit ends, that request ends.
pub fn waiting_id(before: &[Request], job: u8) -> Option<RequestId>
    ensures { result ≡ waiting_id before.now job }
{
    for r in before {
        if r.job == job && matches!(r.kind, EnqueueKind::Blocking) {
            return Some(r.id);
        }
    }
    None
}

/// Adds a fact for each request that was not granted before and is gone.
fn push_left<L: LockTable>(
    facts: &mut Vec<Fact>,
    before: &[Request],
    locks: &L,
) -> Result<(), AllocError>
    ensures { OnOk result (facts.new.items ≡ facts.old.items ++ left_facts before.now (L.requests locks.now)) }
{
    for (i, old) in before.iter().enumerate() {
        if !is_present(locks, old) {
            facts.push(Fact::Left(copied(old)))?;
        }
    }
    Ok(())
}

/// Whether a request is granted, and was among those that were not granted before.
fn is_new_grant(before: &[Request], is_granted: bool, r: &Request) -> bool
    ensures { result ≡ (is_granted && was_waiting before.now r.now) }
{
    is_granted && was_waiting(before, r)
}

/// Adds a fact for each request that is granted now, and was not granted before.
#[inline(never)]
pub(crate) fn push_grants<L: LockTable>(
    facts: &mut Vec<Fact>,
    before: &[Request],
    locks: &L,
) -> Result<(), AllocError>
    ensures { OnOk result (facts.new.items ≡ facts.old.items ++ granted_facts before.now (L.requests locks.now)) }
{
    for position in 0..locks.len() {
        let is_granted = locks.granted(position);
        let r = locks.request(position);
        if is_new_grant(before, is_granted, r) {
            facts.push(Fact::Granted(copied(r)))?;
        }
    }
    Ok(())
}

/// Adds the facts of the requests that were not granted before: those that left, and those that are granted now.
#[tactic(auto, using(std::proofs::Common::append_assoc))]
pub(crate) fn push_moved<L: LockTable>(
    facts: &mut Vec<Fact>,
    before: &[Request],
    locks: &L,
) -> Result<(), AllocError>
    ensures { OnOk result (facts.new.items ≡ facts.old.items ++ moved_facts before.now (L.requests locks.now)) }
{
    if before.is_empty() {
        return Ok(());
    }
    push_left(facts, before, locks)?;
    push_grants(facts, before, locks)
}
