//! The requests in one row, and a second row in which a change is made and judged.
ghost use Rattle.std.specs.Prelude.{◌≡◌, ◌≤◌, ◌<◌, ◌++◌, ◌∷◌, [], length, nat_le, IfOk, IsTrue, None};
ghost use Rattle.std.specs.List.{list_all};
ghost use Rattle.word36.specs.declared.sizes.TheConstants.{JOBS};
ghost use Rattle.lock_queue.specs.Calls.{outcome_of};
ghost use Rattle.lock_queue.specs.Changes.{modify};
ghost use Rattle.lock_queue.specs.Dequeues.{dequeue_named, dequeue_all, dequeue_id};
ghost use Rattle.lock_queue.specs.Enqueues.{arrival, enqueue, enqueue_fault, request_of};
ghost use Rattle.lock_queue.specs.Jobs.{released, withdrawn, withdrawn_all, job_notified};
ghost use Rattle.lock_queue.specs.Outcomes.{first_refusal};
ghost use Rattle.lock_queue.specs.WellFormed.{are_well_formed, names_locks, shares_rightly, all_share_rightly};

use crate::changes::{is_some_lost, refusal_of_modify, write_changed};
use crate::dequeues::{
    has_request, has_request_id, refusal_of_dequeue, remove_id, remove_job, remove_named,
};
use crate::enqueues::refusal_of_enqueue;
use crate::jobs::{remove_blocked, remove_blocked_among};
use crate::row::Row;
use lock_queue::steps::are_fitting;
use lock_queue::{Asking, EnqueueKind, LockCall, LockReply, Refusal, Request, RequestId, Wants};
use std::alloc::{AllocError, Global};
use std::mem;

/// The requests that are present, in order of arrival, and a second row for changes.
#[derive(Drop)]
pub struct Rows<const REQS: usize> {
    present: Row<REQS>,
    changed: Row<REQS>,
    ghost few: { length present ≤ REQS },
}

impl<const REQS: usize> Rows<REQS> {
    /// Rows without a request.
    pub fn new(alloc: Global) -> Result<Self, AllocError>
        ensures { IfOk result (λ rows. rows.present ≡ []) }
    {
        Ok(Rows {
            present: Row::new(alloc)?,
            changed: Row::new(alloc)?,
        })
    }

    /// The requests.
    pub fn as_slice(&self) -> &[Request]
        ensures value { result.now ≡ self.now.present }
        ensures few { length result.now ≤ REQS }
    {
        self.present.as_slice()
    }

    /// Appends a request as it is.
    pub fn append(&mut self, job: u8, asking: &Asking, notified: bool, wants: &Wants)
        requires { length self.old.present < REQS }
        ensures { self.new.present ≡ self.old.present ++ request_of job asking.now notified wants.now ∷ [] }
    {
        self.present.push(job, asking, notified, wants);
    }

    /// Enters a request that no rule refuses, as its kind says.
    #[tactic(auto, using(lock_queue::proofs::Granted::arrival_granted, lock_queue::proofs::Granted::arrival_waiting))]
    fn arrive(&mut self, job: u8, asking: &Asking, wants: &Wants) -> LockReply
        requires room { length self.old.present < REQS }
        requires job { (1 ≤ job) × (job ≤ JOBS) }
        requires some { IsTrue (nat_le 1 (length wants.now.items)) }
        requires unshared { IsTrue (list_all shares_rightly wants.now.items) }
        requires passed { first_refusal (enqueue_fault self.old.present job) [] wants.now.items ≡ None }
        ensures requests { self.new.present ≡
            (arrival self.old.present job asking.now wants.now).requests }
        ensures reply { result ≡ (arrival self.old.present job asking.now wants.now).reply }
        ensures well { IsTrue (are_well_formed self.old.present) → IsTrue (are_well_formed self.new.present) }
    {
        if are_fitting(self.present.as_slice(), wants.as_slice()) {
            let notified = matches!(asking.kind, EnqueueKind::Interrupt);
            self.present.push(job, asking, notified, wants);
            return LockReply::Granted;
        }
        match asking.kind {
            EnqueueKind::Blocking => {
                self.present.push(job, asking, false, wants);
                LockReply::Queued
            }
            EnqueueKind::AtOnce => LockReply::Refused(Refusal::NotGranted),
            EnqueueKind::Interrupt => {
                self.present.push(job, asking, false, wants);
                LockReply::Refused(Refusal::NotGranted)
            }
        }
    }

    /// A job asks for locks.
    fn enqueue(&mut self, job: u8, asking: &Asking, wants: &Wants) -> LockReply
        requires job { (1 ≤ job) × (job ≤ JOBS) }
        requires some { IsTrue (nat_le 1 (length wants.now.items)) }
        requires unshared { IsTrue (list_all shares_rightly wants.now.items) }
        ensures requests { self.new.present ≡
            (enqueue REQS self.old.present job asking.now wants.now).requests }
        ensures reply { result ≡ (enqueue REQS self.old.present job asking.now wants.now).reply }
        ensures well { IsTrue (are_well_formed self.old.present) → IsTrue (are_well_formed self.new.present) }
    {
        match refusal_of_enqueue(self.present.as_slice(), REQS, job, asking, wants.as_slice()) {
            Some(refusal) => LockReply::Refused(refusal),
            None => self.arrive(job, asking, wants),
        }
    }

    /// A job makes wants shared or exclusive. The changes are made in the second row; where no grant is lost
    /// there, the two are exchanged.
    fn modify(&mut self, job: u8, changes: &Wants) -> LockReply
        ensures requests { self.new.present ≡
            (modify self.old.present job changes.now.items).requests }
        ensures reply { result ≡ (modify self.old.present job changes.now.items).reply }
    {
        let changes = changes.as_slice();
        if let Some(refusal) = refusal_of_modify(self.present.as_slice(), job, changes) {
            return LockReply::Refused(refusal);
        }
        write_changed(&mut self.changed, self.present.as_slice(), job, changes);
        if is_some_lost(self.present.as_slice(), self.changed.as_slice()) {
            return LockReply::Refused(Refusal::WouldLose);
        }
        mem::swap(&mut self.present, &mut self.changed);
        LockReply::Done
    }

    /// A job gives up its wants of some keys.
    fn dequeue_named(&mut self, job: u8, named: &Wants) -> LockReply
        ensures requests { self.new.present ≡
            (dequeue_named self.old.present job named.now.items).requests }
        ensures reply { result ≡ (dequeue_named self.old.present job named.now.items).reply }
    {
        if let Some(refusal) = refusal_of_dequeue(self.present.as_slice(), job, named.as_slice()) {
            return LockReply::Refused(refusal);
        }
        remove_named(&mut self.present, job, named.as_slice());
        LockReply::Done
    }

    /// A job gives up all its requests.
    fn dequeue_all(&mut self, job: u8) -> LockReply
        ensures requests { self.new.present ≡ (dequeue_all self.old.present job).requests }
        ensures reply { result ≡ (dequeue_all self.old.present job).reply }
    {
        if !has_request(self.present.as_slice(), job) {
            return LockReply::Refused(Refusal::NotPresent);
        }
        remove_job(&mut self.present, job);
        LockReply::Done
    }

    /// A job gives up all its requests of an id.
    fn dequeue_id(&mut self, job: u8, id: RequestId) -> LockReply
        ensures requests { self.new.present ≡ (dequeue_id self.old.present job id).requests }
        ensures reply { result ≡ (dequeue_id self.old.present job id).reply }
    {
        if !has_request_id(self.present.as_slice(), job, id) {
            return LockReply::Refused(Refusal::NotPresent);
        }
        remove_id(&mut self.present, job, id);
        LockReply::Done
    }

    /// Makes a job's call.
    pub fn call(&mut self, job: u8, call: &LockCall) -> LockReply
        requires job { (1 ≤ job) × (job ≤ JOBS) }
        requires named { IsTrue (names_locks call.now) }
        requires unshared { IsTrue (all_share_rightly call.now) }
        ensures requests { self.new.present ≡ (outcome_of REQS self.old.present job call.now).requests }
        ensures reply { result ≡ (outcome_of REQS self.old.present job call.now).reply }
        ensures well { IsTrue (are_well_formed self.old.present) → IsTrue (are_well_formed self.new.present) }
    {
        match call {
            LockCall::Enqueue { asking, wants } => self.enqueue(job, asking, wants),
            LockCall::Modify(changes) => self.modify(job, changes),
            LockCall::DequeueNamed(named) => self.dequeue_named(job, named),
            LockCall::DequeueAll => self.dequeue_all(job),
            LockCall::DequeueId(id) => self.dequeue_id(job, *id),
        }
    }

    /// Removes all requests of a job.
    pub fn release(&mut self, job: u8)
        ensures { self.new.present ≡ released self.old.present job }
    {
        remove_job(&mut self.present, job);
    }

    /// Removes the requests by which a job waits.
    pub fn withdraw(&mut self, job: u8)
        ensures { self.new.present ≡ withdrawn self.old.present job }
    {
        remove_blocked(&mut self.present, job);
    }

    /// Removes the requests by which some jobs wait.
    pub fn withdraw_all(&mut self, jobs: u64)
        ensures { self.new.present ≡ withdrawn_all self.old.present jobs }
    {
        remove_blocked_among(&mut self.present, jobs);
    }

    /// Marks the pending request of a job as notified.
    pub fn mark_notified(&mut self, job: u8)
        ensures { self.new.present ≡ job_notified self.old.present job }
    {
        self.present.mark_notified(job);
    }

    /// Removes all requests.
    pub fn clear(&mut self)
        ensures { self.new.present ≡ [] }
    {
        self.present.clear();
    }
}
