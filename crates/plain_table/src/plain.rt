//! The plain table: one row of requests, from which each answer is worked out.
ghost use Rattle.std.specs.Prelude.{◌≡◌, ◌≤◌, ◌<◌, ◌++◌, ◌∷◌, [], IsTrue, length};
ghost use Rattle.lock_queue.specs.Enqueues.{request_of};
ghost use Rattle.word36.specs.declared.sizes.TheConstants.{MOST_REQUESTS};
ghost use Rattle.lock_queue.specs.WellFormed.{are_well_formed, is_well_formed};

use crate::jobs::{is_waiting, pending_of};
use crate::rows::Rows;
use crate::status::status_at;
use crate::waking::{Marks, fill_woken, mark, mark_without};
use lock_queue::steps::is_granted;
use lock_queue::{
    Asking, Key, LockCall, LockReply, LockTable, Request, RequestId, Status, Wants, Woken,
};
use std::alloc::{AllocError, Global};
use wait_graph::waits_for;

/// A table that keeps its requests in one row, in order of arrival, and works owners and waiters out
/// from it each time.
#[derive(Drop)]
pub struct PlainTable<const REQS: usize> {
    rows: Rows<REQS>,
    marks: Marks<REQS>,
    ghost sized: { (1 ≤ REQS) × (REQS ≤ MOST_REQUESTS) },
    ghost well: { IsTrue (are_well_formed rows.present) },
}

impl<const REQS: usize> PlainTable<REQS> {
    /// Appends a request as it is, even one that a call could not enter. So a table can be made that has
    /// given requests.
    pub fn append(&mut self, job: u8, asking: &Asking, notified: bool, wants: &Wants)
        requires room { length self.old.rows.present < REQS }
        requires well { IsTrue (is_well_formed (request_of job asking.now notified wants.now)) }
        ensures { self.new.rows.present ≡ self.old.rows.present ++ request_of job asking.now notified wants.now ∷ [] }
    {
        self.rows.append(job, asking, notified, wants);
    }
}

impl<const REQS: usize> LockTable for PlainTable<REQS> {
    ghost REQS = { REQS };

    const REQS: usize = REQS;

    ghost requests = { λ t. t.rows.present };

    ghost sized = { λ t. t.sized };

    ghost few = { λ t. t.rows.few };

    ghost well = { λ t. t.well };

    fn new(alloc: Global) -> Result<Self, AllocError> {
        Ok(PlainTable {
            rows: Rows::new(alloc)?,
            marks: Marks::new(),
        })
    }

    fn call(&mut self, job: u8, call: &LockCall) -> LockReply {
        self.rows.call(job, call)
    }

    fn call_waking(&mut self, job: u8, call: &LockCall, woken: &mut Woken) -> LockReply {
        woken.clear();
        if let LockCall::Enqueue { .. } = call {
            return self.rows.call(job, call);
        }
        mark(&mut self.marks, self.rows.as_slice(), job, call);
        let reply = self.rows.call(job, call);
        if let LockReply::Done = reply {
            fill_woken(woken, self.marks.as_slice(), self.rows.as_slice());
        }
        reply
    }

    fn release(&mut self, job: u8) {
        self.rows.release(job);
    }

    fn release_waking(&mut self, job: u8, woken: &mut Woken) {
        mark(
            &mut self.marks,
            self.rows.as_slice(),
            job,
            &LockCall::DequeueAll,
        );
        self.rows.release(job);
        fill_woken(woken, self.marks.as_slice(), self.rows.as_slice());
    }

    fn withdraw(&mut self, job: u8) {
        self.rows.withdraw(job);
    }

    fn withdraw_all(&mut self, jobs: u64) {
        self.rows.withdraw_all(jobs);
    }

    fn withdraw_all_waking(&mut self, jobs: u64, woken: &mut Woken) {
        mark_without(&mut self.marks, self.rows.as_slice(), jobs);
        self.rows.withdraw_all(jobs);
        fill_woken(woken, self.marks.as_slice(), self.rows.as_slice());
    }

    fn is_waiting(&self, job: u8) -> bool {
        is_waiting(self.rows.as_slice(), job)
    }

    fn pending(&self, job: u8) -> Option<RequestId> {
        pending_of(self.rows.as_slice(), job)
    }

    fn mark_notified(&mut self, job: u8) {
        self.rows.mark_notified(job);
    }

    fn status(&self, key: &Key, job: u8) -> Status {
        status_at(self.rows.as_slice(), key, job)
    }

    fn len(&self) -> usize {
        self.rows.as_slice().len()
    }

    fn request(&self, i: usize) -> &Request {
        &self.rows.as_slice()[i]
    }

    fn granted(&self, i: usize) -> bool {
        let all = self.rows.as_slice();
        is_granted(&all[..i], &all[i])
    }

    fn waits_for(&self, job: u8, other: u8) -> bool {
        waits_for(self.rows.as_slice(), job, other)
    }

    fn clear(&mut self) {
        self.rows.clear();
    }
}
