//! The indexed table.
ghost use Rattle.std.specs.Prelude.{◌≤◌, IsTrue, length};
ghost use Rattle.word36.specs.declared.sizes.TheConstants.{MOST_REQUESTS};
ghost use Rattle.lock_queue.specs.WellFormed.{are_well_formed};
ghost use Rattle.lock_table.specs.Tables.{requests};

use crate::flips::Flips;
use crate::leaving::{Leavers, Leaving};
use crate::notifying::mark_notified;
use crate::readings::{is_granted, is_waiting, pending_of, request_of, waits_for};
use crate::status::status_of;
use crate::table::Table;
use crate::waking::fill_woken;
use arrayvec::ArrayVec;
use key_queues::{Keys, Store};
use lock_queue::{Key, LockCall, LockReply, LockTable, Request, RequestId, Status, Woken};
use std::alloc::{AllocError, Global};
use std::marker::Model;
use word36::MOST_REQUESTS;

/// A table that keeps its requests in a slab, with a queue for each key, a list for each job, and a flag for each
/// request, whether it is granted.
#[derive(Drop)]
pub struct IndexedTable<const REQS: usize> {
    table: Table<REQS>,
    /// The slots of the requests that leave as a whole.
    leaving: Leaving,
    ghost sized: { (1 ≤ REQS) × (REQS ≤ MOST_REQUESTS) },
    ghost few: { length (requests table) ≤ REQS },
    ghost well: { IsTrue (are_well_formed (requests table)) },
}

/// The lock table of all programs. They all use this name, so that another table can be put in here.
pub type ProgramTable = IndexedTable<MOST_REQUESTS>;

impl<const REQS: usize> Model for IndexedTable<REQS> {
    ghost use Rattle.lock_table.specs.Seen.{Seen};
    ghost use Rattle.lock_table.specs.Tables.{IsRight, requests};

    ghost Value = { Seen REQS };

    ghost view = { λ t. record { requests = requests t.table; sized = t.sized; few = t.few; well = t.well } };

    ghost invariant = { λ t. IsRight REQS t.table };
}

impl<const REQS: usize> LockTable for IndexedTable<REQS> {
    ghost REQS = { REQS };

    const REQS: usize = REQS;

    ghost requests = { λ t. t.requests };

    ghost sized = { λ t. t.sized };

    ghost few = { λ t. t.few };

    ghost well = { λ t. t.well };

    fn new(alloc: Global) -> Result<Self, AllocError> {
        let flips = Flips::new(alloc)?;
        let keys = Keys::new(alloc)?;
        let store = Store::new(alloc)?;
        Ok(IndexedTable {
            table: Table { store, keys, flips },
            leaving: ArrayVec::new(),
        })
    }

    fn call(&mut self, job: u8, call: &LockCall) -> LockReply {
        self.table.make(&mut self.leaving, job, call)
    }

    fn call_waking(&mut self, job: u8, call: &LockCall, woken: &mut Woken) -> LockReply {
        self.table.flips.clear();
        let reply = self.table.make(&mut self.leaving, job, call);
        match reply {
            LockReply::Done => fill_woken(&self.table.store, &self.table.flips, woken),
            _ => woken.clear(),
        }
        reply
    }

    fn release(&mut self, job: u8) {
        self.table.release(&mut self.leaving, &Leavers::Job(job));
    }

    fn release_waking(&mut self, job: u8, woken: &mut Woken) {
        self.table.flips.clear();
        self.table.release(&mut self.leaving, &Leavers::Job(job));
        fill_woken(&self.table.store, &self.table.flips, woken);
    }

    fn withdraw(&mut self, job: u8) {
        self.table.release(&mut self.leaving, &Leavers::Waiter(job));
    }

    fn withdraw_all(&mut self, jobs: u64) {
        self.table
            .release(&mut self.leaving, &Leavers::Waiters(jobs));
    }

    fn withdraw_all_waking(&mut self, jobs: u64, woken: &mut Woken) {
        self.table.flips.clear();
        self.table
            .release(&mut self.leaving, &Leavers::Waiters(jobs));
        fill_woken(&self.table.store, &self.table.flips, woken);
    }

    fn is_waiting(&self, job: u8) -> bool {
        is_waiting(&self.table.store, job)
    }

    fn pending(&self, job: u8) -> Option<RequestId> {
        pending_of(&self.table.store, job)
    }

    fn mark_notified(&mut self, job: u8) {
        mark_notified(&mut self.table.store, job);
    }

    fn status(&self, key: &Key, job: u8) -> Status {
        status_of(&self.table.store, &self.table.keys, key, job)
    }

    fn len(&self) -> usize {
        self.table.store.len()
    }

    fn request(&self, i: usize) -> &Request {
        request_of(&self.table.store, i)
    }

    fn granted(&self, i: usize) -> bool {
        is_granted(&self.table.store, i)
    }

    fn waits_for(&self, job: u8, other: u8) -> bool {
        waits_for(&self.table.store, &self.table.keys, job, other)
    }

    fn clear(&mut self) {
        self.table.release(&mut self.leaving, &Leavers::All);
    }
}
