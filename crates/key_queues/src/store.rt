//! The entries of a table.
ghost use Rattle.std.specs.Prelude.{ℕ, ◌≡◌, ◌<◌, ◌≤◌, [], length, true, false, IfOk};
ghost use Rattle.word36.specs.declared.sizes.TheConstants.{JOBS, LOCKS_A_CALL};
ghost use Rattle.key_queues.specs.Entries.{arrived, unused_entry, with_granted, with_more, with_notified, with_want, without_want};
ghost use Rattle.key_queues.specs.Stores.{blocked_of, entry_at, inserted, slots_of, removed, with_entry};
ghost use Rattle.key_queues.specs.Tables.{AreDistinct, is_there};

use crate::entry::{Entry, is_blocking, take_out};
use crate::entry_slab::EntrySlab;
use crate::slot_list::{SlotList, no_counts, no_lists, recount};
use lock_queue::{Asking, Want};
use std::alloc::{AllocError, Global};
use std::marker::Model;
use word36::JOBS;

/// The entries of a table by their slots; the order of arrival; for each job the slots of its requests, and by
/// how many of them it waits. No memory is taken after `new`.
#[derive(Drop)]
pub struct Store<const REQS: usize> {
    entry_slab: EntrySlab<REQS>,
    /// The slots of all requests, in order of arrival.
    order: SlotList<REQS>,
    /// For each job, by its number, the slots of its requests.
    own: Vec<SlotList<REQS>>,
    /// For each job, by its number, by how many of its requests it waits.
    blocked: Vec<u16>,
}

impl<const REQS: usize> Model for Store<REQS> {
    ghost use Rattle.std.specs.Prelude.{map};
    ghost use Rattle.key_queues.specs.Stores.{IsStored, Stored, entry_or};

    ghost Value = { Stored };

    ghost view = { λ s. record { entries = map entry_or s.entry_slab.contents; order = s.order } };

    ghost invariant = { λ s. IsStored REQS s.entry_slab.contents s.entry_slab.len s.order s.own.items s.blocked.items };
}

impl<const REQS: usize> Store<REQS> {
    /// An empty store, with room for all. There is no memory for more than 1,024 requests, nor where the slab has
    /// another capacity.
    pub fn new(alloc: Global) -> Result<Self, AllocError>
        ensures order { IfOk result (λ s. s.order ≡ []) }
        ensures entries { IfOk result (λ s. (p : ℕ) → entry_at s p ≡ unused_entry) }
        ensures long { IfOk result (λ s. length s.entries ≡ REQS) }
    {
        Ok(Store {
            blocked: no_counts(alloc, JOBS as usize + 1)?,
            order: SlotList::new(alloc)?,
            own: no_lists(alloc, JOBS as usize + 1)?,
            entry_slab: EntrySlab::new(alloc)?,
        })
    }

    /// The slots of the requests that are present, in order of arrival.
    pub fn order(&self) -> &[u16]
        ensures value { result.now ≡ self.now.order }
        ensures once { AreDistinct self.now.order }
        ensures few { length self.now.order ≤ REQS }
    {
        self.order.as_slice()
    }

    /// The slots of a job's requests, in order of arrival.
    pub fn of_job(&self, job: u8) -> &[u16]
        requires { job ≤ JOBS }
        ensures { result.now ≡ slots_of self.now job }
    {
        self.own[job as usize].as_slice()
    }

    /// By how many of its requests a job waits.
    pub fn blocked(&self, job: u8) -> u16
        requires { job ≤ JOBS }
        ensures { result ≡ blocked_of self.now job }
    {
        self.blocked[job as usize]
    }

    /// How many requests are present.
    pub fn len(&self) -> usize
        ensures value { result ≡ length self.now.order }
        ensures few { result ≤ REQS }
    {
        self.order.as_slice().len()
    }

    /// Whether there is a request in a slot.
    pub fn contains(&self, p: u16) -> bool
        ensures { result ≡ is_there p self.now.order }
    {
        self.entry_slab.contains(p)
    }

    /// The entry in a slot.
    pub fn get(&self, p: u16) -> &Entry
        requires { is_there p self.now.order ≡ true }
        ensures value { result.now ≡ entry_at self.now p }
        ensures within { p < length self.now.entries }
        ensures small { p < REQS }
    {
        self.entry_slab.get(p)
    }

    /// Takes in a request, which comes last in the order of arrival and has no wants yet. Returns its slot.
    pub fn insert(&mut self, job: u8, asking: &Asking, notified: bool) -> u16
        requires room { length self.old.order < REQS }
        requires job { job ≤ JOBS }
        ensures out { is_there result self.old.order ≡ false }
        ensures within { result < length self.old.entries }
        ensures value { self.new ≡ inserted self.old result (arrived job asking.now notified) }
    {
        let slot = self.entry_slab.insert(job, asking, notified);
        self.order.push(slot);
        self.own[job as usize].push(slot);
        let is = is_blocking(asking.kind);
        recount(&mut self.blocked, job, false, is);
        slot
    }

    /// Removes the request of a slot.
    #[inline(always)]
    pub fn remove(&mut self, p: u16)
        requires { is_there p self.old.order ≡ true }
        ensures value { self.new ≡ removed self.old p }
        ensures within { p < length self.old.entries }
    {
        let entry = self.entry_slab.get(p);
        let job = entry.request.job;
        let was = entry.is_blocked();
        self.entry_slab.remove(p);
        self.order.take_out(p);
        self.own[job as usize].take_out(p);
        recount(&mut self.blocked, job, was, false);
    }

    /// Sets whether the request of a slot is granted, and corrects by how many requests its job waits.
    #[tactic(auto, using(crate::proofs::Keeps::number_small))]
    pub fn set_granted(&mut self, p: u16, granted: bool)
        requires { is_there p self.old.order ≡ true }
        ensures value { self.new ≡ with_entry self.old p (with_granted (entry_at self.old p) granted) }
        ensures within { p < length self.old.entries }
    {
        let entry = self.entry_slab.get_mut(p);
        let job = entry.request.job;
        let was = entry.is_blocked();
        entry.granted = granted;
        let is = entry.is_blocked();
        recount(&mut self.blocked, job, was, is);
    }

    /// Marks the grant of the request in a slot as notified.
    pub fn set_notified(&mut self, p: u16)
        requires { is_there p self.old.order ≡ true }
        ensures value { self.new ≡ with_entry self.old p (with_notified (entry_at self.old p)) }
        ensures within { p < length self.old.entries }
    {
        self.entry_slab.get_mut(p).request.notified = true;
    }

    /// Appends a want to the request in a slot, and its queue to the entry's queues.
    pub fn push_want(&mut self, p: u16, w: &Want, n: u16)
        requires present { is_there p self.old.order ≡ true }
        requires wants { length (entry_at self.old p).request.wants.items < LOCKS_A_CALL }
        requires queues { length (entry_at self.old p).queues.items < LOCKS_A_CALL }
        ensures value { self.new ≡ with_entry self.old p (with_more (entry_at self.old p) w.now n) }
        ensures within { p < length self.old.entries }
    {
        let entry = self.entry_slab.get_mut(p);
        entry.request.wants.push(*w);
        entry.queues.push(n);
    }

    /// Removes the k-th want of the request in a slot, and its queue from the entry's queues.
    pub fn take_want(&mut self, p: u16, k: usize)
        requires present { is_there p self.old.order ≡ true }
        requires wants { k < length (entry_at self.old p).request.wants.items }
        requires queues { k < length (entry_at self.old p).queues.items }
        ensures value { self.new ≡ with_entry self.old p (without_want (entry_at self.old p) k) }
        ensures within { p < length self.old.entries }
    {
        let entry = self.entry_slab.get_mut(p);
        take_out(&mut entry.queues, k);
        take_out(&mut entry.request.wants, k);
    }

    /// Writes another want over the k-th of the request in a slot.
    pub fn set_want(&mut self, p: u16, k: usize, w: &Want)
        requires present { is_there p self.old.order ≡ true }
        requires wants { k < length (entry_at self.old p).request.wants.items }
        ensures value { self.new ≡ with_entry self.old p (with_want (entry_at self.old p) k w.now) }
        ensures within { p < length self.old.entries }
    {
        self.entry_slab.get_mut(p).request.wants[k] = *w;
    }
}
