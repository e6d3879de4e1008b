//! Entries in the slots of a slab.
ghost use Rattle.std.specs.Borrow.{sem};
ghost use Rattle.std.specs.Prelude.{ℕ, ◌≡◌, ◌<◌, ◌≤◌, ◌+◌, length, true, Some, None, IfOk, OnOk, vec_capacity};
ghost use Rattle.word36.specs.declared.sizes.TheConstants.{MOST_REQUESTS};
ghost use Rattle.key_queues.specs.Entries.{arrived};
ghost use Rattle.key_queues.specs.EntrySlabs.{is_filled, content_at, with_content};
ghost use Rattle.key_queues.specs.Stores.{entry_or};

use crate::entry::Entry;
use lock_queue::Asking;
use slab::Slab;
use std::alloc::{AllocError, Global};
use std::marker::Model;
use word36::MOST_REQUESTS;

/// Boxed entries in the slots of a slab, and a spare box for each more that may arrive.
#[derive(Drop)]
pub struct EntrySlab<const REQS: usize> {
    slab: Slab<Box<Entry>>,
    spare: Vec<Box<Entry>>,
}

impl<const REQS: usize> Model for EntrySlab<REQS> {
    ghost use Rattle.std.specs.Prelude.{length, vec_capacity};
    ghost use Rattle.slab.specs.Slab.{slab_len};
    ghost use Rattle.key_queues.specs.EntrySlabs.{IsEntrySlab, SlabContents, contents_in};

    ghost Value = { SlabContents };

    ghost view = { λ s. record { contents = contents_in REQS s.slab; len = slab_len s.slab } };

    ghost invariant = { λ s. IsEntrySlab REQS s.slab (length s.spare.items) (vec_capacity s.spare) };
}

/// A number of spare boxes.
fn spare_boxes(alloc: Global, count: usize) -> Result<Vec<Box<Entry>>, AllocError>
    ensures long { IfOk result (λ spare. length spare.items ≡ count) }
    ensures room { IfOk result (λ spare. count ≤ vec_capacity spare) }
{
    let mut spare = Vec::with_capacity(alloc, count)?;
    for _ in 0..count {
        spare.push_reserved(Box::new(alloc, Entry::unused())?);
    }
    Ok(spare)
}

impl<const REQS: usize> EntrySlab<REQS> {
    ghost use Rattle.key_queues.specs.Lends.{lends_request};

    /// An empty slab, with room for all. There is no memory for more than 1,024 entries, nor where the slab has
    /// another capacity.
    pub fn new(alloc: Global) -> Result<Self, AllocError>
        ensures none { IfOk result (λ s. (p : ℕ) → content_at s.contents p ≡ None) }
        ensures long { IfOk result (λ s. length s.contents ≡ REQS) }
        ensures len { IfOk result (λ s. s.len ≡ 0) }
        ensures most { OnOk result (REQS ≤ MOST_REQUESTS) }
    {
        if REQS > MOST_REQUESTS {
            return Err(AllocError);
        }
        let slab = Slab::with_capacity(alloc, REQS)?;
        if slab.capacity() != REQS {
            return Err(AllocError);
        }
        Ok(EntrySlab {
            slab,
            spare: spare_boxes(alloc, REQS)?,
        })
    }

    /// Whether there is an entry in a slot.
    #[tactic(auto, using(crate::proofs::Contents::filled_seen, crate::proofs::Contents::past_seen, crate::proofs::Contents::same_truth))]
    pub fn contains(&self, p: u16) -> bool
        ensures { result ≡ is_filled self.now.contents p }
    {
        (p as usize) < REQS && self.slab.contains(p as usize)
    }

    /// The entry in a slot.
    #[tactic(auto, using(crate::proofs::Contents::key_there, crate::proofs::Contents::was))]
    pub fn get(&self, p: u16) -> &Entry
        requires { is_filled self.now.contents p ≡ true }
        ensures { result.now ≡ entry_or (content_at self.now.contents p) }
    {
        &self.slab[p as usize]
    }

    /// Takes in the entry of a request, without wants yet. Returns its slot.
    pub fn insert(&mut self, job: u8, asking: &Asking, notified: bool) -> u16
        requires { self.old.len < REQS }
        ensures free { content_at self.old.contents result ≡ None }
        ensures within { result < REQS }
        ensures contents { self.new.contents ≡ with_content self.old.contents result (Some (arrived job asking.now notified)) }
        ensures len { self.new.len ≡ self.old.len + 1 }
    {
        let Some(mut entry) = self.spare.pop() else {
            unreachable!()
        };
        entry.begin(job, asking, notified);
        self.slab.insert_reserved(entry) as u16
    }

    /// Removes the entry of a slot; its box becomes a spare one.
    #[inline(always)]
    pub fn remove(&mut self, p: u16)
        requires { is_filled self.old.contents p ≡ true }
        ensures contents { self.new.contents ≡ with_content self.old.contents p None }
        ensures len { self.new.len + 1 ≡ self.old.len }
    {
        let entry = self.slab.remove(p as usize);
        self.spare.push_reserved(entry);
    }

    /// Lends the entry in a slot, to be changed. The other slots stay as they are.
    pub fn get_mut(&mut self, p: u16) -> &mut Entry
        requires { is_filled self.old.contents p ≡ true }
        ensures* writes_back { sem 𝓛 (lends_request REQS.row self.entry p result) }
        ensures value { result.now ≡ entry_or (content_at self.old.contents p) }
    {
        &mut self.slab[p as usize]
    }
}
