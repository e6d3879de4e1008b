//! Lists of slots, with room for all.
ghost use Rattle.std.specs.Prelude.{ℕ, ◌≡◌, ◌==◌, ◌<◌, ◌≤◌, [], ◌∷◌, ◌++◌, length, slice_set, IfOk};
ghost use Rattle.std.specs.List.{position_or_len};
ghost use Rattle.word36.specs.declared.sizes.TheConstants.{MOST_REQUESTS};
ghost use Rattle.key_queues.specs.Stores.{list_of, number_of, recounted, without_slot};
ghost use Rattle.key_queues.specs.Tables.{AreDistinct, is_there};

use std::alloc::{AllocError, Global};
use std::marker::Model;

/// Slots in the order in which their requests arrived.
#[derive(Drop)]
pub struct SlotList<const REQS: usize> {
    slots: Vec<u16>,
}

impl<const REQS: usize> Model for SlotList<REQS> {
    ghost use Rattle.std.specs.Prelude.{ℕ, List, ◌≤◌, vec_capacity};

    ghost Value = { List ℕ };

    ghost view = { λ q. q.slots.items };

    ghost invariant = { λ q. REQS ≤ vec_capacity q.slots };
}

/// How many slots are compared at a time.
const TOGETHER: usize = 16;

/// Whether a slot is in a list. All are compared, without an early end, so that many are compared at a time.
fn is_among(list: &[u16], p: u16) -> bool
    ensures { result ≡ is_there p list.now }
{
    let mut any = false;
    for x in list {
        any |= *x == p;
    }
    any
}

/// The position of a slot in a list, in which it is. The first is looked at before the others: who came first owns its
/// locks, and so leaves first.
fn index_of(list: &[u16], p: u16) -> usize
    requires { position_or_len (λ x. x == p) list.now < length list.now }
    ensures { result ≡ position_or_len (λ x. x == p) list.now }
{
    if list[0] == p {
        return 0;
    }
    let mut i = 0;
    while list.len() - i >= TOGETHER && !is_among(&list[i..i + TOGETHER], p) {
        i += TOGETHER;
    }
    while list[i] != p {
        i += 1;
    }
    i
}

impl<const REQS: usize> SlotList<REQS> {
    /// An empty list.
    pub fn new(alloc: Global) -> Result<Self, AllocError>
        ensures { IfOk result (λ q. q ≡ []) }
    {
        Ok(SlotList {
            slots: Vec::with_capacity(alloc, REQS)?,
        })
    }

    /// The slots.
    pub fn as_slice(&self) -> &[u16]
        ensures { result.now ≡ self.now }
    {
        self.slots.as_slice()
    }

    /// Appends a slot.
    pub fn push(&mut self, p: u16)
        requires { length self.old < REQS }
        ensures { self.new ≡ self.old ++ p ∷ [] }
    {
        self.slots.push_reserved(p);
    }

    /// Removes a slot, which is in the list once; those behind it move up. The last is looked at before the others: of
    /// most jobs it is the only one.
    pub fn take_out(&mut self, p: u16)
        requires there { position_or_len (λ x. x == p) self.old < length self.old }
        requires once { AreDistinct self.old }
        ensures { self.new ≡ without_slot self.old p }
    {
        let last = self.slots.len() - 1;
        if self.slots[last] == p {
            let _ = self.slots.pop();
            return;
        }
        self.take_out_before_last(p);
    }

    /// Removes a slot that need not be the last; those behind it move up.
    #[inline(never)]
    fn take_out_before_last(&mut self, p: u16)
        requires { position_or_len (λ x. x == p) self.old < length self.old }
        ensures { self.new ≡ without_slot self.old p }
    {
        let i = index_of(self.slots.as_slice(), p);
        self.slots.as_mut_slice()[i..].rotate_left(1);
        let _ = self.slots.pop();
    }
}

/// A number of empty lists.
pub fn no_lists<const REQS: usize>(
    alloc: Global,
    lists: usize,
) -> Result<Vec<SlotList<REQS>>, AllocError>
    ensures long { IfOk result (λ own. length own.items ≡ lists) }
    ensures empty { IfOk result (λ own. (job : ℕ) → list_of own.items job ≡ []) }
{
    let mut own = Vec::with_capacity(alloc, lists)?;
    for _ in 0..lists {
        own.push_reserved(SlotList::new(alloc)?);
    }
    Ok(own)
}

/// Corrects a job's count of requests by which it waits, for one request: whether it counted before, and
/// whether it counts now.
pub fn recount(counts: &mut Vec<u16>, job: u8, was: bool, is: bool)
    requires job { job < length counts.old.items }
    requires room { number_of counts.old.items job ≤ MOST_REQUESTS }
    ensures { counts.new.items ≡ slice_set counts.old.items job (recounted (number_of counts.old.items job) was is) }
{
    let n = counts[job as usize];
    counts[job as usize] = (n + is as u16).saturating_sub(was as u16);
}

/// A number of counts, each 0.
pub fn no_counts(alloc: Global, numbers: usize) -> Result<Vec<u16>, AllocError>
    ensures long { IfOk result (λ counts. length counts.items ≡ numbers) }
    ensures zero { IfOk result (λ counts. (job : ℕ) → number_of counts.items job ≡ 0) }
{
    vec![in alloc; 0; numbers]
}
