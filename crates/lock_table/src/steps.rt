//! The steps of a call: a want leaves its queue, a flag is recomputed, the next wants that fit are counted.
ghost use Rattle.std.specs.Prelude.{◌≡◌, ◌<◌, ◌≤◌, ◌+◌, ◌==◌, true, false, not, if◌then◌else◌, length};
ghost use Rattle.std.specs.Bool.{beq};
ghost use Rattle.std.specs.List.{All, find, position_or_len};
ghost use Rattle.key_queues.specs.Locks.{lock_at, uncounted, with_queue, without_slot};
ghost use Rattle.key_queues.specs.States.{CountsAll, CountsBut, all_count, Extended, FlagsAll, GivesUpAt, IsCounted, IsFull};
ghost use Rattle.key_queues.specs.States.{IsKept, IsTable, IsUsed, LosesWant, Renews};
ghost use Rattle.key_queues.specs.Tables.{is_there};
ghost use Rattle.key_queues.specs.Entries.{without_want};
ghost use Rattle.key_queues.specs.Stores.{entry_at};
ghost use Rattle.lock_table.specs.Departures.{KeepsLocks};
ghost use Rattle.lock_table.specs.TableStates.{own_at, state_of, want_at, queued_want};
ghost use Rattle.lock_table.specs.Reads.{request_at};
ghost use Rattle.lock_table.specs.Tables.{AreFlipped, state};
ghost use Rattle.lock_table.specs.Flips.{Flipped};

use crate::flips::Flips;
use crate::queues::queued_want;
use crate::table::Table;
use key_queues::{Keys, Store};

/// The first of some slots whose request is the job's.
pub fn slot_of<const REQS: usize>(store: &Store<REQS>, slots: &[u16], job: u8) -> Option<u16>
    requires { All (λ p. is_there p store.now.order ≡ true) slots.now }
    ensures { result ≡ find (λ p. (request_at store.now p).job == job) slots.now }
{
    for p in slots {
        if store.get(*p).request.job == job {
            return Some(*p);
        }
    }
    None
}

/// Recomputes `granted` of a request that is not granted; true if it became so. A granted request stays so.
#[inline(always)]
pub fn renew<const REQS: usize>(store: &mut Store<REQS>, keys: &Keys<REQS>, p: u16) -> bool
    requires present { is_there p store.old.order ≡ true }
    requires queues { All (λ n. n < length keys.now) (entry_at store.old p).queues.items }
    requires granted { (entry_at store.old p).granted ≡ true → all_count (state_of store.old keys.now) p ≡ true }
    ensures renews { Renews (state_of store.old keys.now) (state_of store.new keys.now) p }
    ensures flipped { result ≡ not (beq (entry_at store.old p).granted (entry_at store.new p).granted) }
{
    let f = store.get(p);
    if f.granted {
        return false;
    }
    let granted = keys.all_count(f.queues.as_slice(), p);
    if granted {
        store.set_granted(p, true);
    }
    granted
}

/// Recomputes `granted` of a request, and flips its mark if it became so. A request without wants is about to be
/// removed, so its mark stays.
#[inline(always)]
fn renew_marked<const REQS: usize>(
    store: &mut Store<REQS>,
    flips: &mut Flips<REQS>,
    keys: &Keys<REQS>,
    p: u16,
)
    requires present { is_there p store.old.order ≡ true }
    requires queues { All (λ n. n < length keys.now) (entry_at store.old p).queues.items }
    requires granted { (entry_at store.old p).granted ≡ true → all_count (state_of store.old keys.now) p ≡ true }
    ensures renews { Renews (state_of store.old keys.now) (state_of store.new keys.now) p }
    ensures flips { Flipped store.old store.new flips.old flips.new }
{
    let flipped = renew(store, keys, p);
    let stays = !store.get(p).request.wants.is_empty();
    flips.flip_if(p, flipped && stays);
}

/// Removes the k-th want of a request from its queue. Returns the queue's number.
fn leave_queue_of<const REQS: usize>(
    store: &Store<REQS>,
    keys: &mut Keys<REQS>,
    p: u16,
    k: usize,
) -> u16
    requires present { is_there p store.now.order ≡ true }
    requires queues { k < length (entry_at store.now p).queues.items }
    requires wants { k < length (entry_at store.now p).request.wants.items }
    requires lock { own_at store.now p k < length keys.old }
    requires slot { position_or_len (λ m. m == p) (lock_at keys.old (own_at store.now p k)).queue.slots
        < length (lock_at keys.old (own_at store.now p k)).queue.slots }
    ensures number { result ≡ own_at store.now p k }
    ensures after { keys.new ≡ with_queue keys.old (own_at store.now p k)
        (without_slot (lock_at keys.old (own_at store.now p k)).queue p (want_at store.now p k)) }
{
    let f = store.get(p);
    let n = f.queues.as_slice()[k];
    keys.leave_queue(n, p, &f.request.wants.as_slice()[k]);
    n
}

impl<const REQS: usize> Table<REQS> {
    /// Counts the first want of a queue that is not counted yet, if it fits, and recomputes the flag of its
    /// request; true if it fits.
    fn let_in_next(&mut self, n: u16) -> bool
        requires kept { IsKept (state self.old) }
        requires flags { FlagsAll (state self.old) }
        requires used { IsUsed (state self.old) n }
        ensures extended { Extended (state self.old) (state self.new) n }
        ensures full { result ≡ false → IsFull (state self.new) n }
        ensures fewer { uncounted (lock_at self.new.keys n).queue + (if result then 1 else 0)
            ≤ uncounted (lock_at self.old.keys n).queue }
        ensures flips { AreFlipped self.old self.new }
    {
        let Some(p) = self.keys.next_slot(n) else {
            return false;
        };
        if !self.keys.let_in(n, queued_want(&self.store, p, n)) {
            return false;
        }
        renew_marked(&mut self.store, &mut self.flips, &self.keys, p);
        true
    }

    /// Counts all wants of a queue that fit, and recomputes the flags of their requests.
    pub fn extend(&mut self, n: u16)
        requires kept { IsKept (state self.old) }
        requires flags { FlagsAll (state self.old) }
        requires used { IsUsed (state self.old) n }
        ensures extended { Extended (state self.old) (state self.new) n }
        ensures full { IsFull (state self.new) n }
        ensures flips { AreFlipped self.old self.new }
    {
        let mut more = true;
        while more {
            more = self.let_in_next(n);
        }
    }

    /// A request gives up its k-th want, which leaves its queue; and its flag is recomputed. Wants of that
    /// queue that fit now are left to `extend`. Returns the queue's number.
    fn give_up(&mut self, p: u16, k: usize) -> u16
        requires kept { IsKept (state self.old) }
        requires flags { FlagsAll (state self.old) }
        requires present { is_there p self.old.store.order ≡ true }
        requires want { k < length (entry_at self.old.store p).queues.items }
        ensures number { result ≡ own_at self.old.store p k }
        ensures kept { IsKept (state self.new) }
        ensures flags { FlagsAll (state self.new) }
        ensures gives { GivesUpAt (state self.old) (state self.new) p k }
        ensures full { CountsAll (state self.old) → CountsBut (own_at self.old.store p k) (state self.new) }
        ensures counts { IsCounted (state self.new) (own_at self.old.store p k) }
        ensures lock { own_at self.old.store p k < length self.new.keys }
        ensures request { (entry_at self.new.store p).request ≡ (without_want (entry_at self.old.store p) k).request }
        ensures flips { AreFlipped self.old self.new }
    {
        let n = leave_queue_of(&self.store, &mut self.keys, p, k);
        self.store.take_want(p, k);
        renew_marked(&mut self.store, &mut self.flips, &self.keys, p);
        n
    }

    /// A request gives up its k-th want, and the wants that fit now are counted; where the queue is empty, the
    /// lock is freed. Each want that leaves does so by this.
    #[inline(always)]
    pub fn depart(&mut self, p: u16, k: usize)
        requires table { IsTable (state self.old) }
        requires present { is_there p self.old.store.order ≡ true }
        requires want { k < length (entry_at self.old.store p).queues.items }
        ensures table { IsTable (state self.new) }
        ensures left { LosesWant (state self.old) (state self.new) p k }
        ensures locks { KeepsLocks self.old.keys self.new.keys (own_at self.old.store p k) }
        ensures flips { AreFlipped self.old self.new }
    {
        let n = self.give_up(p, k);
        if self.keys.is_empty(n) {
            self.keys.free_if_unused(n);
        } else {
            self.extend(n);
        }
    }
}
