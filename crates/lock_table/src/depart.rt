//! How wants and requests leave.
ghost use Rattle.std.specs.Prelude.{◌≡◌, ℕ, true, if◌then◌else◌};
ghost use Rattle.lock_queue.specs.Dequeues.{has_wants};
ghost use Rattle.lock_queue.specs.Queue.{names};
ghost use Rattle.key_queues.specs.Locks.{lock_at};
ghost use Rattle.key_queues.specs.States.{IsTable, in_use};
ghost use Rattle.key_queues.specs.Tables.{is_there};
ghost use Rattle.key_queues.specs.Stores.{entry_at, without_slot};
ghost use Rattle.lock_table.specs.Reads.{request_at};
ghost use Rattle.lock_table.specs.Departures.{IsLeft, KeepsLocks, stays_beside, without_key};
ghost use Rattle.lock_table.specs.Tables.{AreFlipped, state};

use crate::table::Table;
use key_queues::index_of;

impl<const REQS: usize> Table<REQS> {
    /// The request of a slot, if there is one, gives up all of its wants, from the last to the first, and
    /// is removed.
    #[inline(always)]
    pub fn leave(&mut self, p: u16)
        requires table { IsTable (state self.old) }
        ensures table { IsTable (state self.new) }
        ensures order { self.new.store.order ≡ without_slot self.old.store.order p }
        ensures others { (x : ℕ) → (x ≡ p → ⊥) → (entry_at self.new.store x).request ≡ (entry_at self.old.store x).request }
        ensures flips { AreFlipped self.old self.new }
    {
        if !self.store.contains(p) {
            return;
        }
        let mut left = self.store.get(p).queues.len();
        while left > 0 {
            left -= 1;
            self.depart(p, left);
        }
        self.store.remove(p);
    }

    /// The requests of some slots leave, one after the other.
    pub fn leave_all(&mut self, slots: &[u16])
        requires table { IsTable (state self.old) }
        ensures table { IsTable (state self.new) }
        ensures left { IsLeft self.old.store self.new.store (request_at self.old.store) (stays_beside slots.now) }
        ensures flips { AreFlipped self.old self.new }
    {
        for i in 0..slots.len() {
            self.leave(slots[i]);
        }
    }

    /// A request gives up its want in a queue, and is removed where it has no other.
    pub fn give_up_in(&mut self, p: u16, n: u16)
        requires table { IsTable (state self.old) }
        requires present { is_there p self.old.store.order ≡ true }
        requires in_use { in_use (lock_at self.old.keys n).queue ≡ true }
        requires named { names (entry_at self.old.store p).request.wants.items (lock_at self.old.keys n).key ≡ true }
        ensures table { IsTable (state self.new) }
        ensures locks { KeepsLocks self.old.keys self.new.keys n }
        ensures given { is_there p self.new.store.order ≡ true
            → (entry_at self.new.store p).request ≡ without_key (lock_at self.old.keys n).key (entry_at self.old.store p).request }
        ensures others { (x : ℕ) → (x ≡ p → ⊥) → (entry_at self.new.store x).request ≡ (entry_at self.old.store x).request }
        ensures order { self.new.store.order
            ≡ (if has_wants (without_key (lock_at self.old.keys n).key (entry_at self.old.store p).request)
            then self.old.store.order
            else without_slot self.old.store.order p) }
        ensures flips { AreFlipped self.old self.new }
    {
        let k = index_of(self.store.get(p).queues.as_slice(), n);
        self.depart(p, k);
        if self.store.get(p).request.wants.is_empty() {
            self.store.remove(p);
        }
    }
}
