//! Wants that are made shared or exclusive.
ghost use Rattle.std.specs.Prelude.{◌≡◌, ◌≤◌, ◌<◌, [], ◌==◌, drop, is_some, length, map, true};
ghost use Rattle.std.specs.List.{All, find, list_any, position_or_len};
ghost use Rattle.word36.specs.declared.sizes.TheConstants.{JOBS};
ghost use Rattle.key_queues.specs.Beginnings.{fitting};
ghost use Rattle.key_queues.specs.States.{IsTable};
ghost use Rattle.key_queues.specs.Tables.{is_there};
ghost use Rattle.lock_queue.specs.Changes.{modify};
ghost use Rattle.lock_queue.specs.declared.call.LockReply.TheVariants.{Done};
ghost use Rattle.key_queues.specs.Stores.{entry_at};
ghost use Rattle.lock_table.specs.TableStates.{state_of, queued_want};
ghost use Rattle.lock_table.specs.Reads.{request_at};
ghost use Rattle.lock_table.specs.Whole.{AreRight};
ghost use Rattle.lock_table.specs.Tables.{AreFlipped, IsRight, requests};
ghost use Rattle.lock_table.specs.Changing.{Altered, AreSound, IsAltering, IsBetween, IsChanged, IsExtending, IsUnpooledAt};
ghost use Rattle.lock_table.specs.Changing.{IsFullBut, IsSound, SparesPools, altered_at, changed_by, loses_by, want_then};

use crate::queues::queued_want;
use crate::refusals::refusal_of_modify;
use crate::steps::slot_of;
use crate::table::Table;
use key_queues::{Keys, Queue, Store, index_of};
use lock_queue::steps::changed_group;
use lock_queue::{LockReply, Refusal, Want};

/// The want `w`, made shared or exclusive as the change `c` says.
fn changed_by(c: &Want, w: &Want) -> Want
    ensures { result ≡ changed_by c.now w.now }
{
    let mut changed = w.copied();
    changed.group = changed_group(c.shared, w);
    changed.shared = c.shared;
    changed
}

/// The want of a slot in a queue, as it is once the job's want in that queue is changed.
fn want_then<const REQS: usize>(store: &Store<REQS>, p: u16, n: u16, job: u8, c: &Want) -> Want
    requires { IsUnpooledAt store.now n p }
    ensures { result ≡ want_then store.now n job c.now p }
{
    let w = queued_want(store, p, n);
    if store.get(p).request.job == job {
        changed_by(c, w)
    } else {
        w.copied()
    }
}

/// How many wants at the front of a queue fit, once the job's want in it is changed.
fn fitting_then<const REQS: usize>(
    store: &Store<REQS>,
    slots: &[u16],
    n: u16,
    job: u8,
    c: &Want,
) -> usize
    requires unpooled { All (IsUnpooledAt store.now n) slots.now }
    requires few { length slots.now ≤ JOBS }
    ensures value { result ≡ fitting (map (want_then store.now n job c.now) slots.now) }
    ensures most { result ≤ length slots.now }
{
    let mut queue = Queue::new();
    for p in slots {
        queue.append(*p, &want_then(store, *p, n, job, c));
    }
    queue.fitting()
}

/// Whether a request in one of these slots, from a position on, is granted.
fn is_some_granted<const REQS: usize>(store: &Store<REQS>, slots: &[u16], from: usize) -> bool
    requires { All (λ p. is_there p store.now.order ≡ true) slots.now }
    ensures { result ≡ list_any (λ p. (entry_at store.now p).granted) (drop from slots.now) }
{
    for i in from..slots.len() {
        if store.get(slots[i]).granted {
            return true;
        }
    }
    false
}

/// Whether a change takes a grant away.
fn loses<const REQS: usize>(store: &Store<REQS>, keys: &Keys<REQS>, job: u8, c: &Want) -> bool
    requires table { IsTable (state_of store.now keys.now) }
    requires right { AreRight store.now }
    requires spares { SparesPools store.now job c.now }
    ensures { result ≡ loses_by store.now job c.now }
{
    let Some(n) = keys.find(&c.key) else {
        return false;
    };
    let lock = &keys.locks()[n as usize];
    if lock.size.is_some() {
        return false;
    }
    let slots = lock.queue.as_slice();
    let k = fitting_then(store, slots, n, job, c);
    is_some_granted(store, slots, k)
}

/// Whether one of the changes takes a grant away.
fn some_loses<const REQS: usize>(
    store: &Store<REQS>,
    keys: &Keys<REQS>,
    job: u8,
    changes: &[Want],
) -> bool
    requires table { IsTable (state_of store.now keys.now) }
    requires right { AreRight store.now }
    requires spares { All (SparesPools store.now job) changes.now }
    ensures { result ≡ list_any (loses_by store.now job) changes.now }
{
    for c in changes {
        if loses(store, keys, job, c) {
            return true;
        }
    }
    false
}

/// Changes the want of a slot in a queue, in its entry alone.
fn alter_want<const REQS: usize>(store: &mut Store<REQS>, p: u16, n: u16, c: &Want)
    requires present { is_there p store.old.order ≡ true }
    requires within { position_or_len (λ m. m == n) (entry_at store.old p).queues.items < length (request_at store.old p).wants.items }
    ensures { store.new ≡ altered_at store.old n c.now p }
{
    let f = store.get(p);
    let i = index_of(f.queues.as_slice(), n);
    let w = changed_by(c, &f.request.wants.as_slice()[i]);
    store.set_want(p, i, &w);
}

/// Makes one change, and counts in the queue of its key no more wants than before. Further wants that fit are left
/// to `extend`.
fn alter<const REQS: usize>(store: &mut Store<REQS>, keys: &mut Keys<REQS>, job: u8, c: &Want)
    requires between { IsBetween store.old keys.old }
    requires sound { IsSound store.old keys.old job c.now }
    ensures between { IsBetween store.new keys.new }
    ensures altered { Altered store.old store.new keys.old keys.new job c.now }
{
    let Some(n) = keys.find(&c.key) else {
        return;
    };
    let lock = &keys.locks()[n as usize];
    if lock.size.is_some() {
        return;
    }
    let slots = lock.queue.as_slice();
    let k = fitting_then(store, slots, n, job, c);
    let first = want_then(store, slots[0], n, job, c);
    if let Some(p) = slot_of(store, slots, job) {
        alter_want(store, p, n, c);
        keys.recount(n, k, &first);
    }
}

/// Makes all changes, one after the other.
fn alter_all<const REQS: usize>(
    store: &mut Store<REQS>,
    keys: &mut Keys<REQS>,
    job: u8,
    changes: &[Want],
)
    requires between { IsBetween store.old keys.old }
    requires sound { AreSound store.old keys.old job changes.now }
    ensures between { IsBetween store.new keys.new }
    ensures altered { IsAltering store.old store.new keys.old keys.new job changes.now [] }
{
    for c in changes {
        alter(store, keys, job, c);
    }
}

impl<const REQS: usize> Table<REQS> {
    /// Counts all wants that fit, in the queues of the changes' keys.
    fn extend_all(&mut self, changes: &[Want])
        requires between { IsBetween self.old.store self.old.keys }
        requires full { IsFullBut self.old.store self.old.keys changes.now }
        ensures between { IsBetween self.new.store self.new.keys }
        ensures extended { IsExtending self.old.store self.new.store self.old.keys self.new.keys [] }
        ensures flips { AreFlipped self.old self.new }
    {
        for c in changes {
            let Some(n) = self.keys.find(&c.key) else {
                continue;
            };
            self.extend(n);
        }
    }

    /// A job's wants of the named keys become shared or exclusive, all of them or none. First all changes
    /// are made, then wants that fit are counted: what the first change would grant, the second may shut out.
    pub fn modify(&mut self, job: u8, changes: &[Want]) -> LockReply
        requires whole { IsRight REQS self.old }
        ensures whole { IsRight REQS self.new }
        ensures requests { requests self.new ≡ (modify (requests self.old) job changes.now).requests }
        ensures reply { result ≡ (modify (requests self.old) job changes.now).reply }
        ensures changed { result ≡ Done → IsChanged self.old.store self.new.store job changes.now }
        ensures flips { AreFlipped self.old self.new }
    {
        if let Some(refusal) = refusal_of_modify(&self.store, &self.keys, job, changes) {
            return LockReply::Refused(refusal);
        }
        if some_loses(&self.store, &self.keys, job, changes) {
            return LockReply::Refused(Refusal::WouldLose);
        }
        alter_all(&mut self.store, &mut self.keys, job, changes);
        self.extend_all(changes);
        LockReply::Done
    }
}
