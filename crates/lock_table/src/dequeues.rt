//! How a job gives up keys and requests.
ghost use Rattle.std.specs.Prelude.{◌≡◌, ◌≤◌, IfSome, [], None, length};
ghost use Rattle.word36.specs.declared.sizes.TheConstants.{JOBS, MOST_REQUESTS};
ghost use Rattle.lock_queue.specs.declared.call.LockCall.TheVariants.{DequeueAll, DequeueId, DequeueNamed};
ghost use Rattle.lock_queue.specs.declared.call.LockReply.TheVariants.{Done};
ghost use Rattle.lock_queue.specs.Grants.{left_of};
ghost use Rattle.lock_queue.specs.Dequeues.{dequeue_all, dequeue_fault, dequeue_id, dequeue_named, has_wants};
ghost use Rattle.lock_queue.specs.Outcomes.{first_refusal};
ghost use Rattle.key_queues.specs.States.{IsTable};
ghost use Rattle.lock_table.specs.Arrivals.{AreFound};
ghost use Rattle.lock_table.specs.Whole.{AreRight};
ghost use Rattle.lock_table.specs.Departures.{IsLeft, IsSoleNamed, LeavesBy, left_named};
ghost use Rattle.lock_table.specs.Tables.{AreFlipped, IsRight, requests, state};

use crate::found::FoundKeys;
use crate::leaving::{Leavers, Leaving};
use crate::queues::lock_of;
use crate::readings::sole_of;
use crate::refusals::refusal_of_dequeue;
use crate::steps::slot_of;
use crate::table::Table;
use key_queues::{Found, Store};
use lock_queue::{LockReply, Refusal, RequestId, Want, Wants};

/// The slot of a job's only request, where it has one want alone, whose key is the only one that is named. No key is
/// looked up.
fn sole_named<const REQS: usize>(store: &Store<REQS>, job: u8, named: &[Want]) -> Option<u16>
    requires { AreRight store.now }
    ensures { IfSome result (IsSoleNamed store.now job named.now) }
{
    match named {
        [w] => sole_of(store, job, &w.key),
        _ => None,
    }
}

impl<const REQS: usize> Table<REQS> {
    /// A job gives up its wants of some keys, one after the other; it has a want of each. That leaves the locks of the
    /// later keys as they are, so their look-ups hold.
    fn give_up_named(&mut self, job: u8, named: &[Want], found: &[Found])
        requires whole { IsRight REQS self.old }
        requires long { length found.now ≡ length named.now }
        requires found { AreFound 0 self.old.keys named.now found.now }
        requires passed { first_refusal (dequeue_fault (requests self.old) job) [] named.now ≡ None }
        ensures table { IsTable (state self.new) }
        ensures left { IsLeft self.old.store self.new.store (left_named self.old.store job named.now)
            (λ x. has_wants (left_named self.old.store job named.now x)) }
        ensures flips { AreFlipped self.old self.new }
    {
        for i in 0..named.len() {
            let Some(n) = found[i].number else {
                continue;
            };
            let slots = lock_of(&self.keys, n).queue.as_slice();
            let Some(p) = slot_of(&self.store, slots, job) else {
                continue;
            };
            self.give_up_in(p, n);
        }
    }

    /// A job gives up its wants of the named keys.
    pub fn dequeue_named(&mut self, job: u8, named: &Wants) -> LockReply
        requires whole { IsRight REQS self.old }
        requires job { job ≤ JOBS }
        ensures whole { IsRight REQS self.new }
        ensures requests { requests self.new ≡ (dequeue_named (requests self.old) job named.now.items).requests }
        ensures reply { result ≡ (dequeue_named (requests self.old) job named.now.items).reply }
        ensures left { result ≡ Done → LeavesBy (left_of job (DequeueNamed named.now)) self.old.store self.new.store }
        ensures flips { result ≡ Done → AreFlipped self.old self.new }
    {
        if let Some(p) = sole_named(&self.store, job, named.as_slice()) {
            self.leave(p);
            return LockReply::Done;
        }
        let mut found = FoundKeys::new();
        if let Some(refusal) = refusal_of_dequeue(
            &self.store,
            &self.keys,
            job,
            named.as_slice(),
            &mut found,
        ) {
            return LockReply::Refused(refusal);
        }
        self.give_up_named(job, named.as_slice(), found.as_slice());
        LockReply::Done
    }

    /// A job gives up all its requests.
    pub fn dequeue_all(&mut self, leaving: &mut Leaving, job: u8) -> LockReply
        requires whole { IsRight REQS self.old }
        requires small { REQS ≤ MOST_REQUESTS }
        ensures whole { IsRight REQS self.new }
        ensures requests { requests self.new ≡ (dequeue_all (requests self.old) job).requests }
        ensures reply { result ≡ (dequeue_all (requests self.old) job).reply }
        ensures left { result ≡ Done → LeavesBy (left_of job DequeueAll) self.old.store self.new.store }
        ensures flips { result ≡ Done → AreFlipped self.old self.new }
    {
        if !self.release(leaving, &Leavers::Job(job)) {
            return LockReply::Refused(Refusal::NotPresent);
        }
        LockReply::Done
    }

    /// A job gives up all its requests of an id.
    pub fn dequeue_id(&mut self, leaving: &mut Leaving, job: u8, id: RequestId) -> LockReply
        requires whole { IsRight REQS self.old }
        requires small { REQS ≤ MOST_REQUESTS }
        ensures whole { IsRight REQS self.new }
        ensures requests { requests self.new ≡ (dequeue_id (requests self.old) job id).requests }
        ensures reply { result ≡ (dequeue_id (requests self.old) job id).reply }
        ensures left { result ≡ Done → LeavesBy (left_of job (DequeueId id)) self.old.store self.new.store }
        ensures flips { result ≡ Done → AreFlipped self.old self.new }
    {
        if !self.release(leaving, &Leavers::Id(job, id)) {
            return LockReply::Refused(Refusal::NotPresent);
        }
        LockReply::Done
    }
}
