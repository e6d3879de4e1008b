//! One call of a job.
ghost use Rattle.std.specs.Prelude.{◌≡◌, ◌≤◌, IsTrue};
ghost use Rattle.word36.specs.declared.sizes.TheConstants.{JOBS, MOST_REQUESTS};
ghost use Rattle.lock_queue.specs.declared.call.LockReply.TheVariants.{Done};
ghost use Rattle.lock_queue.specs.Calls.{outcome_of};
ghost use Rattle.lock_queue.specs.Grants.{left_of};
ghost use Rattle.lock_queue.specs.WellFormed.{all_share_rightly, names_locks};
ghost use Rattle.lock_table.specs.Departures.{LeavesBy};
ghost use Rattle.lock_table.specs.Tables.{AreFlipped, IsRight, requests};

use crate::leaving::Leaving;
use crate::table::Table;
use lock_queue::{LockCall, LockReply};

impl<const REQS: usize> Table<REQS> {
    /// Makes one call of a job.
    #[inline(always)]
    pub fn make(&mut self, leaving: &mut Leaving, job: u8, call: &LockCall) -> LockReply
        requires whole { IsRight REQS self.old }
        requires small { REQS ≤ MOST_REQUESTS }
        requires job { (1 ≤ job) × (job ≤ JOBS) }
        requires named { IsTrue (names_locks call.now) }
        requires unshared { IsTrue (all_share_rightly call.now) }
        ensures whole { IsRight REQS self.new }
        ensures requests { requests self.new ≡ (outcome_of REQS (requests self.old) job call.now).requests }
        ensures reply { result ≡ (outcome_of REQS (requests self.old) job call.now).reply }
        ensures left { result ≡ Done → LeavesBy (left_of job call.now) self.old.store self.new.store }
        ensures flips { result ≡ Done → AreFlipped self.old self.new }
    {
        match call {
            LockCall::Enqueue { asking, wants } => self.enqueue(job, asking, wants),
            LockCall::Modify(changes) => self.modify(job, changes.as_slice()),
            LockCall::DequeueNamed(named) => self.dequeue_named(job, named),
            LockCall::DequeueAll => self.dequeue_all(leaving, job),
            LockCall::DequeueId(id) => self.dequeue_id(leaving, job, *id),
        }
    }
}
