//! What a lock table does, however it keeps its requests.
ghost use Rattle.std.specs.Prelude.{◌≡◌, ◌<◌, ◌≤◌, ◌^◌, ℕ, List, [], length, slice_get, Some, IfOk, IsTrue};
ghost use Rattle.std.specs.List.{list_all};
ghost use Rattle.word36.specs.declared.sizes.TheConstants.{JOBS, MOST_REQUESTS};
ghost use Rattle.lock_queue.specs.declared.request.Request.{Request as RequestView};
ghost use Rattle.lock_queue.specs.Calls.{outcome_of, requests_after, replies_to};
ghost use Rattle.lock_queue.specs.Grants.{woken_by, woken_by_release, woken_by_withdrawal};
ghost use Rattle.lock_queue.specs.Jobs.{released, withdrawn, withdrawn_all, is_waiting_job, pending, job_notified, waits_for};
ghost use Rattle.lock_queue.specs.Queue.{granted};
ghost use Rattle.lock_queue.specs.StatusWords.{status_of};
ghost use Rattle.lock_queue.specs.WellFormed.{are_well_formed, is_call, names_locks, all_share_rightly};

use crate::{Key, LockCall, LockReply, Request, RequestId, Status, Woken};
use std::alloc::{AllocError, Global};

/// The requests for locks, in order of arrival. After `new` no call takes memory.
pub trait LockTable: Drop {
    /// The most requests that may be present.
    ghost REQS: { ℕ };

    /// The most requests that may be present.
    const REQS: usize;

    /// The requests, in order of arrival.
    ghost requests: { Self → List RequestView };

    /// A table with no request, for 1 to 1,024 of them.
    fn new(alloc: Global) -> Result<Self, AllocError>
        requires { (1 ≤ REQS) × (REQS ≤ MOST_REQUESTS) }
        ensures { IfOk result (λ table. requests table ≡ []) };

    /// Makes one call of a job, whose number is from 1 to 63. A call that asks for locks or names them has
    /// 1 to 16 of them; none is a shared pool, and one that is not shared has group 0. A refused call
    /// changes no request, but for an interrupt request that is not granted at once: it stays.
    fn call(&mut self, job: u8, call: &LockCall) -> LockReply
        requires job { (1 ≤ job) × (job ≤ JOBS) }
        requires named { IsTrue (names_locks call.now) }
        requires unshared { IsTrue (all_share_rightly call.now) }
        ensures requests { requests self.new ≡
            (outcome_of REQS (requests self.old) job call.now).requests }
        ensures reply { result ≡ (outcome_of REQS (requests self.old) job call.now).reply };

    /// Makes one call in the same way, and fills in the grants that it makes: those of requests that
    /// were present and not granted before it, and are granted after it, in order of arrival. Requests
    /// of ENQ. function 1 are left out, since no job is notified of their grants, and so is the request
    /// that the call itself enters. A refused call makes no grants.
    fn call_waking(&mut self, job: u8, call: &LockCall, woken: &mut Woken) -> LockReply
        requires job { (1 ≤ job) × (job ≤ JOBS) }
        requires named { IsTrue (names_locks call.now) }
        requires unshared { IsTrue (all_share_rightly call.now) }
        ensures requests { requests self.new ≡
            (outcome_of REQS (requests self.old) job call.now).requests }
        ensures reply { result ≡ (outcome_of REQS (requests self.old) job call.now).reply }
        ensures woken { woken.new.items ≡ woken_by REQS (requests self.old) job call.now };

    /// Removes all requests of a job, as when the job ends.
    fn release(&mut self, job: u8)
        ensures { requests self.new ≡ released (requests self.old) job };

    /// Removes all requests of a job in the same way, and fills in the grants that this makes.
    fn release_waking(&mut self, job: u8, woken: &mut Woken)
        ensures requests { requests self.new ≡ released (requests self.old) job }
        ensures woken { woken.new.items ≡ woken_by_release (requests self.old) job };

    /// Removes the requests by which a job waits: its blocking ones that are not granted.
    fn withdraw(&mut self, job: u8)
        ensures { requests self.new ≡ withdrawn (requests self.old) job };

    /// Removes the requests by which some jobs wait: those of job `j` where the bit of weight 2^j is set in `jobs`. All
    /// are judged by the list as it is before the first is removed.
    fn withdraw_all(&mut self, jobs: u64)
        ensures { requests self.new ≡ withdrawn_all (requests self.old) jobs };

    /// Removes these requests in the same way, and fills in the grants that this makes.
    fn withdraw_all_waking(&mut self, jobs: u64, woken: &mut Woken)
        ensures requests { requests self.new ≡ withdrawn_all (requests self.old) jobs }
        ensures woken { woken.new.items ≡ woken_by_withdrawal (requests self.old) jobs };

    /// Whether a job waits: it has a blocking request that is not granted.
    fn is_waiting(&self, job: u8) -> bool
        ensures { result ≡ is_waiting_job (requests self.now) job };

    /// The id of the job's first interrupt request that is granted and not marked as notified.
    fn pending(&self, job: u8) -> Option<RequestId>
        ensures { result ≡ pending (requests self.now) job };

    /// Marks the request that `pending` gives as notified, and no other.
    fn mark_notified(&mut self, job: u8)
        ensures { requests self.new ≡ job_notified (requests self.old) job };

    /// The status of a key, for the job that asks.
    fn status(&self, key: &Key, job: u8) -> Status
        ensures { result ≡ status_of (requests self.now) key.now job };

    /// The number of requests.
    fn len(&self) -> usize
        ensures { result ≡ length (requests self.now) };

    /// The request at a position of the list, from 0 on.
    fn request(&self, i: usize) -> &Request
        requires { i < length (requests self.now) }
        ensures { slice_get (requests self.now) i ≡ Some result.now };

    /// Whether that request is granted.
    fn granted(&self, i: usize) -> bool
        requires { i < length (requests self.now) }
        ensures { result ≡ granted (requests self.now) i };

    /// Whether the first job waits for the second.
    fn waits_for(&self, job: u8, other: u8) -> bool
        ensures { result ≡ waits_for (requests self.now) job other };

    /// Removes all requests.
    fn clear(&mut self)
        ensures { requests self.new ≡ [] };

    /// A table is made for 1 to 1,024 requests.
    ghost sized: { (table : Self) → (1 ≤ REQS) × (REQS ≤ MOST_REQUESTS) };

    /// No more requests are present than the table is made for.
    ghost few: { (table : Self) → length (requests table) ≤ REQS };

    /// Each request is a job's, and has 1 to 16 wants, each of another key. A level has 9 bits. A pool is not
    /// shared, and its amount is from 1 to its size, of 18 bits. A want that is not shared has group 0.
    ghost well: { (table : Self) → IsTrue (are_well_formed (requests table)) };
}

/// Makes a list of calls, one after the other, each with its job, and writes each answer.
pub fn run_calls<L: LockTable>(table: &mut L, calls: &[(u8, LockCall)], replies: &mut [LockReply])
    requires positions { length calls.now ≡ length replies.old }
    requires calls { IsTrue (list_all (λ c. is_call c.0 c.1) calls.now) }
    ensures requests { L.requests table.new ≡ requests_after L.REQS (L.requests table.old) calls.now }
    ensures replies { replies.new ≡ replies_to L.REQS (L.requests table.old) calls.now }
{
    for (i, (job, call)) in calls.iter().enumerate() {
        replies[i] = table.call(*job, call);
    }
}
