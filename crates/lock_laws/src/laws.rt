//! The laws of the lock queue. Each function does nothing: its contract is the law.
ghost use Rattle.std.specs.Prelude.{ℕ, List, [], IsTrue};
ghost use Rattle.lock_queue.specs.declared.call.LockCall.{LockCall as CallView};
ghost use Rattle.lock_queue.specs.declared.key.Key.{Key as KeyView};
ghost use Rattle.lock_queue.specs.WellFormed.{are_well_formed};
ghost use Rattle.lock_laws.specs.Circles.{CirclesAreTold, PlainJobsAreInNoCircle, WaitsByLatest};
ghost use Rattle.lock_laws.specs.Kept.{LatestIsKept, OwnersAreKept, SafetyIsKept, SafeJobsMakeNoCircle, WellFormednessIsKept};
ghost use Rattle.lock_laws.specs.Leaving.{ArrivalsGrantNobody, ListIsWhatIsLeft};
ghost use Rattle.lock_laws.specs.Runs.{AlwaysKeepsOwners, AlwaysSafe, CallersAreFree, NeverPlainCircle};
ghost use Rattle.lock_laws.specs.Safe.{OneParty, Safe};
ghost use Rattle.lock_laws.specs.Simple.{CallsAreSimple, RequestsAreSimple, SpellingIsSimple};
ghost use Rattle.lock_laws.specs.Told.{AllAreToldTheSame};
ghost use Rattle.lock_laws.specs.Waiting.{JobsAreKept, WaitingIsKept, WithdrawingEndsWaits};

use lock_queue::LockTable;

/// After the first k calls of any list, for each k, on a queue that was empty, the requests are safe: an
/// exclusive owner is alone, a pool is never overdrawn, a request owns all of its locks or none, and nobody
/// overtakes.
pub fn calls_are_safe()
    ensures { (size : ℕ) (calls : List (ℕ × CallView)) → AlwaysSafe size calls }
{}

/// A job loses what it owns only by a dequeue of its own.
pub fn jobs_keep_their_locks()
    ensures { (size : ℕ) (calls : List (ℕ × CallView)) → AlwaysKeepsOwners size calls }
{}

/// Where no job makes a call while it waits, jobs that ask for one lock at a time, by rising
/// levels, never wait for one another in a circle.
pub fn plain_jobs_make_no_circle()
    ensures { (size : ℕ) (calls : List (ℕ × CallView))
        → CallersAreFree size calls → NeverPlainCircle size calls }
{}

/// Safe requests stay safe over each change that a table can make.
pub fn safety_is_kept()
    ensures { (size : ℕ) → SafetyIsKept size }
{}

/// The owners of a key without a pool are one exclusive owner, or all of one group.
pub fn owners_are_one_party()
    ensures { OneParty }
{}

/// Owners stay owners over each change that a table can make, but for a dequeue of the owner and
/// the release of a job that is gone.
pub fn owners_are_kept()
    ensures { (size : ℕ) → OwnersAreKept size }
{}

/// Each change that a table can make keeps that a job waits by its latest request, and where the
/// requests are safe that rules out circles of plain jobs.
pub fn waits_are_by_latest()
    ensures latest { (size : ℕ) → LatestIsKept size }
    ensures circles { SafeJobsMakeNoCircle }
{}

/// The empty list of requests is safe and well-formed, and no job waits.
pub fn no_requests_are_safe()
    ensures safe { (size : ℕ) → Safe size [] }
    ensures latest { WaitsByLatest [] }
    ensures well { IsTrue (are_well_formed []) }
{}

/// Well-formed requests stay so over each change that a table can make.
pub fn well_formedness_is_kept()
    ensures { (size : ℕ) → WellFormednessIsKept size }
{}

/// A job begins to wait, or gets its first request, only by a call of its own; and a job whose wait is given
/// up does not wait.
pub fn waits_are_kept()
    ensures waiting { (size : ℕ) → WaitingIsKept size }
    ensures jobs { (size : ℕ) → JobsAreKept size }
    ensures withdrawals { WithdrawingEndsWaits }
{}

/// A request that arrives changes no grant of those before it; and after a call that is done the list is what
/// the call leaves of each request, from which its grants are worked out.
pub fn calls_leave_the_rest()
    ensures arrivals { ArrivalsGrantNobody }
    ensures left { (size : ℕ) → ListIsWhatIsLeft size }
{}

/// A job is reported in a circle exactly where a walk of waits, of whatever length, leads from it back to it;
/// and where all present requests are those of plain jobs, no job is.
pub fn circles_are_told()
    ensures told { CirclesAreTold }
    ensures plain { PlainJobsAreInNoCircle }
{}

/// Where no want has a group and each quota is above the size of the queue, the queue is that in which
/// all who share agree and no job has a quota: it has the same owners, waiters and waits, calls leave and
/// answer the same, and a lock that is spelled without a group means the same.
pub fn queue_without_groups_is_simple()
    ensures requests { RequestsAreSimple }
    ensures calls { CallsAreSimple }
    ensures spelling { SpellingIsSimple }
{}

/// The status words of a key, of any table, are the same for all jobs that ask, but for the two bits on the
/// asking job itself.
pub fn askers_are_told_alike<L: LockTable>(table: &L)
    ensures { (key : KeyView) → AllAreToldTheSame (L.requests table.now) key }
{}
