//! Which requests a call grants: those that wait are marked before it, and looked at after it.
ghost use Rattle.std.specs.Prelude.{◌≡◌, ◌≤◌, ◌==◌, ◌&&◌, [], not, length, is_some};
ghost use Rattle.std.specs.List.{list_any};
ghost use Rattle.word36.specs.declared.sizes.TheConstants.{MOST_REQUESTS};
ghost use Rattle.lock_queue.specs.Grants.{left_of};
ghost use Rattle.lock_queue.specs.Jobs.{is_among};
ghost use Rattle.lock_queue.specs.Queue.{names};
ghost use Rattle.plain_table.specs.GrantSteps.{awaits_grant, marks_behind, marks_without, raised_behind};

use arrayvec::ArrayVec;
use lock_queue::steps::{grant_of, is_blocked_among, is_granted, is_notified_of, names_key};
use lock_queue::{LockCall, Request, Want, Woken};

/// For each request that stays, whether its job awaits its grant.
pub type Marks<const REQS: usize> = ArrayVec<bool, REQS>;

/// Whether a request keeps a want where the job gives up the named keys.
fn keeps_want(r: &Request, job: u8, named: &[Want]) -> bool
    ensures { result ≡ list_any (λ w. not (r.now.job == job && names named.now w.key))
        r.now.wants.items }
{
    let is_own = r.job == job;
    let wants = r.wants.as_slice();
    wants.iter().any(|w| !(is_own && names_key(named, &w.key)))
}

/// Whether a request stays where a job's call is made.
fn stays(r: &Request, job: u8, call: &LockCall) -> bool
    ensures { result ≡ is_some (left_of job call.now r.now) }
{
    match call {
        LockCall::Enqueue { .. } | LockCall::Modify(_) => true,
        LockCall::DequeueNamed(named) => keeps_want(r, job, named.as_slice()),
        LockCall::DequeueAll => r.job != job,
        LockCall::DequeueId(id) => !(r.job == job && r.id == *id),
    }
}

/// Whether a request is not granted, and its job is to be notified of its grant.
fn awaits_grant(earlier: &[Request], r: &Request) -> bool
    ensures { result ≡ awaits_grant earlier.now r.now }
{
    is_notified_of(r.kind) && !is_granted(earlier, r)
}

/// Marks, of the requests that stay where a job's call is made, those whose jobs await their grants.
pub fn mark<const REQS: usize>(
    marks: &mut Marks<REQS>,
    requests: &[Request],
    job: u8,
    call: &LockCall,
)
    requires { length requests.now ≤ REQS }
    ensures { marks.new.items ≡ marks_behind (left_of job call.now) [] requests.now }
{
    marks.clear();
    for (i, r) in requests.iter().enumerate() {
        if stays(r, job, call) {
            marks.push(awaits_grant(&requests[..i], r));
        }
    }
}

/// Marks, of the requests that stay where those by which some jobs wait leave, those whose jobs await their grants.
pub fn mark_without<const REQS: usize>(marks: &mut Marks<REQS>, requests: &[Request], jobs: u64)
    requires { length requests.now ≤ REQS }
    ensures { marks.new.items ≡ marks_without (is_among jobs) [] requests.now }
{
    marks.clear();
    for (i, r) in requests.iter().enumerate() {
        let earlier = &requests[..i];
        if !is_blocked_among(earlier, r, jobs) {
            marks.push(awaits_grant(earlier, r));
        }
    }
}

/// Fills in the grants of the marked requests that are granted.
pub fn fill_woken(woken: &mut Woken, marks: &[bool], requests: &[Request])
    requires marks { length marks.now ≡ length requests.now }
    requires few { length requests.now ≤ MOST_REQUESTS }
    ensures { woken.new.items ≡ raised_behind [] marks.now requests.now }
{
    woken.clear();
    for i in 0..requests.len() {
        let r = &requests[i];
        let is_marked = marks[i];
        if is_marked && is_granted(&requests[..i], r) {
            woken.push(grant_of(r));
        }
    }
}
