//! Which wants fit behind earlier requests, and which requests are granted there.
ghost use Rattle.std.specs.Prelude.{◌≡◌, ◌+◌, nat_le, sum_by};
ghost use Rattle.std.specs.List.{list_all};
ghost use Rattle.lock_queue.specs.Jobs.{is_among, is_blocked, is_blocked_where};
ghost use Rattle.lock_queue.specs.Queue.{wants_at, agree, amount_of, fits, granted_behind};

use crate::among_wants::{all_agree_in, room_beside};
use crate::{EnqueueKind, Key, Pool, Request, Want};

/// Whether each earlier want of a want's key agrees with it.
fn all_agree(earlier: &[Request], w: &Want) -> bool
    ensures { result ≡ list_all (λ v. agree v w.now) (wants_at earlier.now w.now.key) }
{
    for r in earlier {
        if !all_agree_in(r.wants.as_slice(), w) {
            return false;
        }
    }
    true
}

/// Whether the earlier amounts of a key and this one add up to at most the pool's size.
fn is_room(earlier: &[Request], key: &Key, pool: Pool) -> bool
    ensures { result ≡
        nat_le (sum_by amount_of (wants_at earlier.now key.now) + pool.amount) pool.size }
{
    let mut left = pool.size() - pool.amount();
    for r in earlier {
        match room_beside(r.wants.as_slice(), key, left) {
            Some(rest) => left = rest,
            None => return false,
        }
    }
    true
}

/// Whether a want fits behind the earlier requests: without a pool where each earlier want of its
/// key, granted or not, agrees with it; with one where all the amounts are at most its size.
pub fn is_fitting(earlier: &[Request], w: &Want) -> bool
    ensures { result ≡ fits earlier.now w.now }
{
    match w.pool {
        None => all_agree(earlier, w),
        Some(pool) => is_room(earlier, &w.key, pool),
    }
}

/// Whether all of these wants fit behind the earlier requests.
pub fn are_fitting(earlier: &[Request], wants: &[Want]) -> bool
    ensures { result ≡ list_all (fits earlier.now) wants.now }
{
    wants.iter().all(|w| is_fitting(earlier, w))
}

/// Whether a request is granted behind the earlier ones.
pub fn is_granted(earlier: &[Request], r: &Request) -> bool
    ensures { result ≡ granted_behind earlier.now r.now }
{
    are_fitting(earlier, r.wants.as_slice())
}

/// Whether the job waits by this request: it is blocking, and not granted behind the earlier ones.
pub fn is_blocked(earlier: &[Request], r: &Request, job: u8) -> bool
    ensures { result ≡ is_blocked job earlier.now r.now }
{
    r.job == job && matches!(r.kind, EnqueueKind::Blocking) && !is_granted(earlier, r)
}

/// Whether a job is in a set of jobs, which has bit 2^j for each job `j`.
pub fn is_among(jobs: u64, job: u8) -> bool
    ensures { result ≡ is_among jobs job }
{
    job < 64 && (jobs >> job) & 1 == 1
}

/// Whether one of some jobs waits by this request.
pub fn is_blocked_among(earlier: &[Request], r: &Request, jobs: u64) -> bool
    ensures { result ≡ is_blocked_where (is_among jobs) earlier.now r.now }
{
    is_among(jobs, r.job) && matches!(r.kind, EnqueueKind::Blocking) && !is_granted(earlier, r)
}
