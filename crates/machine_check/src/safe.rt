//! What holds of the requests at every time, clause by clause, as a reader would look for it in the list
//! (`lock_laws/specs/Safe.antt` and `Claims.antt`).

use crate::machines::{Listed, Machine};
use crate::plain_check::{fits, is_of_one_group};
use lock_queue::{EnqueueKind, Request, Want};
use word36::JOBS;

/// All bits of a status's first word but those that speak of the asker.
const OF_ALL_ASKERS: u64 = 0o477777_777777;

/// A want in the list.
#[derive(Clone, Copy)]
struct Placed<'a> {
    /// Whose it is.
    job: u8,
    /// The position of its request.
    position: usize,
    /// Whether its request is granted.
    granted: bool,
    want: &'a Want,
}

/// The size of a want's pool.
fn pool_size(want: &Want) -> Option<u32> {
    match want.pool {
        Some(pool) => Some(pool.size()),
        None => None,
    }
}

/// Whether a want has no level above an earlier one of its job, and does not bypass that rule.
fn is_too_low(earlier: &Placed, later: &Placed) -> bool {
    earlier.job == later.job
        && !later.want.bypass
        && later.want.level.number() <= earlier.want.level.number()
}

/// Whether two wants of one key have other levels or pools, or are of one job.
fn are_at_odds(earlier: &Placed, later: &Placed) -> bool {
    earlier.job == later.job
        || earlier.want.level != later.want.level
        || pool_size(earlier.want) != pool_size(later.want)
}

/// Whether two wants of one key, without a pool, are both owned and do not agree.
fn are_rival_owners(earlier: &Placed, later: &Placed) -> bool {
    earlier.granted
        && later.granted
        && later.want.pool.is_none()
        && !is_of_one_group(earlier.want, later.want)
}

/// Whether the later of two wants of one key is owned, though the earlier one does not fit.
fn overtakes(list: &[Listed], earlier: &Placed, later: &Placed) -> bool {
    later.granted && !fits(list, earlier.position, earlier.want)
}

/// Whether the later of two wants of one key fits, though the earlier one does not.
fn fits_behind(list: &[Listed], earlier: &Placed, later: &Placed) -> bool {
    fits(list, later.position, later.want) && !fits(list, earlier.position, earlier.want)
}

/// Whether two wants cannot stand in the list in this order.
fn is_wrong_pair(list: &[Listed], earlier: &Placed, later: &Placed) -> bool {
    is_too_low(earlier, later)
        || (earlier.want.key.is_same(&later.want.key)
            && (are_at_odds(earlier, later)
                || are_rival_owners(earlier, later)
                || overtakes(list, earlier, later)
                || fits_behind(list, earlier, later)))
}

/// Counts the wants before this one, the `n`th of its request, that cannot stand there.
fn wrong_before(list: &[Listed], later: &Placed, n: usize) -> u32 {
    let mut wrong = 0u32;
    for position in 0..list.len() {
        let request = list[position].request;
        for (m, want) in request.wants.iter().enumerate() {
            let earlier = Placed {
                job: request.job,
                position,
                granted: list[position].granted,
                want,
            };
            let is_earlier = position < later.position || (position == later.position && m < n);
            if is_earlier && is_wrong_pair(list, &earlier, later) {
                wrong = wrong.saturating_add(1);
            }
        }
    }
    wrong
}

/// How much the owners of a want's key have of its pool.
fn owned_amount(list: &[Listed], want: &Want) -> u64 {
    let mut amount = 0u64;
    for position in 0..list.len() {
        let listed = list[position];
        let request = listed.request;
        for other in request.wants.iter() {
            if listed.granted
                && other.key.is_same(&want.key)
                && let Some(pool) = other.pool
            {
                amount = amount.saturating_add(u64::from(pool.amount()));
            }
        }
    }
    amount
}

/// Whether the owners of a want's key have more than there is.
fn is_overdrawn(list: &[Listed], want: &Want) -> bool {
    match pool_size(want) {
        Some(size) => owned_amount(list, want) > u64::from(size),
        None => false,
    }
}

/// Whether a request by which its job waits is not the job's latest.
fn is_left_behind(list: &[Listed], position: usize, request: &Request) -> bool {
    let mut has_later = false;
    for later in position..list.len() {
        has_later = has_later || (later > position && list[later].request.job == request.job);
    }
    request.kind == EnqueueKind::Blocking && has_later
}

/// Counts what is wrong with the wants of a request.
fn wrong_wants(list: &[Listed], position: usize, request: &Request, granted: bool) -> u32 {
    let mut wrong = 0u32;
    for (n, want) in request.wants.iter().enumerate() {
        let placed = Placed {
            job: request.job,
            position,
            granted,
            want,
        };
        wrong = wrong.saturating_add(wrong_before(list, &placed, n));
        if is_overdrawn(list, want) {
            wrong = wrong.saturating_add(1);
        }
    }
    wrong
}

/// Counts what of the list is not safe.
pub fn count_unsafe(list: &[Listed]) -> u32 {
    let mut wrong = 0u32;
    for position in 0..list.len() {
        let request = list[position].request;
        let granted = list[position].granted;
        if !granted && is_left_behind(list, position, request) {
            wrong = wrong.saturating_add(1);
        }
        wrong = wrong.saturating_add(wrong_wants(list, position, request, granted));
    }
    wrong
}

/// Whether all jobs are answered the same about a want's key, but for whether they own it or wait for it, and its
/// own job that it owns the key where the request is granted and waits for it where not.
fn is_told_rightly<M: Machine>(machine: &M, listed: &Listed, want: &Want) -> bool {
    let key = &want.key;
    let [of_all, counts, amount] = machine.status(key, 0).words();
    for job in 1..=JOBS {
        let [of_one, its_counts, its_amount] = machine.status(key, job).words();
        let is_alike = of_one.number() & OF_ALL_ASKERS == of_all.number() & OF_ALL_ASKERS;
        if !is_alike || its_counts != counts || its_amount != amount {
            return false;
        }
    }
    let own = machine.status(key, listed.request.job);
    own.owns == listed.granted && own.waits != listed.granted
}

/// Counts the wants about which jobs are answered what is not so, and one more where there are more requests than a table
/// holds.
pub fn count_told_wrongly<M: Machine>(machine: &M, list: &[Listed]) -> u32 {
    let mut wrong = if list.len() > machine.most_requests() {
        1u32
    } else {
        0u32
    };
    for listed in list {
        for want in listed.request.wants.iter() {
            if !is_told_rightly(machine, listed, want) {
                wrong = wrong.saturating_add(1);
            }
        }
    }
    wrong
}
