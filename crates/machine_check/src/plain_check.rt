//! The queue's rule, worked out anew from the list of requests, beside what the machine says of it.

use crate::machines::{Listed, Machine};
use crate::safe::{count_told_wrongly, count_unsafe};
use job_sched::Wait;
use lock_queue::{Request, Want};
use std::alloc::Global;
use word36::JOBS;

/// How much earlier wants of the key take of their pools.
fn amount_before(list: &[Listed], position: usize, want: &Want) -> u64 {
    let mut amount = 0u64;
    for i in 0..position.min(list.len()) {
        let request = list[i].request;
        for earlier in request.wants.iter() {
            if earlier.key.is_same(&want.key)
                && let Some(pool) = earlier.pool
            {
                amount = amount.saturating_add(u64::from(pool.amount()));
            }
        }
    }
    amount
}

/// Whether two wants share their key in one group.
pub fn is_of_one_group(v: &Want, w: &Want) -> bool {
    v.shared && w.shared && v.group == w.group
}

/// Whether an earlier want of the key does not share it with this one.
fn is_opposed(list: &[Listed], position: usize, want: &Want) -> bool {
    for i in 0..position.min(list.len()) {
        let request = list[i].request;
        for earlier in request.wants.iter() {
            if earlier.key.is_same(&want.key) && !is_of_one_group(earlier, want) {
                return true;
            }
        }
    }
    false
}

/// Whether no request before a position stands in the way of a want.
pub fn fits(list: &[Listed], position: usize, want: &Want) -> bool {
    match want.pool {
        Some(pool) => {
            let taken = amount_before(list, position, want);
            taken.saturating_add(u64::from(pool.amount())) <= u64::from(pool.size())
        }
        None => !is_opposed(list, position, want),
    }
}

/// Whether each want of a request fits behind the earlier ones.
fn is_due(list: &[Listed], position: usize, request: &Request) -> bool {
    for want in request.wants.iter() {
        if !fits(list, position, want) {
            return false;
        }
    }
    true
}

/// Whether a job has a wait for the queue that holds.
fn waits_for_queue<M: Machine>(machine: &M, job: u8) -> bool {
    match machine.view(job) {
        Some(view) => matches!(view.wait, Wait::Queue(..)),
        None => false,
    }
}

/// Counts the requests that are granted and ought not to be, or the other way round, and those whose
/// job is not there.
fn wrong_requests<M: Machine>(machine: &M, list: &[Listed]) -> u32 {
    let mut wrong = 0u32;
    for position in 0..list.len() {
        let request = list[position].request;
        let is_there = machine.view(request.job).is_some();
        if !is_there || list[position].granted != is_due(list, position, request) {
            wrong = wrong.saturating_add(1);
        }
    }
    wrong
}

/// Counts the jobs that wait for the queue without a blocking request, or have one that is not
/// granted and do not wait; and those that the machine says wait in a circle of one.
fn wrong_jobs<M: Machine>(machine: &M) -> u32 {
    let mut wrong = 0u32;
    for job in 1..=JOBS {
        let waits = machine.waits(job);
        if waits != waits_for_queue(machine, job) || machine.waits_for(job, job) {
            wrong = wrong.saturating_add(1);
        }
    }
    wrong
}

/// How many faults there are in the state of the machine; one where there is no memory to list its requests.
pub fn count_faults<M: Machine>(alloc: Global, machine: &M) -> u32 {
    let Ok(list) = machine.list_requests(alloc) else {
        return 1;
    };
    let list = list.as_slice();
    wrong_requests(machine, list)
        .saturating_add(wrong_jobs(machine))
        .saturating_add(count_unsafe(list))
        .saturating_add(count_told_wrongly(machine, list))
}
