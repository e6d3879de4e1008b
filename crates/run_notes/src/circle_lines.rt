//! Circles of waits, in words.
ghost use Rattle.std.specs.Prelude.{◌≡◌, ◌<◌, ◌≤◌, ◌++◌, ℕ, List, None, Some, false, true, length, nat_lt, IfOk, IfSome, OnOk};
ghost use Rattle.std.specs.Prelude.{slice_get, slice_index_or, string_bytes};
ghost use Rattle.std.specs.List.{IsFirstBest, list_any};
ghost use Rattle.lock_queue.specs.Jobs.{waits_for};
ghost use Rattle.lock_queue.specs.Waits.{is_circle, is_in_circle, jobs, leads_to};
ghost use Rattle.run_notes.specs.Words.{AreJobTexts, IsCircleLine, IsCircleText, IsFromLeast};
ghost use Rattle.run_notes.specs.Words.{circle_words, first_or, had_words, job_words, waited_words};
ghost use Rattle.word36.specs.declared.sizes.TheConstants.{JOBS};

use crate::locks::push_name;
use concrete_machine::Machine;
use lock_queue::Request;
use std::alloc::{AllocError, Global};
use wait_graph::{LockBetween, NUMBERS, circle_through, is_in_circle, lock_between};
use word36::JOBS;

/// A shortest circle of waits that a job is in, if it is in one: each job of it waits for the next, and the last for
/// the first, which is the job.
pub fn circle_of(alloc: Global, machine: &Machine, job: u8) -> Result<Option<Vec<u8>>, AllocError>
    ensures circle { IfOk result (λ o. IfSome o (λ circle. is_circle (waits_for machine.now.world.requests) circle.items ≡ true)) }
    ensures through { IfOk result (λ o. IfSome o (λ circle. slice_get circle.items 0 ≡ Some job)) }
    ensures shortest { IfOk result (λ o. IfSome o (λ circle. (n : ℕ) → n < length circle.items
        → leads_to (waits_for machine.now.world.requests) n job job ≡ false)) }
    ensures none { IfOk result (λ o. o ≡ None → job ≤ JOBS → is_in_circle (waits_for machine.now.world.requests) job ≡ false) }
{
    let waiting = machine.waiting_jobs();
    let pairs = machine.pair_table(&waiting);
    if job > JOBS {
        return Ok(None);
    }
    if !is_in_circle(&pairs, &waiting, usize::from(job)) {
        return Ok(None);
    }
    circle_through(alloc, &pairs, job)
}

/// Whether some job is in a circle of waits.
pub fn has_circle(machine: &Machine) -> bool
    ensures { result ≡ list_any (is_in_circle (waits_for machine.now.world.requests)) jobs }
{
    let waiting = machine.waiting_jobs();
    let pairs = machine.pair_table(&waiting);
    for job in 1..NUMBERS {
        if is_in_circle(&pairs, &waiting, job) {
            return true;
        }
    }
    false
}

/// Adds which lock a job of a circle has that the job before it waits for: `has A`, or `is in front for A` where it
/// does not own the lock.
#[tactic(auto, using(std::proofs::Common::append_assoc))]
fn push_has(text: &mut String, between: Option<LockBetween<'_>>) -> Result<(), AllocError>
    ensures { OnOk result (string_bytes text.new ≡ string_bytes text.old ++ had_words between.entry) }
{
    let Some(between) = between else {
        return text.push_str("is in front");
    };
    let has = if between.is_held {
        "has "
    } else {
        "is in front for "
    };
    text.push_str(has)?;
    push_name(text, &between.want.key.name)
}

/// Adds which lock a job of a circle waits for, which the next job has.
#[tactic(auto, using(std::proofs::Common::append_assoc))]
fn push_waits(text: &mut String, between: Option<LockBetween<'_>>) -> Result<(), AllocError>
    ensures { OnOk result (string_bytes text.new ≡ string_bytes text.old ++ waited_words between.entry) }
{
    match between {
        Some(between) => {
            text.push_str("waits for ")?;
            push_name(text, &between.want.key.name)
        }
        None => text.push_str("waits for a lock"),
    }
}

/// Adds a job of a circle, by the lock that it has, from which it keeps the job before it, and the one that it waits for:
/// ` job 1 (has A, waits for B)`.
#[tactic(auto, using(std::proofs::Common::append_assoc))]
fn push_job(
    text: &mut String,
    job: u8,
    had: Option<LockBetween<'_>>,
    waited: Option<LockBetween<'_>>,
) -> Result<(), AllocError>
    ensures { OnOk result
        (string_bytes text.new ≡ string_bytes text.old ++ job_words job (had_words had.entry) (waited_words waited.entry)) }
{
    write!(text, " job {job} (")?;
    push_has(text, had)?;
    text.push_str(", ")?;
    push_waits(text, waited)?;
    text.push_str(")")
}

/// The job at a position of a circle; 0 where there is none.
fn at(circle: &[u8], position: usize) -> u8
    ensures { result ≡ slice_index_or circle.now position 0 }
{
    circle.get(position).copied().unwrap_or(0)
}

/// The position of the job with the least number.
fn least_position(circle: &[u8]) -> usize
    requires { 0 < length circle.now }
    ensures { IsFirstBest nat_lt circle.now (length circle.now) result }
{
    let mut least = 0;
    for i in 1..circle.len() {
        if circle[i] < circle[least] {
            least = i;
        }
    }
    least
}

/// The jobs of a circle, from the one with the least number on.
fn from_least(alloc: Global, circle: &[u8]) -> Result<Vec<u8>, AllocError>
    ensures { IfOk result (λ jobs. IsFromLeast circle.now jobs.items) }
{
    let least = if circle.is_empty() {
        0
    } else {
        least_position(circle)
    };
    let mut jobs = Vec::new(alloc);
    jobs.extend_from_slice(&circle[least..])?;
    jobs.extend_from_slice(&circle[..least])?;
    Ok(jobs)
}

/// The first of some jobs, or another one where there is none.
fn first_or(jobs: &[u8], other: u8) -> u8
    ensures { result ≡ first_or other jobs.now }
{
    match jobs {
        [] => other,
        [job, ..] => *job,
    }
}

/// Adds some jobs of a circle, one after the other, which stand between `before` and `after`; `comma` stands before the first.
fn push_jobs(
    text: &mut String,
    requests: &[Request],
    before: u8,
    jobs: &[u8],
    after: u8,
    comma: &str,
) -> Result<(), AllocError>
    ensures { OnOk result ((words : List ℕ) × (string_bytes text.new ≡ string_bytes text.old ++ words)
        × AreJobTexts requests.now before jobs.now after comma.now words) }
{
    match jobs {
        [] => Ok(()),
        [job, later @ ..] => {
            let had = lock_between(requests, before, *job);
            let waited = lock_between(requests, *job, first_or(later, after));
            text.push_str(comma)?;
            push_job(text, *job, had, waited)?;
            push_jobs(text, requests, *job, later, after, ",")
        }
    }
}

/// Adds the line on a circle, from its first job on.
fn push_circle(
    text: &mut String,
    tick: u64,
    requests: &[Request],
    jobs: &[u8],
) -> Result<(), AllocError>
    ensures { OnOk result ((words : List ℕ) × (string_bytes text.new ≡ string_bytes text.old ++ circle_words tick words)
        × IsCircleText requests.now jobs.now words) }
{
    let last = at(jobs, jobs.len().saturating_sub(1));
    write!(text, "tick {tick}: circle:")?;
    push_jobs(text, requests, last, jobs, first_or(jobs, 0), "")?;
    text.push_str("\n")
}

/// The line on a circle, from its least job on: `tick 94: circle: job 1 (has A, waits for B), job 2 (has B, waits for
/// A)`.
pub fn circle_line(
    alloc: Global,
    tick: u64,
    machine: &Machine,
    circle: &[u8],
) -> Result<String, AllocError>
    ensures { IfOk result (λ text. IsCircleLine tick machine.now.world.requests circle.now (string_bytes text)) }
{
    let requests = machine.requests(alloc)?;
    let jobs = from_least(alloc, circle)?;
    let mut text = String::new(alloc);
    push_circle(&mut text, tick, requests.as_slice(), jobs.as_slice())?;
    Ok(text)
}
