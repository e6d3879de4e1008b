//! A shortest circle of waits through a job.
ghost use Rattle.std.specs.Prelude.{◌≡◌, ◌<◌, true, false, None, Some, length, IfOk, IfSome, slice_get, slice_index_or};
ghost use Rattle.std.specs.Prelude.{◌&&◌, ℕ, nat_lt};
ghost use Rattle.std.specs.List.{list_any};
ghost use Rattle.lock_queue.specs.Waits.{is_circle, is_in_circle, jobs, leads_to};
ghost use Rattle.wait_graph.specs.Pairs.{pair_in};
ghost use Rattle.wait_graph.specs.Steps.{CountsSteps, counted, is_nearer, leads_on};

use crate::pairs::{NUMBERS, PairTable};
use std::alloc::{AllocError, Global};
use word36::JOBS;

/// For each job, the waits of a shortest walk to a target, or 0 where no walk leads there.
type StepTable = [u8; NUMBERS];

/// Whether a job waits for another from which steps are counted.
fn is_step(pairs: &PairTable, steps: &StepTable, job: usize, other: usize) -> bool
    requires job { job < NUMBERS }
    requires other { other < NUMBERS }
    ensures { result ≡ (pair_in pairs.now job other && nat_lt 0 (slice_index_or steps.now other 0)) }
{
    pairs[NUMBERS * job + other] && steps[other] > 0
}

/// Whether a job waits for one of those from which steps are counted.
fn has_step(pairs: &PairTable, steps: &StepTable, job: usize) -> bool
    requires { job < NUMBERS }
    ensures { result ≡ list_any (λ m. pair_in pairs.now job m && nat_lt 0 (slice_index_or steps.now m 0)) jobs }
{
    for other in 1..NUMBERS {
        if is_step(pairs, steps, job, other) {
            return true;
        }
    }
    false
}

/// Whether a job waits for the target, or for one of those from which steps are counted.
fn leads_on(pairs: &PairTable, steps: &StepTable, job: usize, target: usize) -> bool
    requires job { job < NUMBERS }
    requires target { target < NUMBERS }
    ensures { result ≡ leads_on pairs.now steps.now job target }
{
    pairs[NUMBERS * job + target] || has_step(pairs, steps, job)
}

/// The steps from a job to the target. Those that no earlier round has found take as many steps as rounds.
fn steps_from(pairs: &PairTable, steps: &StepTable, round: u8, job: usize, target: usize) -> u8
    requires job { job < NUMBERS }
    requires target { target < NUMBERS }
    ensures { result ≡ counted pairs.now steps.now round job target }
{
    let before = steps[job];
    if before == 0 && leads_on(pairs, steps, job, target) {
        round
    } else {
        before
    }
}

/// The steps from each job to the target, where these are at most as many as rounds.
fn count_further(pairs: &PairTable, steps: &StepTable, round: u8, target: usize) -> StepTable
    requires { target < NUMBERS }
    ensures { (j : ℕ) → j < NUMBERS → slice_index_or result j 0 ≡ counted pairs.now steps.now round j target }
{
    let mut further = [0u8; NUMBERS];
    for job in 0..NUMBERS {
        further[job] = steps_from(pairs, steps, round, job, target);
    }
    further
}

/// The steps from each job to the target.
fn steps_to(pairs: &PairTable, target: usize) -> StepTable
    requires { target < NUMBERS }
    ensures { CountsSteps pairs.now target JOBS result }
{
    let mut steps = [0u8; NUMBERS];
    for round in 0..JOBS {
        steps = count_further(pairs, &steps, round + 1, target);
    }
    steps
}

/// Whether one job waits for another, from which fewer steps are counted.
fn is_nearer(pairs: &PairTable, steps: &StepTable, job: usize, other: usize) -> bool
    requires job { job < NUMBERS }
    requires other { other < NUMBERS }
    ensures { result ≡ is_nearer pairs.now steps.now job other }
{
    pairs[NUMBERS * job + other] && 0 < steps[other] && steps[other] < steps[job]
}

/// The first job for which a job waits and from which fewer steps are counted.
fn next_on(pairs: &PairTable, steps: &StepTable, job: usize) -> Option<usize>
    requires { job < NUMBERS }
    ensures within { IfSome result (λ m. m < NUMBERS) }
    ensures nearer { IfSome result (λ m. is_nearer pairs.now steps.now job m ≡ true) }
    ensures none { result ≡ None → list_any (is_nearer pairs.now steps.now job) jobs ≡ false }
{
    for other in 1..NUMBERS {
        if is_nearer(pairs, steps, job, other) {
            return Some(other);
        }
    }
    None
}

/// Walks from the target to nearer and nearer jobs, until one waits for the target.
fn walk_back(
    alloc: Global,
    pairs: &PairTable,
    steps: &StepTable,
    target: usize,
) -> Result<Option<Vec<u8>>, AllocError>
    requires target { target < NUMBERS }
    requires steps { CountsSteps pairs.now target JOBS steps.now }
    ensures circle { IfOk result (λ o. IfSome o (λ circle. is_circle (pair_in pairs.now) circle.items ≡ true)) }
    ensures through { IfOk result (λ o. IfSome o (λ circle. slice_get circle.items 0 ≡ Some target)) }
    ensures none { IfOk result (λ o. o ≡ None → is_in_circle (pair_in pairs.now) target ≡ false) }
    ensures shortest { IfOk result (λ o. IfSome o (λ circle. (n : ℕ) → n < length circle.items
        → leads_to (pair_in pairs.now) n target target ≡ false)) }
{
    if steps[target] == 0 {
        return Ok(None);
    }
    let mut circle = Vec::new(alloc);
    circle.push(target as u8)?;
    let mut at = target;
    while !pairs[NUMBERS * at + target] {
        let Some(next) = next_on(pairs, steps, at) else {
            return Ok(None);
        };
        circle.push(next as u8)?;
        at = next;
    }
    Ok(Some(circle))
}

/// A shortest circle of waits through a job, if it is in one: each of these jobs waits for the next, and
/// the last for the first. The first is the job.
pub fn circle_through(
    alloc: Global,
    pairs: &PairTable,
    job: u8,
) -> Result<Option<Vec<u8>>, AllocError>
    ensures circle { IfOk result (λ o. IfSome o (λ circle. is_circle (pair_in pairs.now) circle.items ≡ true)) }
    ensures through { IfOk result (λ o. IfSome o (λ circle. slice_get circle.items 0 ≡ Some job)) }
    ensures none { IfOk result (λ o. o ≡ None → is_in_circle (pair_in pairs.now) job ≡ false) }
    ensures shortest { IfOk result (λ o. IfSome o (λ circle. (n : ℕ) → n < length circle.items
        → leads_to (pair_in pairs.now) n job job ≡ false)) }
{
    let target = usize::from(job);
    if target >= NUMBERS {
        return Ok(None);
    }
    let steps = steps_to(pairs, target);
    walk_back(alloc, pairs, &steps, target)
}
