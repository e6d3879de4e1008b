//! Which jobs wait in a circle.
ghost use Rattle.std.specs.Prelude.{◌≡◌, ◌<◌, ◌&&◌, ◌||◌, ℕ, false, slice_index_or};
ghost use Rattle.std.specs.List.{list_any};
ghost use Rattle.lock_queue.specs.Waits.{is_in_circle, jobs, leads_to};
ghost use Rattle.wait_graph.specs.Graphs.{closes_circle};
ghost use Rattle.wait_graph.specs.Pairs.{MarksWaiters, Tells, pair_in};

use crate::pairs::{JobMarks, NUMBERS, PAIRS, PairTable};
use word36::JOBS;

/// Whether a job waits for one that is reached.
fn is_step(pairs: &PairTable, reached: &JobMarks, job: usize, other: usize) -> bool
    requires job { job < NUMBERS }
    requires other { other < NUMBERS }
    ensures { result ≡ (pair_in pairs.now job other && slice_index_or reached.now other false) }
{
    pairs[NUMBERS * job + other] && reached[other]
}

/// Whether a job waits for one of those that are reached.
fn has_step(pairs: &PairTable, reached: &JobMarks, job: usize) -> bool
    requires { job < NUMBERS }
    ensures { result ≡ list_any (λ m. pair_in pairs.now job m && slice_index_or reached.now m false) jobs }
{
    for other in 1..NUMBERS {
        if is_step(pairs, reached, job, other) {
            return true;
        }
    }
    false
}

/// Whether a job waits for the target, or for a job from which a walk leads there. No pair of a job
/// that does not wait is looked at.
fn leads_on(
    pairs: &PairTable,
    waiting: &JobMarks,
    reached: &JobMarks,
    job: usize,
    target: usize,
) -> bool
    requires marked { MarksWaiters waiting.now (pair_in pairs.now) }
    requires job { job < NUMBERS }
    requires target { target < NUMBERS }
    ensures { result ≡ (pair_in pairs.now job target
        || list_any (λ m. pair_in pairs.now job m && slice_index_or reached.now m false) jobs) }
{
    if !waiting[job] {
        return false;
    }
    pairs[NUMBERS * job + target] || has_step(pairs, reached, job)
}

/// From which jobs a walk that may be one wait longer leads to the target.
fn lead_further(
    pairs: &PairTable,
    waiting: &JobMarks,
    reached: &JobMarks,
    target: usize,
) -> JobMarks
    requires marked { MarksWaiters waiting.now (pair_in pairs.now) }
    requires target { target < NUMBERS }
    ensures { (j : ℕ) → j < NUMBERS → slice_index_or result j false
        ≡ (pair_in pairs.now j target || list_any (λ m. pair_in pairs.now j m && slice_index_or reached.now m false) jobs) }
{
    let mut further = [false; NUMBERS];
    for job in 0..NUMBERS {
        further[job] = leads_on(pairs, waiting, reached, job, target);
    }
    further
}

/// From which jobs a walk of waits leads to the target. `waiting` has the jobs that wait; no pair of
/// another job is looked at.
pub fn leading_to(pairs: &PairTable, waiting: &JobMarks, target: usize) -> JobMarks
    requires marked { MarksWaiters waiting.now (pair_in pairs.now) }
    requires target { target < NUMBERS }
    ensures { (j : ℕ) → j < NUMBERS → slice_index_or result j false ≡ leads_to (pair_in pairs.now) JOBS j target }
{
    let mut reached = [false; NUMBERS];
    for steps in 0..JOBS {
        let further = lead_further(pairs, waiting, &reached, target);
        if further == reached {
            return reached;
        }
        reached = further;
    }
    reached
}

/// Whether a walk of waits leads from a job back to it. `waiting` has the jobs that wait.
pub fn is_in_circle(pairs: &PairTable, waiting: &JobMarks, job: usize) -> bool
    requires marked { MarksWaiters waiting.now (pair_in pairs.now) }
    requires job { job < NUMBERS }
    ensures { result ≡ is_in_circle (pair_in pairs.now) job }
{
    leading_to(pairs, waiting, job)[job]
}

/// Whether one job waits for another from which a walk of waits leads back.
fn closes_circle(pairs: &PairTable, waiting: &JobMarks, job: usize, other: usize) -> bool
    requires marked { MarksWaiters waiting.now (pair_in pairs.now) }
    requires job { job < NUMBERS }
    requires other { other < NUMBERS }
    ensures { result ≡ closes_circle (pair_in pairs.now) job other }
{
    pairs[NUMBERS * job + other] && leading_to(pairs, waiting, job)[other]
}

/// The table of the waits that are part of a circle. `waiting` has the jobs that wait.
pub fn circle_table(pairs: &PairTable, waiting: &JobMarks) -> PairTable
    requires { MarksWaiters waiting.now (pair_in pairs.now) }
    ensures { Tells result (closes_circle (pair_in pairs.now)) }
{
    let mut circles = [false; PAIRS];
    for i in 0..PAIRS {
        circles[i] = closes_circle(pairs, waiting, i / NUMBERS, i % NUMBERS);
    }
    circles
}
