//! What a job waits for, in words.
ghost use Rattle.std.specs.Prelude.{◌≡◌, ◌++◌, ◌<◌, ℕ, List, OnOk, length, string_bytes};
ghost use Rattle.run_notes.specs.Words.{IsWaitText, before_words, jobs_words, wait_words};

use crate::locks::push_lock;
use lock_queue::Request;
use std::alloc::{AllocError, Global};
use wait_graph::{LockWait, lock_wait};

/// What stands before a job of a list, by its position and how many there are: ` job 2`, ` jobs 2, 3 and 5`.
fn before_job(position: usize, count: usize) -> &'static str
    requires { position < count }
    ensures { result.now ≡ before_words position count }
{
    if position == 0 {
        if count == 1 { " job " } else { " jobs " }
    } else if position + 1 == count {
        " and "
    } else {
        ", "
    }
}

/// Adds the jobs that keep a job waiting: ` job 2`, ` jobs 2, 3 and 5`.
fn push_keepers(text: &mut String, jobs: &[u8]) -> Result<(), AllocError>
    ensures { OnOk result (string_bytes text.new ≡ string_bytes text.old ++ jobs_words (length jobs.now) 0 jobs.now) }
{
    for (position, job) in jobs.iter().enumerate() {
        text.push_str(before_job(position, jobs.len()))?;
        write!(text, "{job}")?;
    }
    Ok(())
}

/// Adds what a job waits for: `lock X, held by job 2`, or `lock X, behind jobs 3 and 4` where nobody holds it.
#[tactic(auto, using(std::proofs::Common::append_assoc))]
fn push_wait(text: &mut String, wait: &LockWait<'_>) -> Result<(), AllocError>
    ensures { OnOk result (string_bytes text.new ≡ string_bytes text.old ++ wait_words wait.now) }
{
    let relation = if wait.is_held {
        ", held by"
    } else {
        ", behind"
    };
    text.push_str("lock ")?;
    push_lock(text, wait.want)?;
    text.push_str(relation)?;
    push_keepers(text, wait.jobs.as_slice())
}

/// Adds what a job waits for, by its request among these: `waits for lock X, held by job 2`.
pub fn push_lock_wait(
    alloc: Global,
    text: &mut String,
    requests: &[Request],
    job: u8,
) -> Result<(), AllocError>
    ensures { OnOk result ((words : List ℕ) × (string_bytes text.new ≡ string_bytes text.old ++ words)
        × IsWaitText requests.now job words) }
{
    text.push_str("waits for ")?;
    match lock_wait(alloc, requests, job)? {
        Some(wait) => push_wait(text, &wait),
        None => text.push_str("a lock"),
    }
}
