//! How jobs stand, in words.
ghost use Rattle.std.specs.Prelude.{◌≡◌, ◌++◌, ℕ, List, IfOk, string_bytes};
ghost use Rattle.machine.specs.Views.{job_view};
ghost use Rattle.run_notes.specs.Standings.{IsStandingText, IsToldWait, limit_left_words, standing_of};
ghost use Rattle.run_notes.specs.Words.{IsWaitText};

use crate::job_stops::stop_text;
use crate::wait_lines::push_lock_wait;
use concrete_machine::Machine;
use job_sched::Wait;
use lock_queue::Request;
use monitor::JobView;
use run_facts::Standing;
use std::alloc::{AllocError, Global};

/// How a job stands, by what can be seen of it, if it is there.
fn standing_by(view: Option<JobView>) -> Standing
    ensures { result ≡ standing_of view }
{
    match view {
        None => Standing::Gone,
        Some(view) => match view.stop {
            Some(stop) => Standing::Stopped(stop),
            None => Standing::Goes(view.wait),
        },
    }
}

/// Whether a job is gone, stopped or goes on.
pub fn standing_of(machine: &Machine, job: u8) -> Standing
    ensures { result ≡ standing_of (job_view machine.now.world job) }
{
    standing_by(machine.job(job))
}

/// What a job waits for by its request among these, and what is left of its time limit, if it has one.
fn limited_wait_text(
    alloc: Global,
    requests: &[Request],
    job: u8,
    limit: u32,
) -> Result<String, AllocError>
    ensures { IfOk result (λ text. (words : List ℕ) × IsWaitText requests.now job words
        × (string_bytes text ≡ words ++ limit_left_words limit)) }
{
    let mut text = String::new(alloc);
    push_lock_wait(alloc, &mut text, requests, job)?;
    if limit > 0 {
        write!(text, ", for {limit} ticks more")?;
    }
    Ok(text)
}

/// What a job waits for, or that it runs.
fn wait_text(alloc: Global, requests: &[Request], job: u8, wait: Wait) -> Result<String, AllocError>
    ensures { IfOk result (λ text. IsToldWait requests.now job wait (string_bytes text)) }
{
    match wait {
        Wait::None => format!(in alloc; "still runs"),
        Wait::Sleep(ticks) => format!(in alloc; "sleeps for {ticks} ticks more"),
        Wait::Char => format!(in alloc; "waits for a character"),
        Wait::Line => format!(in alloc; "waits for a line"),
        Wait::Room(_) => format!(in alloc; "waits for its output to be taken"),
        Wait::Queue(limit, _) => limited_wait_text(alloc, requests, job, limit),
    }
}

/// How a job stands, where these are the requests.
pub fn standing_text_on(
    alloc: Global,
    requests: &[Request],
    job: u8,
    standing: Standing,
) -> Result<String, AllocError>
    ensures { IfOk result (λ text. IsStandingText requests.now job standing (string_bytes text)) }
{
    match standing {
        Standing::Gone => format!(in alloc; "LOGOUT"),
        Standing::Stopped(stop) => {
            let why = stop_text(stop);
            format!(in alloc; "{why}")
        }
        Standing::Goes(wait) => wait_text(alloc, requests, job, wait),
    }
}

/// How a job stands: `HALT`, `waits for lock X, held by job 2, for 5 ticks more`. What it waits for is told only where it is
/// not stopped.
pub fn standing_text(alloc: Global, machine: &Machine, job: u8) -> Result<String, AllocError>
    ensures { IfOk result (λ text. IsStandingText machine.now.world.requests job
        (standing_of (job_view machine.now.world job)) (string_bytes text)) }
{
    let requests = machine.requests(alloc)?;
    standing_text_on(alloc, requests.as_slice(), job, standing_of(machine, job))
}
