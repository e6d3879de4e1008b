//! The exit status for what was found.
ghost use Rattle.std.specs.Prelude.{◌≡◌, length};
ghost use Rattle.std.specs.List.{list_any};
ghost use Rattle.order_report.specs.Statuses.{found_status, has_fault, has_waiter, is_fault, is_waiter, report_status};

use crate::findings::{End, EndedJob, Found, Report};
use run_facts::{DONE, Standing, has_ended_well};

/// More states than may be kept, or a state from which the search cannot go on; or reading, writing or memory failed.
pub const FAILED: u8 = 3;

/// Some order leads to a circle of waits.
pub const CIRCLE: u8 = 4;

/// No order leads to a circle, but in one a job is left waiting.
pub const WAITS: u8 = 5;

/// No order leads to a circle, but in one the processor stops a job.
pub const FAULT: u8 = 6;

/// None of these, but there are two ends or more, or none.
pub const DIFFERS: u8 = 7;

/// Whether a job is stopped, and not by EXIT, EXIT 1 or HALT.
fn is_fault(standing: Standing) -> bool
    ensures { result ≡ is_fault standing }
{
    match standing {
        Standing::Stopped(_) => !has_ended_well(standing),
        Standing::Gone | Standing::Goes(_) => false,
    }
}

/// Whether a job waits.
fn is_waiter(standing: Standing) -> bool
    ensures { result ≡ is_waiter standing }
{
    match standing {
        Standing::Goes(_) => true,
        Standing::Gone | Standing::Stopped(_) => false,
    }
}

/// Whether a job is so at an end.
fn has_fault(jobs: &[EndedJob]) -> bool
    ensures { result ≡ has_fault jobs.now }
{
    jobs.iter().any(|job| is_fault(job.standing))
}

/// Whether a job waits at an end.
fn has_waiter(jobs: &[EndedJob]) -> bool
    ensures { result ≡ has_waiter jobs.now }
{
    jobs.iter().any(|job| is_waiter(job.standing))
}

/// Whether a job is stopped so at one of some ends.
fn some_fault(ends: &[End]) -> bool
    ensures { result ≡ list_any (λ e. has_fault e.jobs.items) ends.now }
{
    ends.iter().any(|end| has_fault(end.jobs.as_slice()))
}

/// Whether a job waits at one of some ends.
fn some_waiter(ends: &[End]) -> bool
    ensures { result ≡ list_any (λ e. has_waiter e.jobs.items) ends.now }
{
    ends.iter().any(|end| has_waiter(end.jobs.as_slice()))
}

/// The status for a report.
fn report_status(report: &Report) -> u8
    ensures { result ≡ report_status report.now }
{
    let ends = report.ends.as_slice();
    if report.circle.is_some() {
        CIRCLE
    } else if some_fault(ends) {
        FAULT
    } else if some_waiter(ends) {
        WAITS
    } else if ends.len() == 1 {
        DONE
    } else {
        DIFFERS
    }
}

/// The exit status for what was found: of the circle, 4; a job that the processor stops, 6; a job that is left waiting, 5; two
/// ends or more, or none, 7; the first of these that holds, and 0 where there is one end, at which all jobs ended by EXIT,
/// EXIT 1, LOGOUT or HALT. Where the search gave up, 3.
pub fn status_of(found: &Found) -> u8
    ensures { result ≡ found_status found.now }
{
    match found {
        Found::All(report) => report_status(report),
        Found::TooMany(_) | Found::GaveUp(_) => FAILED,
    }
}
