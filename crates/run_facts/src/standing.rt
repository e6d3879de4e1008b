//! How jobs ended, and the exit status for it.
ghost use Rattle.std.specs.Prelude.{◌≡◌};
ghost use Rattle.std.specs.List.{list_all, list_any};
ghost use Rattle.run_facts.specs.Ends.{is_at_fault, is_end, has_ended_well, status_if_cut, status_of};

use crate::statuses::{CIRCLE, CUT, DONE, FAULT, REFUSED, UNASKED_CUT};
use job_sched::{Stop, Wait};
use ka_state::StopReason;

/// How a job stands at the end of a run.
#[derive(Clone, Copy, Debug, PartialEq, Eq)]
pub enum Standing {
    /// It has logged out.
    Gone,
    /// It is stopped.
    Stopped(Stop),
    /// It is ready to run, or waits.
    Goes(Wait),
}

/// Whether a reason to be stopped is EXIT, EXIT 1 or HALT.
fn is_end(stop: Stop) -> bool
    ensures { result ≡ is_end stop }
{
    matches!(
        stop,
        Stop::Exit | Stop::Monitor | Stop::Fault(StopReason::Halt)
    )
}

/// Whether a job ended by EXIT, EXIT 1, HALT or LOGOUT.
pub fn has_ended_well(standing: Standing) -> bool
    ensures { result ≡ has_ended_well standing }
{
    match standing {
        Standing::Gone => true,
        Standing::Stopped(stop) => is_end(stop),
        Standing::Goes(_) => false,
    }
}

/// Whether all jobs ended so.
fn have_ended_well(standings: &[Standing]) -> bool
    ensures { result ≡ list_all has_ended_well standings.now }
{
    standings.iter().all(|standing| has_ended_well(*standing))
}

/// Whether the processor stopped a job at a fault.
fn is_at_fault(standing: Standing) -> bool
    ensures { result ≡ is_at_fault standing }
{
    match standing {
        Standing::Stopped(Stop::Fault(reason)) => reason != StopReason::Halt,
        _ => false,
    }
}

/// Whether the processor stopped one of some jobs at a fault.
fn is_some_at_fault(standings: &[Standing]) -> bool
    ensures { result ≡ list_any is_at_fault standings.now }
{
    standings.iter().any(|standing| is_at_fault(*standing))
}

/// Whether a run was cut after some steps, with jobs that could go on.
#[derive(Clone, Copy, Debug, PartialEq, Eq)]
pub enum Cut {
    /// It ended by itself.
    No,
    /// After as many steps as were asked for.
    Asked,
    /// After as many as are made where none were asked for.
    Unasked,
}

impl Cut {
    /// The exit status of a run that was cut so, or of one that left a job waiting.
    fn status(self) -> u8
        ensures { result ≡ status_if_cut self }
    {
        match self {
            Cut::No => REFUSED,
            Cut::Asked => CUT,
            Cut::Unasked => UNASKED_CUT,
        }
    }
}

/// What else is known of the end of a run.
#[derive(Clone, Copy, Debug, PartialEq, Eq)]
pub struct RunOutcome {
    /// Whether jobs wait in a circle.
    pub has_circle: bool,
    /// Whether it was cut.
    pub cut: Cut,
}

/// The exit status of a run: 4 where jobs wait in a circle; else 6 where a job was stopped at a fault;
/// else 0 where all jobs ended well; else 5 or 7 where the run was cut; else 1.
pub fn status_of(ending: RunOutcome, standings: &[Standing]) -> u8
    ensures { result ≡ status_of ending.has_circle ending.cut standings.now }
{
    if ending.has_circle {
        CIRCLE
    } else if is_some_at_fault(standings) {
        FAULT
    } else if have_ended_well(standings) {
        DONE
    } else {
        ending.cut.status()
    }
}
