//! How jobs stand.
ghost use Rattle.std.specs.Prelude.{◌≡◌, IfOk, string_bytes};
ghost use Rattle.run_notes.specs.Seen.{job_view};
ghost use Rattle.run_notes.specs.Standings.{standing_by, standing_of};
ghost use Rattle.ddt_show.specs.Jobs.{IsJobLine, IsToldStanding, at_words};

use crate::addresses::ShownJob;
use concrete_machine::Machine;
use job_sched::{Stop, Wait};
use run_notes::{Reference, standing_text};
use source_labels::Places;
use std::alloc::{AllocError, Global};
use word36::{ADDRESSES, Address};

/// The state of a job that is stopped so and waits so: that it runs, why it is stopped, or what it waits for, as `ten` tells it.
fn standing(
    alloc: Global,
    machine: &Machine,
    number: u8,
    stop: Option<Stop>,
    wait: Wait,
) -> Result<String, AllocError>
    requires { standing_of (job_view machine.now.world number) ≡ standing_by stop wait }
    ensures { IfOk result (λ text. IsToldStanding machine.now.world.requests number stop wait (string_bytes text)) }
{
    match (stop, wait) {
        (None, Wait::None) => format!(in alloc; "runs"),
        _ => standing_text(alloc, machine, number),
    }
}

/// At which address a job is: the one at which it ended; that of its lock call, from which it goes on with a skip; else its PC.
fn at_text(
    alloc: Global,
    places: &Places,
    pc: Address,
    stop: Option<Stop>,
    wait: Wait,
    ended_at: Option<Address>,
) -> Result<String, AllocError>
    ensures { IfOk result (λ text. string_bytes text ≡ at_words places.now pc stop wait ended_at) }
{
    let (before, address) = match (ended_at, stop, wait) {
        (Some(address), _, _) => (" at ", address),
        (None, None, Wait::Queue(_, _)) => (", at ", pc.plus(ADDRESSES - 2)),
        _ => (", PC ", pc),
    };
    let spot = Reference {
        places,
        address: address.number(),
    };
    format!(in alloc; "{before}{spot}")
}

/// The line on a job: `job 1, counter.mac: runs, PC LOOP+3`, `job 1, counter.mac: waits for lock X, held by job 2, at LOOP+1`, or
/// where it ended, at the address given, `job 1, counter.mac: EXIT at LOOP+17`.
pub fn job_line(
    alloc: Global,
    machine: &Machine,
    job: &ShownJob,
    file: &str,
    ended_at: Option<Address>,
) -> Result<String, AllocError>
    ensures { IfOk result (λ text. IsJobLine machine.now.world.requests job.now.places job.now.number file.now ended_at
        (job_view machine.now.world job.now.number) (string_bytes text)) }
{
    let number = job.number;
    let Some(view) = machine.job(number) else {
        return format!(in alloc; "job {number}, {file}: gone\n");
    };
    let standing = standing(alloc, machine, number, view.stop, view.wait)?;
    let at = at_text(alloc, &job.places, view.pc, view.stop, view.wait, ended_at)?;
    format!(in alloc; "job {number}, {file}: {standing}{at}\n")
}
