//! The facts of a tick.
ghost use Rattle.std.specs.Prelude.{◌≡◌, IfOk};
ghost use Rattle.std.specs.List.{filter_map};
ghost use Rattle.lock_queue.specs.Waits.{jobs};
ghost use Rattle.machine.specs.Machine.{happens};
ghost use Rattle.machine.specs.declared.event.Event.TheVariants.{Tick};
ghost use Rattle.run_events.specs.Facts.{ended_fact, facts_of_tick};

use crate::facts::Fact;
use crate::grants::{push_grants, waiting_id};
use core_store::CoreStore;
use lock_queue::steps::is_among;
use lock_queue::{LockTable, Request};
use monitor::System;
use std::alloc::{AllocError, Global};
use word36::JOBS;

/// The fact on a job, if it is one of those whose limits end. `before` are the requests that waited
/// before these leave.
fn ended_fact(ended: u64, before: &[Request], job: u8) -> Option<Fact>
    ensures { result ≡ ended_fact ended before.now job }
{
    if is_among(ended, job) {
        Some(Fact::LimitEnded(job, waiting_id(before, job)))
    } else {
        None
    }
}

/// The facts on the jobs whose limits end.
fn limits_ended(alloc: Global, ended: u64, before: &[Request]) -> Result<Vec<Fact>, AllocError>
    ensures { IfOk result (λ facts. facts.items ≡ filter_map (ended_fact ended before.now) jobs) }
{
    let mut facts = Vec::new(alloc);
    for job in 1..JOBS + 1 {
        match ended_fact(ended, before, job) {
            Some(fact) => facts.push(fact)?,
            None => {}
        }
    }
    Ok(facts)
}

/// Makes a tick, and gives its facts: the limits that end, and the grants that this makes.
pub fn tick_facts<L: LockTable, C: CoreStore>(
    alloc: Global,
    system: &mut System<L, C>,
) -> Result<Vec<Fact>, AllocError>
    ensures state { system.new ≡ (happens system.old Tick).state }
    ensures facts { IfOk result (λ facts. facts.items ≡ facts_of_tick system.old) }
{
    let (ended, before) = system.tick_told(alloc);
    if ended == 0 {
        return Ok(Vec::new(alloc));
    }
    let before = before?;
    let mut facts = limits_ended(alloc, ended, before.as_slice())?;
    if facts.is_empty() {
        return Ok(facts);
    }
    push_grants(&mut facts, before.as_slice(), system.locks())?;
    Ok(facts)
}
