//! The facts of a step.
ghost use Rattle.std.specs.Prelude.{◌≡◌, ◌≤◌, ◌++◌, Some, IfOk, OnOk};
ghost use Rattle.lock_queue.specs.Jobs.{waits_for};
ghost use Rattle.lock_queue.specs.Waits.{is_in_circle};
ghost use Rattle.word36.specs.declared.sizes.TheConstants.{JOBS};
ghost use Rattle.machine.specs.Machine.{happens};
ghost use Rattle.machine.specs.declared.event.Event.TheVariants.{Step};
ghost use Rattle.run_events.specs.Facts.{called_facts, closed_facts, ended_facts, facts_if, facts_of_step, facts_told, moved_by};

use crate::facts::{Called, Fact};
use crate::grants::push_moved;
use core_store::CoreStore;
use lock_queue::{LockReply, LockTable, Request};
use machine::{JobView, Told};
use monitor::System;
use std::alloc::{AllocError, Global};
use uuo_calls::{Asked, BlockRoom, MonitorCall};
use wait_graph::{is_in_circle, pair_table, waiting_jobs};
use word36::{Address, JOBS};

/// Adds a lock call that a job made, and takes its block out of the room.
#[inline(never)]
fn push_call(
    facts: &mut Vec<Fact>,
    job: u8,
    next: Address,
    asked: Asked,
    reply: LockReply,
    room: &mut BlockRoom,
) -> Result<(), AllocError>
    ensures { OnOk result (facts.new.items ≡ facts.old.items ++ called_facts job next (Some asked) room.old (Some reply)) }
{
    let block = room.take();
    facts.push(Fact::Called(Called {
        job,
        next,
        asked,
        block,
        reply,
    }))?;
    Ok(())
}

/// Adds that a job made a lock call, if it made one.
#[inline(always)]
fn push_called(
    facts: &mut Vec<Fact>,
    job: u8,
    next: Address,
    asked: Option<Asked>,
    reply: Option<LockReply>,
    room: &mut BlockRoom,
) -> Result<(), AllocError>
    ensures { OnOk result (facts.new.items ≡ facts.old.items ++ called_facts job next asked room.old reply) }
{
    if let (Some(asked), Some(reply)) = (asked, reply) {
        push_call(facts, job, next, asked, reply, room)?;
    }
    Ok(())
}

/// Adds the facts of the requests that waited before a call, if there was a call.
#[inline(always)]
fn push_moved_by<L: LockTable>(
    facts: &mut Vec<Fact>,
    call: Option<MonitorCall>,
    before: &[Request],
    locks: &L,
) -> Result<(), AllocError>
    ensures { OnOk result (facts.new.items ≡ facts.old.items ++ moved_by call before.now (L.requests locks.now)) }
{
    match call {
        Some(_) => push_moved(facts, before, locks),
        None => Ok(()),
    }
}

/// Whether a job is in a circle of waits.
#[inline(never)]
fn is_circled<L: LockTable>(locks: &L, job: u8) -> bool
    requires { job ≤ JOBS }
    ensures { result ≡ is_in_circle (waits_for (L.requests locks.now)) job }
{
    let waiting = waiting_jobs(locks);
    let pairs = pair_table(locks, &waiting);
    is_in_circle(&pairs, &waiting, usize::from(job))
}

/// Adds the circle that a job closed by a call that was queued, if it closed one.
#[inline(always)]
fn push_closed<L: LockTable>(
    facts: &mut Vec<Fact>,
    job: u8,
    reply: Option<LockReply>,
    locks: &L,
) -> Result<(), AllocError>
    ensures { OnOk result (facts.new.items ≡ facts.old.items ++ closed_facts (L.requests locks.now) job reply) }
{
    if matches!(reply, Some(LockReply::Queued)) && job <= JOBS && is_circled(locks, job) {
        facts.push(Fact::CircleClosed(job))?;
    }
    Ok(())
}

/// Adds that a job is stopped, or gone.
#[inline(always)]
fn push_ended(facts: &mut Vec<Fact>, job: u8, view: Option<JobView>) -> Result<(), AllocError>
    ensures { OnOk result (facts.new.items ≡ facts.old.items ++ ended_facts job view) }
{
    match view {
        Some(view) => {
            if let Some(stop) = view.stop {
                facts.push(Fact::Stopped(job, stop))?;
            }
        }
        None => facts.push(Fact::LoggedOut(job))?,
    }
    Ok(())
}

/// Adds what a step made known, on the machine as the step left it. `before` are the requests that waited before its
/// call, and `room` has the block that this read.
#[tactic(auto, using(std::proofs::Common::append_assoc))]
fn push_told<L: LockTable, C: CoreStore>(
    facts: &mut Vec<Fact>,
    told: Told,
    before: &[Request],
    room: &mut BlockRoom,
    system: &System<L, C>,
) -> Result<(), AllocError>
    ensures { OnOk result (facts.new.items ≡ facts.old.items ++ facts_told before.now room.old system.now.world told) }
{
    let Told {
        job,
        next,
        call,
        asked,
        reply,
    } = told;
    push_called(facts, job, next, asked, reply, room)?;
    push_moved_by(facts, call, before, system.locks())?;
    push_closed(facts, job, reply, system.locks())?;
    push_ended(facts, job, system.job(job))
}

/// The facts of a step, by what it made known, on the machine as it left it.
#[inline(always)]
pub(crate) fn step_part<L: LockTable, C: CoreStore>(
    alloc: Global,
    told: Option<Told>,
    before: &[Request],
    room: &mut BlockRoom,
    system: &System<L, C>,
) -> Result<Vec<Fact>, AllocError>
    ensures { IfOk result (λ facts. facts.items ≡ facts_if before.now room.old system.now.world told) }
{
    let mut facts = Vec::new(alloc);
    if let Some(told) = told {
        push_told(&mut facts, told, before, room, system)?;
    }
    Ok(facts)
}

/// Makes a step, and gives its facts. What stands in `room` behind it means nothing.
pub fn step_facts<L: LockTable, C: CoreStore>(
    alloc: Global,
    system: &mut System<L, C>,
    room: &mut BlockRoom,
) -> Result<Vec<Fact>, AllocError>
    ensures state { system.new ≡ (happens system.old Step).state }
    ensures facts { IfOk result (λ facts. facts.items ≡ facts_of_step system.old) }
{
    let (told, before) = system.step_told(alloc, room);
    let before = before?;
    step_part(alloc, told, before.as_slice(), room, system)
}
