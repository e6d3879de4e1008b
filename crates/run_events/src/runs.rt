//! The facts of a run, round by round; a round is a step with a tick behind it.
ghost use Rattle.std.specs.Prelude.{◌≡◌, ◌≤◌, ◌<◌, ◌++◌, [], IfOk};
ghost use Rattle.machine.specs.Between.{next_in};
ghost use Rattle.machine.specs.Machine.{after};
ghost use Rattle.machine.specs.Rounds.{rounds};
ghost use Rattle.std.specs.Prelude.{true};
ghost use Rattle.run_events.specs.Facts.{facts_of_step, facts_of_tick};
ghost use Rattle.run_events.specs.Runs.{LeadsTo, RunsTo, facts_of_round, has_called, job_told};

use crate::facts::Fact;
use crate::steps::step_part;
use crate::ticks::tick_facts;
use core_store::CoreStore;
use lock_queue::LockTable;
use machine::Told;
use monitor::System;
use std::alloc::{AllocError, Global};
use uuo_calls::BlockRoom;
use word36::Address;

/// Some rounds that were made at once, without the last tick.
#[derive(Drop)]
pub struct RoundsMade {
    /// How many.
    pub made: u32,
    /// Whose turn the last one was; `None` where no job was ready.
    pub job: Option<u8>,
    /// Whether that job made a monitor call.
    pub has_called: bool,
    /// The job's PC before the last step; no clause speaks of it.
    pub at: Address,
    /// The facts of the last step; the rounds before it have none.
    pub facts: Vec<Fact>,
}

/// The job whose turn it was, if one was ready.
#[inline(always)]
fn job_told(told: &Option<Told>) -> Option<u8>
    ensures { result ≡ job_told told.now }
{
    match told {
        Some(told) => Some(told.job),
        None => None,
    }
}

/// Whether the job whose turn it was made a monitor call.
#[inline(always)]
fn has_called(told: &Option<Told>) -> bool
    ensures { result ≡ has_called told.now }
{
    match told {
        Some(told) => told.call.is_some(),
        None => false,
    }
}

/// Makes 1 to `most` rounds of the job that is next, each a step and a tick, but leaves the last tick to the caller, who
/// makes it by `tick_facts`. All but the last have no fact. What stands in `room` behind it means nothing.
#[inline(always)]
pub fn rounds_facts<L: LockTable, C: CoreStore>(
    alloc: Global,
    system: &mut System<L, C>,
    room: &mut BlockRoom,
    most: u32,
) -> Result<RoundsMade, AllocError>
    requires { 1 ≤ most }
    ensures rounds { IfOk result (λ r. LeadsTo system.old system.new r) }
    ensures most { IfOk result (λ r. r.made ≤ most) }
{
    let (made, told, before, at) = system.rounds_told(alloc, most, room);
    let before = before?;
    let job = job_told(&told);
    let has_called = has_called(&told);
    let facts = step_part(alloc, told, before.as_slice(), room, system)?;
    Ok(RoundsMade {
        made,
        job,
        has_called,
        at,
        facts,
    })
}

/// Makes 1 to `most` rounds of the job that is next, all but the last of which have no fact. Gives how many, and the
/// facts of the last.
#[inline(always)]
fn next_rounds<L: LockTable, C: CoreStore>(
    alloc: Global,
    system: &mut System<L, C>,
    room: &mut BlockRoom,
    most: u32,
) -> Result<(u32, Vec<Fact>), AllocError>
    requires { 1 ≤ most }
    ensures runs { IfOk result (λ r. RunsTo system.old system.new r.0 r.1.items) }
    ensures most { IfOk result (λ r. r.0 ≤ most) }
{
    let rounds = rounds_facts(alloc, system, room, most)?;
    let RoundsMade {
        made,
        mut facts,
        ..
    } = rounds;
    let mut later = tick_facts(alloc, system)?;
    facts.append(&mut later)?;
    Ok((made, facts))
}

/// Makes a round, and gives the job that ran in it, if one was ready, and the facts of the round. What stands in `room`
/// after it means nothing.
pub fn round_facts<L: LockTable, C: CoreStore>(
    alloc: Global,
    system: &mut System<L, C>,
    room: &mut BlockRoom,
) -> (Option<u8>, Result<Vec<Fact>, AllocError>)
    ensures state { system.new ≡ after (rounds 1 true) system.old }
    ensures job { result.0 ≡ next_in system.old }
    ensures facts { IfOk result.1 (λ facts. facts.items ≡ facts_of_round system.old) }
{
    let (told, before) = system.step_told(alloc, room);
    let job = job_told(&told);
    let of_step = match before {
        Ok(before) => step_part(alloc, told, before.as_slice(), room, system),
        Err(error) => Err(error),
    };
    let of_tick = tick_facts(alloc, system);
    let (Ok(mut facts), Ok(mut later)) = (of_step, of_tick) else {
        return (job, Err(AllocError));
    };
    match facts.append(&mut later) {
        Ok(()) => (job, Ok(facts)),
        Err(error) => (job, Err(error)),
    }
}

/// Makes rounds up to the first that has a fact, `most` at most. Gives how many, and the facts of the last. What
/// stands in `room` behind it means nothing.
pub fn run_to_fact<L: LockTable, C: CoreStore>(
    alloc: Global,
    system: &mut System<L, C>,
    room: &mut BlockRoom,
    most: u32,
) -> Result<(u32, Vec<Fact>), AllocError>
    requires { 1 ≤ most }
    ensures runs { IfOk result (λ r. RunsTo system.old system.new r.0 r.1.items) }
    ensures most { IfOk result (λ r. r.0 ≤ most) }
    ensures ends { IfOk result (λ r. r.1.items ≡ [] → r.0 ≡ most) }
{
    let (mut done, mut facts) = next_rounds(alloc, system, room, most)?;
    while facts.is_empty() && done < most {
        let (made, more) = next_rounds(alloc, system, room, most - done)?;
        done += made;
        facts = more;
    }
    Ok((done, facts))
}
