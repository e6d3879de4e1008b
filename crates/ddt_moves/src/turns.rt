//! Which job had its turn in a step, and what it executes next.

ghost use Rattle.std.specs.Prelude.{◌≡◌, ◌<◌, ℕ, IfOk, None, slice_get, slice_index_or};
ghost use Rattle.machine.specs.Between.{pc_in};
ghost use Rattle.ddt_timeline.specs.Stops.{is_job};
ghost use Rattle.ddt_timeline.specs.Views.{history};
ghost use Rattle.ddt_moves.specs.Replays.{machine_in, to_come};
ghost use Rattle.ddt_moves.specs.Turns.{instruction_of, states_before, turn_among, turn_from, turn_in};

use crate::replays::Replay;
use concrete_machine::Machine;
use ddt_timeline::Timeline;
use std::alloc::AllocError;
use word36::{Address, JOBS, Word};

/// One more than the highest number of a job.
pub(crate) const NUMBERS: usize = JOBS as usize + 1;

/// Whether a job is the one that ran.
pub(crate) fn is_job(ran: Option<u8>, job: u8) -> bool
    ensures { result ≡ is_job ran job }
{
    match ran {
        Some(number) => number == job,
        None => false,
    }
}

/// The PC of a job, if it is there.
pub(crate) fn pc_of(machine: &Machine, number: u8) -> Option<Address>
    ensures { result ≡ pc_in machine.now number }
{
    let view = machine.job(number)?;
    Some(view.pc)
}

/// The PC of each job that is there, by its number.
pub(crate) fn pcs_of(machine: &Machine) -> [Option<Address>; NUMBERS]
    ensures { (n : ℕ) → n < 64 → slice_index_or result n None ≡ pc_in machine.now n }
{
    let mut pcs = [None; NUMBERS];
    for number in 0..NUMBERS {
        pcs[number] = pc_of(machine, number as u8);
    }
    pcs
}

/// The PC of a job, and the word there.
pub fn next_instruction(machine: &Machine, number: u8) -> Option<(u32, Word)>
    ensures { result ≡ instruction_of machine.now number }
{
    let address = pc_of(machine, number)?.number();
    let word = machine.peek(number, address)?;
    Some((address, word))
}

/// The job that ran, with its PC of those of all jobs; `None` where no job ran, or it had none.
fn turn_among(pcs: &[Option<Address>; NUMBERS], ran: Option<u8>) -> Option<(u8, u32)>
    ensures { result ≡ turn_among pcs.now ran }
{
    let job = ran?;
    if job > JOBS {
        return None;
    }
    let address = pcs[usize::from(job)]?;
    Some((job, address.number()))
}

/// Makes the next step, and gives the job that ran, with its PC before it.
fn next_turn(replay: &mut Replay<'_>) -> Option<(u8, u32)>
    ensures { result ≡ turn_from (slice_get (states_before (to_come replay.old) (machine_in replay.old)) 0) }
{
    if !replay.go_before_step() {
        return None;
    }
    let pcs = pcs_of(replay.machine());
    turn_among(&pcs, replay.step())
}

/// The job that ran in the step behind so many, with its PC before it; `None` where there is no such step, or no job ran.
pub fn turn_at(timeline: &Timeline, steps: u64) -> Result<Option<(u8, u32)>, AllocError>
    ensures { IfOk result (λ turn. turn ≡ turn_in (history timeline.now) steps) }
{
    let mut replay = Replay::of(timeline)?;
    replay.skip_to(steps);
    let turn = next_turn(&mut replay);
    replay.end();
    Ok(turn)
}
