//! Where jobs ended.

ghost use Rattle.std.specs.Prelude.{◌≡◌, IfOk};
ghost use Rattle.ddt_timeline.specs.Views.{history};
ghost use Rattle.ddt_moves.specs.Turns.{address_before, ended_in, last_pc_in};

use crate::replays::Replay;
use crate::turns::{is_job, pc_of};
use ddt_timeline::Timeline;
use job_sched::Stop;
use ka_state::StopReason;
use std::alloc::AllocError;
use word36::Address;

/// What is added to an address for the one before it.
const ONE_BACK: u32 = 0o777_777;

/// The PC of a job before its last turn; `None` where it had none.
fn last_pc(timeline: &Timeline, job: u8) -> Result<Option<Address>, AllocError>
    ensures { IfOk result (λ pc. pc ≡ last_pc_in (history timeline.now) job) }
{
    let mut replay = Replay::of(timeline)?;
    let mut last = None;
    while replay.go_before_step() {
        let pc = pc_of(replay.machine(), job);
        if is_job(replay.step(), job) {
            last = pc;
        }
    }
    replay.end();
    Ok(last)
}

/// The address of the EXIT, EXIT 1 or HALT that stopped a job; `None` where none of these did.
pub fn ended_at(timeline: &Timeline, job: u8) -> Result<Option<Address>, AllocError>
    ensures { IfOk result (λ address. address ≡ ended_in (history timeline.now) job) }
{
    let Some(view) = timeline.machine().job(job) else {
        return Ok(None);
    };
    match view.stop {
        // The PC of a job that called EXIT is at the address behind the call.
        Some(Stop::Exit | Stop::Monitor) => Ok(Some(view.pc.plus(ONE_BACK))),
        // That of a job at HALT is where HALT jumps to.
        Some(Stop::Fault(StopReason::Halt)) => last_pc(timeline, job),
        _ => Ok(None),
    }
}
