//! The ways in which a call returns to its program.

ghost use Rattle.std.specs.Prelude.{◌≡◌, ◌<◌, ◌^◌};
ghost use Rattle.lock_queue.specs.Refusals.{code_of};
ghost use Rattle.lock_queue.specs.declared.call.LockReply.TheVariants.{Refused};
ghost use Rattle.uuo_calls.specs.CallState.{put_back, refusing, skipping, stopped_at, waiting};

use job_sched::{Job, Stop, Wait};
use ka_state::{Accumulator, StopReason};
use lock_queue::{LockReply, Refusal};
use word36::Word;

/// What is added to an address, modulo 2^18, to go one back.
const ONE_BACK: u32 = 0o777_777;

/// Skips the next instruction.
pub(crate) fn skip(job: &mut Job)
    ensures { job.new ≡ skipping job.old }
{
    job.regs.pc = job.regs.pc.plus(1);
}

/// Refuses the call: `0,,code` goes to AC, and nothing is skipped.
pub(crate) fn refuse(job: &mut Job, ac: Accumulator, code: u8)
    ensures { job.new ≡ refusing job.old ac code }
{
    job.regs.ac[ac.index()] = Word::new(code as u64);
}

/// Refuses a lock call, and gives that as its answer.
pub(crate) fn refused(job: &mut Job, ac: Accumulator, refusal: Refusal) -> LockReply
    ensures job { job.new ≡ refusing job.old ac (code_of refusal) }
    ensures reply { result ≡ Refused refusal }
{
    refuse(job, ac, refusal.code());
    LockReply::Refused(refusal)
}

/// Lets the job wait, and make the call again when the wait is over.
pub(crate) fn wait_again(job: &mut Job, wait: Wait)
    ensures { job.new ≡ waiting (put_back job.old) wait }
{
    job.regs.pc = job.regs.pc.plus(ONE_BACK);
    job.wait = wait;
}

/// Stops the job at the call.
pub(crate) fn stop_at(job: &mut Job, reason: StopReason)
    ensures { job.new ≡ stopped_at job.old reason }
{
    job.regs.pc = job.regs.pc.plus(ONE_BACK);
    job.stop = Some(Stop::Fault(reason));
}
