//! RESET, EXIT, MSTIME, PJOB and SLEEP.

ghost use Rattle.std.specs.Prelude.{◌≡◌, ◌<◌, ◌*◌, ◌/◌, ◌^◌};
ghost use Rattle.word36.specs.Words.{right_half};
ghost use Rattle.core_store.specs.Cores.{IsJob};
ghost use Rattle.lock_queue.specs.Jobs.{released};
ghost use Rattle.job_sched.specs.Jobs.{halted};
ghost use Rattle.job_sched.specs.declared.job.Stop.TheVariants.{Exit};
ghost use Rattle.job_sched.specs.declared.job.Wait.TheVariants.{Sleep};
ghost use Rattle.uuo_calls.specs.CallState.{ac_of, with_ac, waiting};
ghost use Rattle.uuo_calls.specs.JobRows.{calm, ticks_of};

use job_sched::{Job, NO_INTERRUPTS, Stop, TICKS_A_SECOND, TimeOfDay, Wait};
use ka_state::Accumulator;
use lock_queue::LockTable;
use word36::Word;

/// RESET: the job's requests leave, and its vector is gone.
pub(crate) fn reset<L: LockTable>(number: u8, job: &mut Job, locks: &mut L)
    requires { IsJob number }
    ensures job { job.new ≡ calm job.old }
    ensures requests { L.requests locks.new ≡ released (L.requests locks.old) number }
{
    locks.release(number);
    job.interrupts = NO_INTERRUPTS;
}

/// EXIT with AC field 0: RESET, and the job stops.
pub(crate) fn exit<L: LockTable>(number: u8, job: &mut Job, locks: &mut L)
    requires { IsJob number }
    ensures job { job.new ≡ halted (calm job.old) Exit }
    ensures requests { L.requests locks.new ≡ released (L.requests locks.old) number }
{
    reset(number, job, locks);
    job.stop = Some(Stop::Exit);
}

/// MSTIME: AC gets the time of day in milliseconds.
pub(crate) fn mstime(time: TimeOfDay, job: &mut Job, ac: Accumulator)
    ensures { job.new ≡ with_ac job.old ac (time * 50 / 3) }
{
    job.regs.ac[ac.index()] = Word::new(time.milliseconds() as u64);
}

/// PJOB: AC gets the number of the job.
pub(crate) fn pjob(number: u8, job: &mut Job, ac: Accumulator)
    ensures { job.new ≡ with_ac job.old ac number }
{
    job.regs.ac[ac.index()] = Word::new(number as u64);
}

/// SLEEP: the job sleeps for as many seconds as AC says, for one tick where that is 0.
pub(crate) fn sleep(job: &mut Job, ac: Accumulator)
    ensures { job.new ≡ waiting job.old (Sleep (ticks_of (right_half (ac_of job.old ac)))) }
{
    let seconds = job.regs.ac[ac.index()].right();
    let ticks = if seconds == 0 {
        1
    } else {
        TICKS_A_SECOND * seconds
    };
    job.wait = Wait::Sleep(ticks);
}
