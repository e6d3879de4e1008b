//! A job's turn: an interrupt is delivered, or instructions are executed.
ghost use Rattle.std.specs.Prelude.{◌≡◌, ◌≢◌, ◌<◌, ◌≤◌, ◌^◌, [], None, IsSome, true, false};
ghost use Rattle.core_store.specs.Cores.{IsJob, core_of};
ghost use Rattle.job_sched.specs.Tables.{job_at};
ghost use Rattle.ka_state.specs.Memory.{are_legal};
ghost use Rattle.ka_cpu.specs.Runs.{ran};
ghost use Rattle.ka_state.specs.declared.outcome.StopReason.TheVariants.{IllegalAddress};
ghost use Rattle.uuo_calls.specs.CallState.{stopped};
ghost use Rattle.machine.specs.Between.{NoneOver};
ghost use Rattle.machine.specs.Machine.{ran as ran_job};
ghost use Rattle.machine.specs.Stretches.{Stretch, stretch_by, stretch_of};
ghost use Rattle.machine.specs.Turns.{Turn, delivered, interrupted_at, turn_of};

use crate::runner::{Loop, Runner};
use core_store::CoreStore;
use job_sched::{Job, NO_FLAGS, Stop, TimeOfDay, Wait};
use ka_state::{
    Accumulator, CoreWords, JobMemory, Outcome, Regs, StopReason, are_legal_kept, pc_word, store,
    word_kept,
};
use lock_queue::{LockTable, RequestId};
use machine::VECTOR_WORDS;
use uuo_calls::{MonitorCall, World};
use word36::{Address, Word};

/// Executes 1 to `most` instructions of a job in its core, until the runner ends the turn, or one of them
/// stops the job or calls the monitor. Returns how many were executed, the call, and the address of the last one from
/// a runner that keeps it.
#[inline(always)]
fn execute<C: CoreStore, R: Runner>(
    number: u8,
    job: &mut Job,
    cores: &mut C,
    most: u32,
    runner: &R,
) -> (u32, Option<MonitorCall>, Address)
    requires number { IsJob number }
    requires some { 1 ≤ most }
    ensures turn { record {
      turn = record { job = job.new; cores = C.meaning cores.new; requests = []; call = result.1 };
      rounds = result.0;
    } ≡ stretch_by number job.old (C.meaning cores.old) [] (ran result.0 job.old.regs (core_of (C.meaning cores.old) number)) }
    ensures least { 1 ≤ result.0 }
    ensures most { result.0 ≤ most }
    ensures none_over { NoneOver (R.ends runner.now) job.old.regs (core_of (C.meaning cores.old) number) result.0 }
{
    let words = cores.window(number);
    let (steps, outcome, at) = runner.run(&mut job.regs, words, u64::from(most));
    let rounds = steps as u32;
    match outcome {
        Outcome::Done => (rounds, None, at),
        Outcome::Stop(reason) => {
            job.stop = Some(Stop::Fault(reason));
            (rounds, None, at)
        }
        Outcome::Call(kind, ac, e) => {
            let ac = Accumulator::new(ac);
            let e = Address::new(e);
            (rounds, Some(MonitorCall { kind, ac, e }), at)
        }
    }
}

/// Delivers an interrupt in the job's memory: stores `flags,,PC` and the request's id in the vector, and
/// goes on at the address in its first word. False, and the job stops, where a word of the vector is not
/// legal.
fn interrupt<M: JobMemory>(job: &mut Job, memory: &mut M, vector: u32, id: u32) -> bool
    requires vector { vector < 2 ^ 18 }
    requires id { id < 2 ^ 18 }
    ensures legal { result ≡ are_legal (M.words memory.old) vector 4 }
    ensures done { result ≡ true
        → record { job = job.new; core = M.words memory.new } ≡ interrupted_at job.old (M.words memory.old) vector id }
    ensures stopped { result ≡ false → (job.new ≡ stopped job.old IllegalAddress) × (memory.new ≡ memory.old) }
    ensures place { M.place memory.new ≡ M.place memory.old }
{
    if !are_legal_kept(memory, vector, VECTOR_WORDS) {
        job.stop = Some(Stop::Fault(StopReason::IllegalAddress));
        return false;
    }
    let handler = word_kept(&job.regs, memory, vector).unwrap_or(Word::new(0));
    let interrupted = pc_word(job.regs.flags, job.regs.pc);
    store(&mut job.regs, memory, vector + 1, interrupted);
    store(&mut job.regs, memory, vector + 3, Word::join(0, id));
    job.regs.pc = Address::new(handler.right());
    job.regs.flags = NO_FLAGS;
    job.interrupts.in_progress = true;
    true
}

/// Delivers an interrupt, and marks the request's grant as notified, or stops the job where its vector is
/// not legal.
#[inline(never)]
fn deliver<L: LockTable, C: CoreStore>(
    number: u8,
    job: &mut Job,
    vector: Address,
    id: RequestId,
    locks: &mut L,
    cores: &mut C,
)
    requires { IsJob number }
    ensures turn { record { job = job.new; cores = C.meaning cores.new; requests = L.requests locks.new; call = None }
        ≡ delivered number job.old (C.meaning cores.old) (L.requests locks.old) vector id }
{
    let words = cores.window(number);
    let mut window = CoreWords { words };
    if interrupt(job, &mut window, vector.number(), id.number()) {
        locks.mark_notified(number);
    }
}

/// Takes the turn of a job that waits for nothing, for 1 to `most` rounds. Returns for how many, the call that the
/// job makes, and the PC before the last of them, from a runner that keeps it.
#[inline(always)]
fn take_turn<L: LockTable, C: CoreStore, R: Runner>(
    number: u8,
    job: &mut Job,
    locks: &mut L,
    cores: &mut C,
    most: u32,
    runner: &R,
) -> (u32, Option<MonitorCall>, Address)
    requires number { IsJob number }
    requires some { 1 ≤ most }
    ensures cores { C.meaning cores.new ≡ (stretch_of number result.0 job.old (C.meaning cores.old) (L.requests locks.old)).turn.cores }
    ensures job { job.new ≡ (stretch_of number result.0 job.old (C.meaning cores.old) (L.requests locks.old)).turn.job }
    ensures turn { record {
      turn = record { job = job.new; cores = C.meaning cores.new; requests = L.requests locks.new; call = result.1 };
      rounds = result.0;
    } ≡ stretch_of number result.0 job.old (C.meaning cores.old) (L.requests locks.old) }
    ensures least { 1 ≤ result.0 }
    ensures most { result.0 ≤ most }
    ensures none_over { NoneOver (R.ends runner.now) job.old.regs (core_of (C.meaning cores.old) number) result.0 }
{
    if job.interrupts.on && !job.interrupts.in_progress {
        if let Some(vector) = job.interrupts.vector {
            if let Some(id) = locks.pending(number) {
                let at = job.regs.pc;
                deliver(number, job, vector, id, locks, cores);
                return (1, None, at);
            }
        }
    }
    execute::<C, R>(number, job, cores, most, runner)
}

/// Takes the turn of a job that has core, as `take_turn` does; the job still has core then.
#[inline(always)]
pub(crate) fn run_turn<L: LockTable, C: CoreStore, R: Runner>(
    number: u8,
    job: &mut Job,
    locks: &mut L,
    cores: &mut C,
    most: u32,
    runner: &R,
) -> (u32, Option<MonitorCall>, Address)
    requires number { IsJob number }
    requires core { core_of (C.meaning cores.old) number ≢ [] }
    requires some { 1 ≤ most }
    ensures turn { record {
      turn = record { job = job.new; cores = C.meaning cores.new; requests = L.requests locks.new; call = result.1 };
      rounds = result.0;
    } ≡ stretch_of number result.0 job.old (C.meaning cores.old) (L.requests locks.old) }
    ensures least { 1 ≤ result.0 }
    ensures most { result.0 ≤ most }
    ensures none_over { NoneOver (R.ends runner.now) job.old.regs (core_of (C.meaning cores.old) number) result.0 }
    ensures core { core_of (C.meaning cores.new) number ≢ [] }
    ensures wait { job.new.wait ≡ job.old.wait }
{
    take_turn::<L, C, R>(number, job, locks, cores, most, runner)
}

/// Takes the turn of a job that has core and waits for nothing, for one round. Returns the call that the job makes; the
/// job still has core then.
#[inline(always)]
fn take_one_turn<L: LockTable, C: CoreStore>(
    number: u8,
    job: &mut Job,
    locks: &mut L,
    cores: &mut C,
) -> Option<MonitorCall>
    requires number { IsJob number }
    requires core { core_of (C.meaning cores.old) number ≢ [] }
    ensures turn { record { job = job.new; cores = C.meaning cores.new; requests = L.requests locks.new; call = result }
        ≡ turn_of number job.old (C.meaning cores.old) (L.requests locks.old) }
    ensures core { core_of (C.meaning cores.new) number ≢ [] }
    ensures wait { job.new.wait ≡ job.old.wait }
{
    let (_, call, _) = run_turn::<L, C, Loop<false>>(number, job, locks, cores, 1, &Loop);
    call
}

/// Runs a job for one round, whichever job is current: ends its wait, takes its turn, and performs the call that it
/// makes. `System` asks the scheduler which job that is; whoever looks at other orders of turns chooses it.
#[inline(never)]
pub fn run_job<L: LockTable, C: CoreStore>(world: &mut World<L, C>, n: u8, time: TimeOfDay)
    requires number { IsJob n }
    requires there { IsSome (job_at world.old.table.jobs n) }
    requires core { core_of world.old.cores n ≢ [] }
    ensures { world.new ≡ ran_job world.old time n (job_at world.old.table.jobs n) }
{
    let Some(job) = &mut world.table.jobs[n as usize] else {
        return;
    };
    job.wait = Wait::None;
    let call = take_one_turn(n, job, &mut world.locks, &mut world.cores);
    if let Some(call) = call {
        world.perform(n, call, time);
    }
}
