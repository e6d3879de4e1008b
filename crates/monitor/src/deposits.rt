//! What a debugger changes of a job: a word of its memory, its PC, or what a typed instruction changes. None is an event.
ghost use Rattle.std.specs.Prelude.{◌≡◌, if◌then◌else◌, is_some, None};
ghost use Rattle.std.specs.Option.{option_map};
ghost use Rattle.ka_state.specs.Memory.{core_with, word_at};
ghost use Rattle.core_store.specs.Cores.{IsJob, core_of, with_core};
ghost use Rattle.job_sched.specs.Changes.{with_change};
ghost use Rattle.job_sched.specs.Tables.{is_sleeper};
ghost use Rattle.uuo_calls.specs.CallState.{with_pc};
ghost use Rattle.machine.specs.Deposits.{by_hand, is_complete, is_done, with_register};

use core_store::CoreStore;
use job_sched::{Job, JobTable};
use ka_cpu::execute_word;
use ka_state::{CoreWords, Outcome, StopReason, fetch, store};
use machine::Answer;
use word36::{Address, JOBS, Word};

/// What is added to an address, modulo 2^18, to go one back.
const ONE_BACK: u32 = 0o777_777;

/// Stores a word at an address of a job's memory: a register below 20 octal, core from there on. False
/// where the job has no such address; then nothing changes.
pub(crate) fn put_word<C: CoreStore>(
    n: u8,
    job: &mut Job,
    cores: &mut C,
    a: u32,
    word: Word,
) -> bool
    requires { IsJob n }
    ensures job { job.new ≡ with_register job.old a word }
    ensures core { C.meaning cores.new ≡ with_core (C.meaning cores.old) n (core_with (core_of (C.meaning cores.old) n) a word) }
    ensures found { result ≡ is_some (word_at job.old.regs.ac (core_of (C.meaning cores.old) n) a) }
{
    let words = cores.window(n);
    let mut window = CoreWords { words };
    let there = fetch(&job.regs, &window, a).is_some();
    store(&mut job.regs, &mut window, a, word);
    there
}

/// Whether the processor completes an instruction that ends so: it is done, or the pushdown pointer runs out.
pub fn is_complete(end: &Outcome) -> bool
    ensures { result ≡ is_complete end.now }
{
    matches!(end, Outcome::Done | Outcome::Stop(StopReason::Pushdown))
}

/// Executes a word as if it stood before the instruction at the job's PC, and tells how it ends. Where the processor does not
/// complete it, the job stays as it was.
pub(crate) fn execute_in<C: CoreStore>(n: u8, job: &mut Job, cores: &mut C, word: Word) -> Outcome
    requires { IsJob n }
    ensures end { result ≡ (by_hand job.old (core_of (C.meaning cores.old) n) word).outcome }
    ensures job { job.new ≡ record job.old {
      regs = if is_complete result
          then (by_hand job.old (core_of (C.meaning cores.old) n) word).regs else job.old.regs;
    } }
    ensures core { C.meaning cores.new ≡ with_core (C.meaning cores.old) n (by_hand job.old (core_of (C.meaning cores.old) n) word).core }
{
    let words = cores.window(n);
    let mut window = CoreWords { words };
    let mut regs = job.regs;
    regs.pc = regs.pc.plus(ONE_BACK);
    let end = execute_word(&mut regs, &mut window, word);
    if is_complete(&end) {
        job.regs = regs;
    }
    end
}

/// Sets the PC of the job in a slot, if one is there.
fn set_pc_in(slot: &mut Option<Job>, a: Address)
    ensures slot { slot.new ≡ option_map (λ j. with_pc j a) slot.old }
    ensures asleep { is_sleeper slot.new ≡ is_sleeper slot.old }
    ensures none { slot.old ≡ None → slot.new ≡ None }
{
    if let Some(job) = slot {
        job.regs.pc = a;
    }
}

/// Sets the PC of a job, if it is there.
pub(crate) fn set_pc(n: u8, table: &mut JobTable, a: Address)
    ensures { table.new ≡ with_change table.old n (λ j. with_pc j a) }
{
    let jobs = &mut table.jobs;
    if n > JOBS {
        return;
    }
    set_pc_in(&mut jobs[n as usize], a);
}

/// Whether an answer is `Done`.
pub(crate) fn is_done(answer: &Answer) -> bool
    ensures { result ≡ is_done answer.now }
{
    matches!(answer, Answer::Done)
}
