//! The parts of a machine that calls are lent, with jobs whose call stands at 140 octal.

ghost use Rattle.std.specs.Prelude.{◌≤◌};
ghost use Rattle.word36.specs.declared.sizes.TheConstants.{MOST_BLOCKS};

use core_store::{CoreStore, PlainCore};
use job_sched::{Interrupts, Job, JobTable, NO_FLAGS, NO_INTERRUPTS, Stop, TimeOfDay, Wait};
use ka_state::{Accumulator, CallKind, Flags, Regs, StopReason};
use lock_queue::LockTable;
use plain_table::PlainTable;
use std::alloc::{AllocError, Global};
use tty_lines::{LineNumber, Lines};
use uuo_calls::{CallOutcome, CallRoom, MonitorCall, perform, remove_job};
use word36::{Address, DATA_WORDS, JOBS, LINES, MOST_REQUESTS, Word};

/// The PC of a job that makes a call at 140 octal, and after a call that does not skip.
pub const NEXT: u32 = 0o141;

/// The PC after a call that skips.
pub const SKIPPED: u32 = 0o142;

/// The PC that is back at the call.
pub const BACK: u32 = 0o140;

/// How many requests a job may have.
const QUOTA: u16 = 64;

/// A machine's parts.
#[derive(Drop)]
pub struct Machine {
    pub table: JobTable,
    pub lines: Lines,
    pub locks: PlainTable<MOST_REQUESTS>,
    pub cores: PlainCore,
    pub shared: [Word; DATA_WORDS],
    pub room: CallRoom,
    pub time: TimeOfDay,
}

impl Machine {
    /// A machine of so many blocks with job 1, of one block, at line 0, at midnight.
    pub fn with_job(alloc: Global, blocks: u32) -> Result<Machine, AllocError>
        requires least { 1 ≤ blocks }
        requires most { blocks ≤ MOST_BLOCKS }
    {
        let mut machine = Machine {
            table: JobTable::new(),
            lines: Lines::new(alloc)?,
            locks: PlainTable::new(alloc)?,
            cores: PlainCore::new(alloc, blocks)?,
            shared: [Word::new(0); DATA_WORDS],
            room: CallRoom::new(),
            time: TimeOfDay::new(0),
        };
        machine.log_in(1, 0, 1);
        Ok(machine)
    }

    /// A job comes with so many blocks, and is not stopped.
    pub fn log_in(&mut self, n: u8, line: u8, blocks: u32) {
        if n == 0 || n > JOBS || line >= LINES || blocks == 0 || self.cores.blocks(n) != 0 {
            return;
        }
        let _ = self.cores.take(n, blocks);
        let regs = Regs {
            ac: [Word::new(0); 16],
            pc: Address::new(NEXT),
            flags: NO_FLAGS,
        };
        let mut job = Job::new(LineNumber::new(line), regs, Address::new(BACK), QUOTA);
        job.stop = None;
        self.table.put(n, job);
    }

    /// The job of a number.
    fn job(&self, n: u8) -> Option<Job> {
        self.table.job(n).copied()
    }

    /// Whether a job is there.
    pub fn is_there(&self, n: u8) -> bool {
        self.table.job(n).is_some()
    }

    /// Why a job is stopped.
    pub fn stop(&self, n: u8) -> Option<Stop> {
        match self.job(n) {
            Some(job) => job.stop,
            None => None,
        }
    }

    /// What a job waits for.
    pub fn wait(&self, n: u8) -> Wait {
        match self.job(n) {
            Some(job) => job.wait,
            None => Wait::None,
        }
    }

    /// How a job takes interrupts.
    pub fn interrupts(&self, n: u8) -> Interrupts {
        match self.job(n) {
            Some(job) => job.interrupts,
            None => NO_INTERRUPTS,
        }
    }

    /// The flags of a job.
    pub fn flags(&self, n: u8) -> Flags {
        match self.job(n) {
            Some(job) => job.regs.flags,
            None => NO_FLAGS,
        }
    }

    /// Lets a job wait.
    pub fn set_wait(&mut self, n: u8, wait: Wait) {
        if n > JOBS {
            return;
        }
        if let Some(mut job) = self.job(n) {
            job.wait = wait;
            self.table.put(n, job);
        }
    }

    /// Lets a job have so many requests.
    pub fn set_quota(&mut self, n: u8, quota: u16) {
        if n > JOBS {
            return;
        }
        if let Some(mut job) = self.job(n) {
            job.quota = quota;
            self.table.put(n, job);
        }
    }

    /// A tick goes by: for sleeps and the quantum, and then for limits, whose jobs' requests leave together.
    pub fn tick(&mut self) {
        self.table.tick();
        let expired = self.table.expire(&self.locks);
        self.locks.withdraw_all(expired);
    }

    /// Lets a job be at its call again, with an interrupt in progress.
    pub fn interrupt(&mut self, n: u8) {
        if n > JOBS {
            return;
        }
        self.rewind(n);
        if let Some(mut job) = self.job(n) {
            job.interrupts.in_progress = true;
            self.table.put(n, job);
        }
    }

    /// Takes a job away.
    pub fn remove(&mut self, n: u8) {
        if n == 0 || n > JOBS {
            return;
        }
        remove_job(n, &mut self.table, &mut self.locks, &mut self.cores);
    }

    /// Whether a job is ready.
    pub fn is_ready(&self, n: u8) -> bool {
        self.table.ready(n, &self.lines, &self.locks)
    }

    /// A step of the scheduler with a quantum: the job that runs, whose wait is over then, 0 for none.
    pub fn step(&mut self, quantum: u8) -> u8 {
        let Some(n) = self.table.next(&self.lines, &self.locks) else {
            return 0;
        };
        self.table.choose(n, quantum);
        self.rewind(n);
        n
    }

    /// The word in an AC of a job.
    pub fn ac(&self, n: u8, ac: u8) -> u64 {
        match self.job(n) {
            Some(job) => job.regs.ac[ac as usize % 16].number(),
            None => 0,
        }
    }

    /// Puts a word in an AC of a job.
    pub fn set_ac(&mut self, n: u8, ac: u8, word: u64) {
        if n > JOBS {
            return;
        }
        if let Some(mut job) = self.job(n) {
            job.regs.ac[ac as usize % 16] = Word::low_bits(word);
            self.table.put(n, job);
        }
    }

    /// Lets a job be at its call again, not stopped and without a wait.
    fn rewind(&mut self, n: u8) {
        if n > JOBS {
            return;
        }
        if let Some(mut job) = self.job(n) {
            job.regs.pc = Address::new(NEXT);
            job.stop = None;
            job.wait = Wait::None;
            self.table.put(n, job);
        }
    }

    /// The PC of a job.
    pub fn pc(&self, n: u8) -> u32 {
        match self.job(n) {
            Some(job) => job.regs.pc.number(),
            None => 0,
        }
    }

    /// The word at an address of a job's core.
    pub fn word(&self, n: u8, a: u32) -> Option<u64> {
        if n == 0 || n > JOBS {
            return None;
        }
        let word = self.cores.read(n, a)?;
        Some(word.number())
    }

    /// Stores words in a job's core from an address on, as far as it reaches.
    pub fn store(&mut self, n: u8, from: usize, words: &[u64]) {
        if n == 0 || n > JOBS {
            return;
        }
        let core = self.cores.window(n);
        for (i, word) in words.iter().enumerate() {
            if from < core.len() && i < core.len() - from {
                core[from + i] = Word::low_bits(*word);
            }
        }
    }

    /// Makes a call of a job that is there.
    fn call(&mut self, n: u8, kind: CallKind, ac: u8, e: u32) -> CallOutcome {
        if n == 0 || n > JOBS || ac > 0o17 || e > 0o777_777 {
            return CallOutcome::Gone;
        }
        if self.table.job(n).is_none() || self.cores.blocks(n) == 0 {
            return CallOutcome::Gone;
        }
        let call = MonitorCall {
            kind,
            ac: Accumulator::new(ac),
            e: Address::new(e),
        };
        perform(
            n,
            call,
            &mut self.table,
            &mut self.lines,
            &mut self.locks,
            &mut self.cores,
            &mut self.shared,
            &mut self.room,
            self.time,
        )
        .outcome
    }

    /// Makes a CALLI of this AC field and number.
    fn calli(&mut self, n: u8, ac: u8, e: u32) -> CallOutcome {
        self.call(n, CallKind::Calli, ac, e)
    }

    /// Makes a TTCALL of this function and E.
    fn ttcall(&mut self, n: u8, ac: u8, e: u32) -> CallOutcome {
        self.call(n, CallKind::Ttcall, ac, e)
    }

    /// Puts a word in AC 1 of a job at its call and makes a CALLI with AC field 1; the PC and AC 1 after
    /// it.
    pub fn ask(&mut self, n: u8, e: u32, word: u64) -> (u32, u64) {
        self.rewind(n);
        self.set_ac(n, 1, word);
        self.calli(n, 1, e);
        (self.pc(n), self.ac(n, 1))
    }

    /// Makes a CALLI of a job that is at its call again: how it ends, and the PC.
    pub fn calls(&mut self, n: u8, ac: u8, e: u32) -> (CallOutcome, u32) {
        self.rewind(n);
        let outcome = self.calli(n, ac, e);
        (outcome, self.pc(n))
    }

    /// Makes a TTCALL of job 1 at its call again: how it ends, the PC and the wait.
    pub fn tty(&mut self, function: u8, e: u32) -> (CallOutcome, u32, Wait) {
        self.rewind(1);
        let outcome = self.ttcall(1, function, e);
        (outcome, self.pc(1), self.wait(1))
    }

    /// Whether job 1 is stopped at its call as an illegal instruction, and nothing else has changed.
    pub fn is_refused(&self) -> bool {
        self.stop(1) == Some(Stop::Fault(StopReason::IllegalInstruction))
            && self.pc(1) == BACK
            && self.wait(1) == Wait::None
            && self.ac(1, 1) == 0
            && self.requests() == 0
    }
}
