//! A job.

ghost use Rattle.std.specs.Prelude.{◌≡◌, ◌==◌, nat_lt, slice_set};
ghost use Rattle.lock_queue.specs.Refusals.{code_of as refusal_code};
ghost use Rattle.job_sched.specs.Jobs.{new_job, resumed_job, broken_job, ticked_job, is_asleep, takes_interrupts};
ghost use Rattle.job_sched.specs.Limits.{at_error_return, limit_of, limited_by};
ghost use Rattle.job_sched.specs.Stops.{code_of};

use ka_state::{Flags, Regs, StopReason};
use lock_queue::Refusal;
use tty_lines::LineNumber;
use word36::{Address, Word};

/// What is added to an address, modulo 2^18, to go one back.
const ONE_BACK: u32 = 0o777_777;

/// Why a job is stopped (this project's profile).
#[derive(Clone, Copy, Debug, PartialEq, Eq)]
pub enum Stop {
    /// It is loaded, and has not been started yet.
    Loaded,
    /// Its instruction or its monitor call stopped it.
    Fault(StopReason),
    /// EXIT.
    Exit,
    /// EXIT 1, which MONRT. is.
    Monitor,
    /// CTRL-C was typed at its line.
    Typed,
}

impl Stop {
    /// The number of the reason in scripts: 0 loaded, 1 to 5 as of the processor, 6 EXIT, 7 EXIT 1, 8
    /// CTRL-C.
    pub fn code(self) -> u8
        ensures { result ≡ code_of self }
    {
        match self {
            Stop::Loaded => 0,
            Stop::Fault(reason) => reason.code(),
            Stop::Exit => 6,
            Stop::Monitor => 7,
            Stop::Typed => 8,
        }
    }
}

/// What a job waits for (the waits of the TOPS-10 Monitor Calls Manual, in this project's profile).
#[derive(Clone, Copy, Debug, PartialEq, Eq)]
pub enum Wait {
    /// Nothing.
    None,
    /// The end of so many ticks.
    Sleep(u32),
    /// A character in the input of its line, whichever.
    Char,
    /// A break character there, or a full input.
    Line,
    /// Room for so many characters in the output of its line.
    Room(u16),
    /// The grant of its blocking request: for so many ticks more, or without a limit where that is 0. The
    /// second number is the accumulator of the call.
    Queue(u32, u8),
}

/// How a job is notified of its grants by interrupts (this project's profile).
#[derive(Clone, Copy, Debug, PartialEq, Eq)]
pub struct Interrupts {
    /// The address of its vector, if it has set one.
    pub vector: Option<Address>,
    /// Whether they are on.
    pub on: bool,
    /// Whether one is in progress.
    pub in_progress: bool,
}

/// The interrupts of a job that has set no vector.
pub const NO_INTERRUPTS: Interrupts = Interrupts {
    vector: None,
    on: false,
    in_progress: false,
};

/// The flags of a new job: User alone, which is always set.
pub const NO_FLAGS: Flags = Flags {
    overflow: false,
    carry0: false,
    carry1: false,
    no_divide: false,
};

/// Puts a word at an index, if the slice has it.
fn put_word(words: &mut [Word], index: usize, word: Word)
    ensures { words.new ≡ slice_set words.old index word }
{
    if index < words.len() {
        words[index] = word;
    }
}

/// A job, without its core.
#[derive(Clone, Copy, Debug)]
pub struct Job {
    /// Its terminal line.
    pub line: LineNumber,
    /// Its registers, program counter and flags.
    pub regs: Regs,
    /// Where it starts.
    pub start: Address,
    /// Why it is stopped, if it is.
    pub stop: Option<Stop>,
    /// What it waits for.
    pub wait: Wait,
    /// How it takes interrupts.
    pub interrupts: Interrupts,
    /// How many requests for locks it may have.
    pub quota: u16,
}

impl Job {
    /// A new job, which is loaded: it is stopped, waits for nothing and has no vector.
    pub fn new(line: LineNumber, regs: Regs, start: Address, quota: u16) -> Job
        ensures { result ≡ new_job line regs start quota }
    {
        Job {
            line,
            regs,
            start,
            stop: Some(Stop::Loaded),
            wait: Wait::None,
            interrupts: NO_INTERRUPTS,
            quota,
        }
    }

    /// Whether ticks count for its wait: it sleeps, or its wait for a grant has a limit.
    pub fn is_asleep(&self) -> bool
        ensures { result ≡ is_asleep self.now }
    {
        match self.wait {
            Wait::Sleep(ticks) | Wait::Queue(ticks, _) => ticks > 0,
            Wait::None | Wait::Char | Wait::Line | Wait::Room(_) => false,
        }
    }

    /// Whether its wait for a grant has a limit.
    pub(crate) fn has_limit(&self) -> bool
        ensures { result ≡ nat_lt 0 (limit_of self.now.wait) }
    {
        match self.wait {
            Wait::Queue(limit, _) => limit > 0,
            _ => false,
        }
    }

    /// Whether an interrupt can be delivered to it: interrupts are on, none is in progress, and it has a
    /// vector.
    #[inline(always)]
    pub fn takes_interrupts(&self) -> bool
        ensures { result ≡ takes_interrupts self.now.interrupts }
    {
        let interrupts = &self.interrupts;
        interrupts.on && !interrupts.in_progress && interrupts.vector.is_some()
    }

    /// Ends its stop. Where `from_start`, it goes on at its start address, with no flag but User, no wait and
    /// no vector; otherwise where it was.
    pub(crate) fn resume(&mut self, from_start: bool)
        ensures { self.new ≡ resumed_job from_start self.old }
    {
        self.stop = None;
        if from_start {
            self.regs.pc = self.start;
            self.regs.flags = NO_FLAGS;
            self.wait = Wait::None;
            self.interrupts = NO_INTERRUPTS;
        }
    }

    /// Stops for CTRL-C, if that is its line and it is not stopped already.
    pub(crate) fn break_at(&mut self, line: LineNumber)
        ensures { self.new ≡ broken_job line self.old }
    {
        if self.line == line && self.stop.is_none() {
            self.stop = Some(Stop::Typed);
        }
    }

    /// Makes its sleep one tick shorter, if it sleeps.
    pub(crate) fn tick(&mut self)
        ensures { self.new ≡ ticked_job self.old }
    {
        if let Wait::Sleep(ticks) = self.wait {
            self.wait = Wait::Sleep(ticks.saturating_sub(1));
        }
    }

    /// Refuses a call that had skipped: the job goes on at the error return of the call, with the code in
    /// the call's accumulator, and waits for nothing.
    fn refuse_late(&mut self, refusal: Refusal, ac: u8)
        ensures { self.new ≡ at_error_return (refusal_code refusal) ac self.old }
    {
        self.regs.pc = self.regs.pc.plus(ONE_BACK);
        self.wait = Wait::None;
        put_word(
            &mut self.regs.ac,
            ac as usize,
            Word::new(u64::from(refusal.code())),
        );
    }

    /// Makes the limit of its wait one tick shorter, if it has one; where the limit ends, the call is
    /// refused. Returns whether it ends.
    pub(crate) fn tick_limit(&mut self) -> bool
        ensures job { self.new ≡ limited_by self.old.wait self.old }
        ensures ended { result ≡ (limit_of self.old.wait == 1) }
    {
        let Wait::Queue(limit, ac) = self.wait else {
            return false;
        };
        if limit == 1 {
            self.refuse_late(Refusal::TimedOut, ac);
            return true;
        }
        self.wait = Wait::Queue(limit.saturating_sub(1), ac);
        false
    }
}
