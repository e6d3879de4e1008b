//! INCHRW, INCHRS, INCHWL, INCHSL, SKPINC and SKPINL.

ghost use Rattle.std.specs.Prelude.{◌≡◌, ◌<◌, ◌^◌, drop, []};
ghost use Rattle.core_store.specs.Cores.{IsJob, core_of, with_core};
ghost use Rattle.tty_lines.specs.Rings.{input_of, with_input};
ghost use Rattle.uuo_calls.specs.TerminalRows.{first_of, has_input, input_called, input_wait, no_input, skipping_if, without_core};

use crate::call::CallOutcome;
use crate::returns::{skip, stop_at, wait_again};
use crate::service::Awaited;
use core_store::CoreStore;
use job_sched::{Job, Wait};
use ka_state::{CoreWords, JobMemory, StopReason, is_legal_kept, store};
use tty_lines::Lines;
use word36::{Address, Word};

/// Whether the input of a job's line has what is to be read.
fn has_input(awaited: Awaited, job: &Job, lines: &Lines) -> bool
    ensures { result ≡ has_input awaited (input_of lines.now job.now.line) }
{
    match awaited {
        Awaited::Character => lines.has_char(job.line),
        Awaited::Line => lines.has_line(job.line),
    }
}

/// The wait for what is to be read.
fn input_wait(awaited: Awaited) -> Wait
    ensures { result ≡ input_wait awaited }
{
    match awaited {
        Awaited::Character => Wait::Char,
        Awaited::Line => Wait::Line,
    }
}

/// Takes the first character of a job's line, as a word; 0 where there is none.
fn next_character(job: &Job, lines: &mut Lines) -> Word
    ensures value { result ≡ first_of (input_of lines.old job.now.line) }
    ensures rest { lines.new ≡ with_input lines.old job.now.line (drop 1 (input_of lines.old job.now.line)) }
{
    match lines.get(job.line) {
        Some(c) => Word::new(c.number() as u64),
        None => Word::new(0),
    }
}

/// What INCHRW, INCHRS, INCHWL and INCHSL do.
#[derive(Clone, Copy, Debug)]
pub(crate) struct Reading {
    /// What is to be read.
    pub awaited: Awaited,
    /// Whether the call skips where that is there, and goes on where it is not, in place of a wait.
    pub skips: bool,
    /// Where the character goes.
    pub e: Address,
}

/// Lets a job go on without a character, or wait for one.
fn go_without(awaited: Awaited, skips: bool, job: &mut Job) -> CallOutcome
    ensures job { job.new ≡ (no_input awaited skips [] job.old []).job }
    ensures ending { result ≡ (no_input awaited skips [] job.old []).ending }
{
    if skips {
        return CallOutcome::Done;
    }
    wait_again(job, input_wait(awaited));
    CallOutcome::Empty
}

/// Reads a character into a job's memory.
fn read<M: JobMemory>(
    reading: Reading,
    job: &mut Job,
    memory: &mut M,
    lines: &mut Lines,
) -> CallOutcome
    ensures called { record { job = job.new; core = M.words memory.new; lines = lines.new; ending = result }
        ≡ input_called reading.awaited reading.skips reading.e (M.words memory.old) job.old lines.old }
    ensures place { M.place memory.new ≡ M.place memory.old }
{
    let Reading { awaited, skips, e } = reading;
    if !is_legal_kept(memory, e.number()) {
        stop_at(job, StopReason::IllegalAddress);
        return CallOutcome::Done;
    }
    if !has_input(awaited, job, lines) {
        return go_without(awaited, skips, job);
    }
    let c = next_character(job, lines);
    store(&mut job.regs, memory, e.number(), c);
    if skips {
        skip(job);
    }
    CallOutcome::Done
}

/// INCHRW, INCHRS, INCHWL and INCHSL.
pub(crate) fn input<C: CoreStore>(
    number: u8,
    reading: Reading,
    job: &mut Job,
    lines: &mut Lines,
    cores: &mut C,
) -> CallOutcome
    requires number { IsJob number }
    ensures called { record { job = job.new; lines = lines.new; ending = result }
        ≡ without_core
        (input_called reading.awaited reading.skips reading.e (core_of (C.meaning cores.old) number) job.old lines.old) }
    ensures cores { C.meaning cores.new
        ≡ with_core (C.meaning cores.old) number
        (input_called reading.awaited reading.skips reading.e (core_of (C.meaning cores.old) number) job.old lines.old).core }
{
    let words = cores.window(number);
    let mut window = CoreWords { words };
    read(reading, job, &mut window, lines)
}

/// SKPINC and SKPINL.
pub(crate) fn skpin(awaited: Awaited, job: &mut Job, lines: &Lines)
    ensures { job.new ≡ skipping_if (has_input awaited (input_of lines.now job.old.line)) job.old }
{
    if has_input(awaited, job, lines) {
        skip(job);
    }
}
