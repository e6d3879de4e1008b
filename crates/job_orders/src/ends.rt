//! Ends of orders, and how jobs have ended there.
ghost use Rattle.std.specs.Prelude.{◌≡◌, ◌≤◌, IfOk, length, map};
ghost use Rattle.std.specs.Bool.{Decides};
ghost use Rattle.std.specs.List.{Contains};
ghost use Rattle.word36.specs.declared.sizes.TheConstants.{JOBS};
ghost use Rattle.job_orders.specs.Endings.{ending_in, ending_of, job_ending, job_ending_of, rests, standing_of};
ghost use Rattle.job_orders.specs.Views.{job_in, jobs_in};

use crate::machines::Machine;
use job_sched::{Job, Stop, Wait};
use std::alloc::{AllocError, Global};
use tty_lines::Char7;
use word36::{Address, Word};

/// How a job has ended when nothing can happen any more.
#[derive(Clone, Copy, Debug, PartialEq, Eq)]
pub enum Standing {
    /// It is not there: it has logged out.
    Gone,
    /// It is stopped.
    Stopped(Stop),
    /// It waits for ever.
    Waits(Wait),
}

/// The last state of a job.
#[derive(Drop)]
pub struct Left {
    /// How it has ended.
    pub standing: Standing,
    /// The address of its last turn; that at which it starts if it has taken none, and 0 if it never was there.
    pub last: Address,
    /// All that it has put out.
    pub text: Vec<Char7>,
}

/// An end: no job can take a turn.
#[derive(Drop)]
pub struct End {
    /// A least order that leads to such an end: for each move, the number of its job less 1.
    pub moves: Vec<usize>,
    /// Jobs 1, 2 and so on.
    pub jobs: Vec<Left>,
    /// The words that all jobs share.
    pub shared: Vec<Word>,
}

/// How the job of a slot has ended.
fn standing_of(slot: &Option<Job>) -> Standing
    ensures { result ≡ standing_of slot.now }
{
    match slot {
        None => Standing::Gone,
        Some(job) => match job.stop {
            Some(stop) => Standing::Stopped(stop),
            None => Standing::Waits(job.wait),
        },
    }
}

/// The last state of a job, by its slot, the address of its last turn and its text.
fn left_of(
    alloc: Global,
    slot: &Option<Job>,
    last: Address,
    text: &[Char7],
) -> Result<Left, AllocError>
    ensures { IfOk result (λ l. job_ending_of l ≡ record { standing = standing_of slot.now; last = last; text = text.now }) }
{
    let text = text.to_vec(alloc)?;
    let standing = standing_of(slot);
    Ok(Left {
        standing,
        last,
        text,
    })
}

/// The last state of job n.
fn left_at(alloc: Global, machine: &Machine, n: u8) -> Result<Left, AllocError>
    requires { n ≤ JOBS }
    ensures { IfOk result (λ l. job_ending_of l ≡ job_ending (job_in machine.now n)) }
{
    let left = left_of(
        alloc,
        &machine.world.table.jobs[n as usize],
        machine.last[n as usize],
        machine.texts[n as usize].as_slice(),
    )?;
    Ok(left)
}

/// The last states of jobs 1 to `count`.
fn all_left(alloc: Global, machine: &Machine, count: u8) -> Result<Vec<Left>, AllocError>
    requires { count ≤ JOBS }
    ensures { IfOk result (λ all. map job_ending_of all.items ≡ map job_ending (jobs_in machine.now count)) }
{
    let mut jobs = Vec::with_capacity(alloc, count as usize)?;
    for k in 0..count {
        let left = left_at(alloc, machine, k + 1)?;
        jobs.push(left)?;
    }
    Ok(jobs)
}

/// The end at which a machine is, to which some moves led.
pub(crate) fn end_of(
    alloc: Global,
    machine: &Machine,
    count: u8,
    moves: Vec<usize>,
) -> Result<End, AllocError>
    requires { count ≤ JOBS }
    ensures ending { IfOk result (λ e. ending_of e ≡ ending_in count machine.now) }
    ensures moves { IfOk result (λ e. e.moves ≡ moves) }
{
    let jobs = all_left(alloc, machine, count)?;
    let shared = machine.world.shared.as_slice().to_vec(alloc)?;
    Ok(End {
        moves,
        jobs,
        shared,
    })
}

/// Whether two texts are the same.
fn is_same_text(a: &[Char7], b: &[Char7]) -> bool
    ensures { Decides result (a.now ≡ b.now) }
{
    a == b
}

/// Whether two lists of words are the same.
pub(crate) fn are_same_words(a: &[Word], b: &[Word]) -> bool
    ensures { Decides result (a.now ≡ b.now) }
{
    a == b
}

/// Whether a last state of a job is that of a job with this slot, this address of its last turn and this text.
fn is_same_left(left: &Left, slot: &Option<Job>, last: Address, text: &[Char7]) -> bool
    ensures { Decides result (job_ending_of left.now ≡ record { standing = standing_of slot.now; last = last; text = text.now }) }
{
    left.standing == standing_of(slot)
        && left.last == last
        && is_same_text(left.text.as_slice(), text)
}

/// Whether it is that of job n.
fn is_same_job(left: &Left, machine: &Machine, n: u8) -> bool
    requires { n ≤ JOBS }
    ensures { Decides result (job_ending_of left.now ≡ job_ending (job_in machine.now n)) }
{
    is_same_left(
        left,
        &machine.world.table.jobs[n as usize],
        machine.last[n as usize],
        machine.texts[n as usize].as_slice(),
    )
}

/// Whether last states of jobs are those of jobs 1 to `count`.
fn are_same_jobs(jobs: &[Left], machine: &Machine, count: u8) -> bool
    requires { count ≤ JOBS }
    ensures { Decides result (map job_ending_of jobs.now ≡ map job_ending (jobs_in machine.now count)) }
{
    if jobs.len() != count as usize {
        return false;
    }
    for k in 0..count {
        if !is_same_job(&jobs[k as usize], machine, k + 1) {
            return false;
        }
    }
    true
}

/// Whether an end is that at which a machine is.
fn is_same_end(end: &End, machine: &Machine, count: u8) -> bool
    requires { count ≤ JOBS }
    ensures { Decides result (ending_of end.now ≡ ending_in count machine.now) }
{
    are_same_words(end.shared.as_slice(), machine.world.shared.as_slice())
        && are_same_jobs(end.jobs.as_slice(), machine, count)
}

/// Whether one of some ends is.
pub(crate) fn is_known_end(ends: &[End], machine: &Machine, count: u8) -> bool
    requires { count ≤ JOBS }
    ensures { Decides result (Contains (map ending_of ends.now) (ending_in count machine.now)) }
{
    for end in ends {
        if is_same_end(end, machine, count) {
            return true;
        }
    }
    false
}

/// Whether none of jobs 1 to `count` can take a turn.
pub(crate) fn is_end(machine: &Machine, count: u8) -> bool
    ensures { result ≡ rests count machine.now }
{
    for k in 0..count {
        if machine.can_run(k + 1) {
            return false;
        }
    }
    true
}
