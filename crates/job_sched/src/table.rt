//! The jobs by number, and the scheduler.

ghost use Rattle.std.specs.Prelude.{ℕ, Bool, List, true, false, ◌≡◌, ◌≢◌, ◌<◌, ◌≤◌, ◌-◌, ◌+◌, ◌==◌, ◌&&◌, ◌||◌, Some, None, length, map};
ghost use Rattle.std.specs.Prelude.{OnOk, OnErr, IfSome};
ghost use Rattle.std.specs.List.{list_any};
ghost use Rattle.std.specs.Option.{option_copied, option_map};
ghost use Rattle.word36.specs.declared.sizes.TheConstants.{JOBS};
ghost use Rattle.lock_queue.specs.Jobs.{is_among, is_waiting_job};
ghost use Rattle.lock_queue.specs.declared.request.Request.{Request};
ghost use Rattle.tty_lines.specs.Rings.{Rings};
ghost use Rattle.job_sched.specs.Jobs.{broken_job, going_on, resumed_job, started_job, ticked_job};
ghost use Rattle.job_sched.specs.Limits.{expires, is_last_tick, limited_from, limited_job, limited_table};
ghost use Rattle.job_sched.specs.Tables.{is_sleeper, job_at, no_jobs};
ghost use Rattle.job_sched.specs.Changes.{broken_table, chosen, free_number, is_at, left_after, spent, standing};
ghost use Rattle.job_sched.specs.Changes.{table_without, ticked_table, with_change, with_job};
ghost use Rattle.job_sched.specs.Spans.{Undisturbed, is_alone, is_open};
ghost use Rattle.job_sched.specs.Ready.{after, first_from, holds, is_ready, is_ready_job, next_job};

use crate::{Job, JobError, Wait};
use lock_queue::LockTable;
use std::marker::Model;
use tty_lines::{LineNumber, Lines};
use word36::JOBS;

/// The slots of a table: one for each number, and slot 0, which no job has.
pub const JOB_SLOTS: usize = JOBS as usize + 1;

/// The jobs by number, 1 to 63, the current job, and how many ticks are left of its quantum.
///
/// Contracts see the jobs, the current number and the quantum. The table also keeps whether a job may sleep
/// or have a limit, so that a tick looks at the jobs only then, and a number from which on there are no jobs,
/// where the scheduler does not look.
#[derive(Drop)]
pub struct JobTable {
    /// The job of each number, if it is there.
    pub jobs: [Option<Job>; JOB_SLOTS],
    /// The number of the job that ran last, 0 for none.
    pub current: u8,
    /// How many ticks are left of its quantum.
    pub left: u8,
    /// Whether ticks may count for a job, which sleeps or waits with a limit. Where it is false, they count
    /// for none. Code that lets a job sleep, or wait with a limit, has to set it.
    pub sleepers: bool,
    /// A number from which on there are no jobs.
    pub vacant_from: u8,
}

impl Model for JobTable {
    ghost use Rattle.job_sched.specs.Tables.{IsTable, Table};

    ghost Value = { Table };

    ghost view = { λ t. record { jobs = t.jobs; current = t.current; left = t.left } };

    ghost invariant = { λ t. IsTable t.jobs t.sleepers t.vacant_from };
}

/// The first number after `number` that can have a job, in a circle: the next one, or 1 where no jobs come
/// after it.
#[inline(always)]
fn first_behind(number: u8, vacant_from: u8) -> u8
    requires { vacant_from ≤ JOBS + 1 }
    ensures least { 1 ≤ result }
    ensures most { result ≤ JOBS }
    ensures found { (test : ℕ → Bool) → ((n : ℕ) → vacant_from ≤ n → test n ≡ false)
        → first_from test JOBS result ≡ first_from test JOBS (after number) }
{
    if u32::from(number) + 1 < u32::from(vacant_from) {
        number + 1
    } else if number <= JOBS {
        1
    } else {
        number % JOBS + 1
    }
}

/// Whether the wait of a job still holds. It is not inlined, since few jobs wait.
#[inline(never)]
fn holds<L: LockTable>(number: u8, job: &Job, lines: &Lines, locks: &L) -> bool
    ensures { result ≡ holds lines.now (L.requests locks.now) number job.now.line job.now.wait }
{
    match job.wait {
        Wait::None => false,
        Wait::Sleep(ticks) => ticks > 0,
        Wait::Char => !lines.has_char(job.line),
        Wait::Line => !lines.has_line(job.line),
        Wait::Room(places) => lines.room(job.line) < places as usize,
        Wait::Queue(..) => locks.is_waiting(number),
    }
}

/// Whether the job in a slot is there, is not stopped, and waits for nothing any more. Most jobs wait for
/// nothing at all.
#[inline(always)]
fn is_ready_slot<L: LockTable>(number: u8, slot: &Option<Job>, lines: &Lines, locks: &L) -> bool
    ensures { result ≡ is_ready_job lines.now (L.requests locks.now) number slot.now }
{
    let Some(job) = slot else {
        return false;
    };
    if job.stop.is_some() {
        return false;
    }
    match job.wait {
        Wait::None => true,
        _ => !holds(number, job, lines, locks),
    }
}

/// Whether the job in a slot is there, is not stopped, and waits for nothing at all: then it is ready.
#[inline(always)]
fn computes(slot: &Option<Job>) -> bool
    ensures { (lines : List Rings) (requests : List Request) (n : ℕ) → result ≡ true → is_ready_job lines requests n slot.now ≡ true }
{
    match slot {
        Some(job) => job.stop.is_none() && matches!(job.wait, Wait::None),
        None => false,
    }
}

/// Whether the job in a slot is there and ticks count for it.
fn is_sleeper(slot: &Option<Job>) -> bool
    ensures { result ≡ is_sleeper slot.now }
{
    match slot {
        Some(job) => job.is_asleep(),
        None => false,
    }
}

/// Whether the job in a slot is there and an interrupt can be delivered to it.
#[inline(always)]
fn is_open(slot: &Option<Job>) -> bool
    ensures { result ≡ is_open slot.now }
{
    match slot {
        Some(job) => job.takes_interrupts(),
        None => false,
    }
}

/// Whether the job in a slot is there and has this line.
fn is_at(line: LineNumber, slot: &Option<Job>) -> bool
    ensures { result ≡ is_at line slot.now }
{
    match slot {
        Some(job) => job.line == line,
        None => false,
    }
}

/// A number from which on there are no jobs, after the job of `number` is gone.
fn vacant_without(vacant_from: u8, number: u8) -> u8
    requires { number ≤ JOBS }
    ensures less { result ≤ vacant_from }
    ensures others { (n : ℕ) → result ≤ n → n ≢ number → vacant_from ≤ n }
{
    if vacant_from == number + 1 {
        number
    } else {
        vacant_from
    }
}

/// What is left of a job's quantum after so many rounds in a row, each with its tick, when the job is next
/// again.
#[inline(always)]
fn left_after(quantum: u8, left: u8, rounds: u32) -> u8
    ensures { result ≡ left_after quantum left rounds }
{
    let first = u32::from(left.max(1));
    if quantum == 0 || rounds < first {
        return u32::from(left).saturating_sub(rounds) as u8;
    }
    quantum - ((rounds - first) % u32::from(quantum)) as u8
}

/// Makes every sleep one tick shorter. Returns whether ticks still count for a job.
fn tick_all(jobs: &mut [Option<Job>]) -> bool
    ensures jobs { jobs.new ≡ map (option_map ticked_job) jobs.old }
    ensures sleepers { result ≡ list_any is_sleeper jobs.new }
{
    for slot in jobs.iter_mut() {
        if let Some(job) = slot {
            job.tick();
        }
    }
    jobs.iter().any(|slot| is_sleeper(slot))
}

/// A set of jobs, and one job more.
fn with_member(jobs: u64, job: u8) -> u64
    requires { job ≤ JOBS }
    ensures { (n : ℕ) → is_among result n ≡ (is_among jobs n || n == job) }
{
    jobs | 1 << job
}

/// Makes the limit of the job in a slot one tick shorter, if it is there and waits for a grant. Returns
/// whether the limit ends.
fn expire_slot<L: LockTable>(number: u8, slot: &mut Option<Job>, locks: &L) -> bool
    ensures slot { slot.new ≡ option_map (limited_job (is_waiting_job (L.requests locks.now) number)) slot.old }
    ensures ended { result ≡ (is_waiting_job (L.requests locks.now) number && is_last_tick slot.old) }
{
    let Some(job) = slot else {
        return false;
    };
    if !job.has_limit() || !locks.is_waiting(number) {
        return false;
    }
    job.tick_limit()
}

/// Makes all limits one tick shorter. Returns the set of jobs whose limits end. It is not inlined, since
/// limits are rare.
#[inline(never)]
fn expire_all<L: LockTable>(jobs: &mut [Option<Job>], locks: &L) -> u64
    requires { length jobs.old ≤ JOBS + 1 }
    ensures jobs { jobs.new ≡ limited_from (is_waiting_job (L.requests locks.now)) 0 jobs.old }
    ensures ended { (n : ℕ) → is_among result n ≡ expires (L.requests locks.now) jobs.old n }
{
    let mut ended = 0;
    for number in 0..jobs.len() {
        if expire_slot(number as u8, &mut jobs[number], locks) {
            ended = with_member(ended, number as u8);
        }
    }
    ended
}

/// Stops the job at a line for CTRL-C.
fn break_all(line: LineNumber, jobs: &mut [Option<Job>])
    ensures { jobs.new ≡ map (option_map (broken_job line)) jobs.old }
{
    for slot in jobs.iter_mut() {
        if let Some(job) = slot {
            job.break_at(line);
        }
    }
}

/// Starts the job in a slot, or lets it go on where it was, if it is there and stopped.
fn resume_slot(slot: &mut Option<Job>, from_start: bool) -> Result<(), JobError>
    ensures answer { result ≡ standing slot.old }
    ensures ok { OnOk result (slot.new ≡ option_map (resumed_job from_start) slot.old) }
    ensures err { OnErr result (slot.new ≡ slot.old) }
    ensures awake { is_sleeper slot.old ≡ false → is_sleeper slot.new ≡ false }
    ensures none { slot.old ≡ None → slot.new ≡ None }
{
    match slot {
        Some(job) => {
            if job.stop.is_none() {
                return Err(JobError::NotStopped);
            }
            job.resume(from_start);
            Ok(())
        }
        None => Err(JobError::NoSuchJob),
    }
}

impl JobTable {
    /// A table without jobs.
    pub fn new() -> Self
        ensures { result ≡ no_jobs }
    {
        JobTable {
            jobs: [None; JOB_SLOTS],
            current: 0,
            left: 0,
            sleepers: false,
            vacant_from: 1,
        }
    }

    /// The job of a number, if it is there.
    pub fn job(&self, number: u8) -> Option<&Job>
        ensures { option_copied result ≡ job_at self.now.jobs number }
    {
        match self.jobs.get(number as usize) {
            Some(Some(job)) => Some(job),
            _ => None,
        }
    }

    /// Whether a job is there, is not stopped, and waits for nothing any more.
    #[inline(always)]
    pub fn ready<L: LockTable>(&self, number: u8, lines: &Lines, locks: &L) -> bool
        ensures { result ≡ is_ready self.now.jobs lines.now (L.requests locks.now) number }
    {
        match self.jobs.get(number as usize) {
            Some(slot) => is_ready_slot(number, slot, lines, locks),
            None => false,
        }
    }

    /// Whether the job of a number from 0 to 63 is ready. The scheduler asks this of one job after another:
    /// where many of them wait, it is mostly for a lock, so that wait comes first here.
    #[inline(always)]
    fn is_ready_at<L: LockTable>(&self, number: u8, lines: &Lines, locks: &L) -> bool
        requires { number ≤ JOBS }
        ensures { result ≡ is_ready self.now.jobs lines.now (L.requests locks.now) number }
    {
        let slot = &self.jobs[number as usize];
        if let Some(job) = slot {
            if let Wait::Queue(..) = job.wait {
                return !locks.is_waiting(number) && job.stop.is_none();
            }
        }
        is_ready_slot(number, slot, lines, locks)
    }

    /// The first ready number from `from` on and below `to`.
    #[inline(always)]
    fn first_between<L: LockTable>(&self, from: u8, to: u8, lines: &Lines, locks: &L) -> Option<u8>
        requires { to ≤ JOBS + 1 }
        ensures { result ≡ first_from (is_ready self.now.jobs lines.now (L.requests locks.now)) (to - from) from }
    {
        for number in from..to {
            if self.is_ready_at(number, lines, locks) {
                return Some(number);
            }
        }
        None
    }

    /// The first ready number of all, from `from` on in a circle.
    #[inline(never)]
    fn first_ready<L: LockTable>(&self, from: u8, lines: &Lines, locks: &L) -> Option<u8>
        requires least { 1 ≤ from }
        requires most { from ≤ JOBS }
        ensures { result ≡ first_from (is_ready self.now.jobs lines.now (L.requests locks.now)) JOBS from }
    {
        // `vacant_from` is no more anyway; this tells the compiler that each number has a slot.
        let end = self.vacant_from.min(JOBS + 1);
        match self.first_between(from, end, lines, locks) {
            Some(number) => Some(number),
            None => self.first_between(1, from.min(end), lines, locks),
        }
    }

    /// The job that runs next: the current one while it is ready and has quantum left; otherwise the
    /// first ready number after it, in a circle that ends with it.
    #[inline(always)]
    pub fn next<L: LockTable>(&self, lines: &Lines, locks: &L) -> Option<u8>
        ensures { result ≡ next_job self.now lines.now (L.requests locks.now) }
    {
        let goes_on = self.left > 0 && self.ready(self.current, lines, locks);
        if goes_on {
            return Some(self.current);
        }
        let first = first_behind(self.current, self.vacant_from);
        if computes(&self.jobs[first as usize]) {
            Some(first)
        } else {
            self.first_ready(first, lines, locks)
        }
    }

    /// Makes a job the current one. It keeps what is left of its quantum where it was current already, and
    /// gets a whole quantum where nothing is left or another job was current.
    #[inline(always)]
    pub fn choose(&mut self, number: u8, quantum: u8)
        ensures { self.new ≡ chosen self.old number quantum }
    {
        if self.current != number || self.left == 0 {
            self.current = number;
            self.left = quantum;
        }
    }

    /// The first half of a tick: makes every sleep, and what is left of the quantum, one tick shorter.
    #[inline(always)]
    pub fn tick(&mut self)
        ensures { self.new ≡ ticked_table self.old }
    {
        self.left = self.left.saturating_sub(1);
        if self.sleepers {
            self.sleepers = tick_all(&mut self.jobs);
        }
    }

    /// The second half of a tick: makes the limit of each job, stopped or not, that waits for a grant one tick
    /// shorter. Where a limit ends, the job goes on at the error return of its call, with the code in the
    /// call's accumulator. Returns the set of jobs whose limits end, as bit 2^j for job j.
    #[inline(always)]
    pub fn expire<L: LockTable>(&mut self, locks: &L) -> u64
        ensures table { self.new ≡ limited_table self.old (L.requests locks.now) }
        ensures ended { (n : ℕ) → is_among result n ≡ expires (L.requests locks.now) self.old.jobs n }
    {
        if self.sleepers {
            expire_all(&mut self.jobs, locks)
        } else {
            0
        }
    }

    /// Makes both halves of a tick. Returns the set of jobs whose limits end. Where ticks count for no job,
    /// only the quantum gets shorter.
    #[inline(always)]
    pub fn pass_tick<L: LockTable>(&mut self, locks: &L) -> u64
        ensures table { self.new ≡ limited_table (ticked_table self.old) (L.requests locks.now) }
        ensures ended { (n : ℕ) → is_among result n ≡ expires (L.requests locks.now) (ticked_table self.old).jobs n }
    {
        if self.sleepers {
            self.tick();
            self.expire(locks)
        } else {
            self.left = self.left.saturating_sub(1);
            0
        }
    }

    /// Whether the job that is next has just used up its quantum: then the scheduler asked all others before
    /// it, and none is ready.
    #[inline(always)]
    pub fn is_alone(&self, number: u8) -> bool
        ensures { result ≡ is_alone self.now number }
    {
        self.current == number && self.left == 0
    }

    /// For how many of `most` rounds, steps with ticks or without, the job that was just chosen runs, as long
    /// as it only computes: nothing comes between these. `alone` says whether it was alone before.
    #[inline(always)]
    pub fn span(&self, number: u8, most: u32, ticking: bool, alone: bool) -> u32
        requires number { number ≤ JOBS }
        requires some { 1 ≤ most }
        ensures least { 1 ≤ result }
        ensures most { result ≤ most }
        ensures undisturbed { 2 ≤ result → Undisturbed self.now number ticking alone result }
    {
        let lasting = ticking && !alone;
        if lasting && self.left < 2 {
            return 1;
        }
        if self.left == 0 || self.current != number {
            return 1;
        }
        if is_open(&self.jobs[number as usize]) || ticking && self.sleepers {
            return 1;
        }
        if lasting {
            most.min(u32::from(self.left))
        } else {
            most
        }
    }

    /// Takes the ticks of so many rounds in a row from the current job's quantum; where the quantum ends, the
    /// job, which is next again, gets a whole one. The ticks count for no other job.
    #[inline(always)]
    pub fn spend(&mut self, rounds: u32, quantum: u8)
        ensures { self.new ≡ spent self.old quantum rounds }
    {
        self.left = left_after(quantum, self.left, rounds);
    }

    /// Stops the job at a line for CTRL-C, unless it is stopped already.
    pub fn break_at(&mut self, line: LineNumber)
        ensures { self.new ≡ broken_table self.old line }
    {
        break_all(line, &mut self.jobs);
    }

    /// Starts a stopped job, or lets it go on where it was.
    fn resume(&mut self, number: u8, from_start: bool) -> Result<(), JobError>
        ensures answer { result ≡ standing (job_at self.old.jobs number) }
        ensures ok { OnOk result (self.new ≡ with_change self.old number (resumed_job from_start)) }
        ensures err { OnErr result (self.new ≡ self.old) }
    {
        let jobs = &mut self.jobs;
        if number > JOBS {
            return Err(JobError::NoSuchJob);
        }
        resume_slot(&mut jobs[number as usize], from_start)
    }

    /// Starts a stopped job: it goes on at its start address, waits for nothing and has no vector.
    /// `NoSuchJob` where it is not there, `NotStopped` where it is not stopped; then nothing changes.
    pub fn start(&mut self, number: u8) -> Result<(), JobError>
        ensures answer { result ≡ standing (job_at self.old.jobs number) }
        ensures ok { OnOk result (self.new ≡ with_change self.old number started_job) }
        ensures err { OnErr result (self.new ≡ self.old) }
    {
        self.resume(number, true)
    }

    /// Lets a stopped job go on: its program counter and its wait stay. `NoSuchJob` where it is not there,
    /// `NotStopped` where it is not stopped; then nothing changes.
    pub fn go_on(&mut self, number: u8) -> Result<(), JobError>
        ensures answer { result ≡ standing (job_at self.old.jobs number) }
        ensures ok { OnOk result (self.new ≡ with_change self.old number going_on) }
        ensures err { OnErr result (self.new ≡ self.old) }
    {
        self.resume(number, false)
    }

    /// Gives a number a job.
    pub fn put(&mut self, number: u8, job: Job)
        requires { number ≤ JOBS }
        ensures { self.new ≡ with_job self.old number (Some job) }
    {
        self.sleepers |= job.is_asleep();
        self.vacant_from = self.vacant_from.max(number + 1);
        self.jobs[number as usize] = Some(job);
    }

    /// Takes the job of a number away; where it was current, nothing is left of the quantum.
    pub fn remove(&mut self, number: u8)
        requires { number ≤ JOBS }
        ensures { self.new ≡ table_without self.old number }
    {
        self.jobs[number as usize] = None;
        self.vacant_from = vacant_without(self.vacant_from, number);
        if self.current == number {
            self.left = 0;
        }
    }

    /// Whether a line has a job.
    pub fn is_busy(&self, line: LineNumber) -> bool
        ensures { result ≡ list_any (is_at line) self.now.jobs }
    {
        self.jobs.iter().any(|slot| is_at(line, slot))
    }

    /// The least number, from 1 on, that no job has.
    pub fn free_number(&self) -> Option<u8>
        ensures number { result ≡ free_number self.now.jobs }
        ensures free { IfSome result (λ n. (1 ≤ n) × (n ≤ JOBS) × (job_at self.now.jobs n ≡ None)) }
    {
        for number in 1..=JOBS {
            if self.jobs[number as usize].is_none() {
                return Some(number);
            }
        }
        None
    }
}
