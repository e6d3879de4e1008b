//! The parts of the machine, seen as one state, and a method for each event.
ghost use Rattle.std.specs.Prelude.{◌≡◌, ◌≢◌, ◌<◌, ◌≤◌, ◌^◌, ◌+◌, ◌-◌, if◌then◌else◌, is_some, [], ℕ, Bool, true, Some, IsSome, IfOk};
ghost use Rattle.std.specs.Prelude.{slice_get};
ghost use Rattle.word36.specs.declared.sizes.TheConstants.{MOST_BLOCKS, MOST_REQUESTS};
ghost use Rattle.core_store.specs.Cores.{IsJob, core_of};
ghost use Rattle.job_sched.specs.Ready.{next_job};
ghost use Rattle.job_sched.specs.Tables.{job_at};
ghost use Rattle.job_sched.specs.declared.job.Job.{Job as JobRecord};
ghost use Rattle.machine.specs.Between.{Between, NoneOver, is_among, next_in};
ghost use Rattle.lock_queue.specs.Jobs.{is_among as is_in_set};
ghost use Rattle.job_sched.specs.Changes.{ticked_table};
ghost use Rattle.job_sched.specs.Limits.{expires};
ghost use Rattle.machine.specs.Deposits.{deposited, end_by_hand, executed_by_hand, started_at};
ghost use Rattle.machine.specs.Images.{blocks_for};
ghost use Rattle.machine.specs.Machine.{S, after, answers, called, refusal_of, stepped, ticked, killed, happens, at_boot, started};
ghost use Rattle.machine.specs.Machine.{continued, restarted, typed, taken, admitted, first_quota, logged_in};
ghost use Rattle.machine.specs.Next.{asked_next, block_next, effective_in, executed_in};
ghost use Rattle.machine.specs.Rounds.{rounds, runs_in};
ghost use Rattle.machine.specs.Safe.{Safe};
ghost use Rattle.machine.specs.Stretches.{Stretched, runs_on, table_after, ticked_if, time_after};
ghost use Rattle.machine.specs.Told.{before_in, before_on, block_before, grants_by, read_in, read_on, requests_before, told_in, told_of_call, told_on};
ghost use Rattle.machine.specs.Views.{job_view, held_wait, word_in};
ghost use Rattle.machine.specs.Waits.{ungranted};
ghost use Rattle.machine.specs.declared.event.Event.TheVariants.{Step};
ghost use Rattle.monitor_laws.specs.Quiet.{IsQuiet};

use crate::copies::{ungranted_if, ungranted_in};
use crate::cores::free_all;
use crate::deposits::{execute_in, is_done, put_word, set_pc};
use crate::login::{image_top, load_job};
use crate::next::{JobWords, asked_next};
use crate::rounds::Rounds;
use crate::runner::{Loop, Runner, UpTo};
use crate::turn::run_turn;
use core_store::CoreStore;
use job_sched::{Job, JobError, JobTable, TimeOfDay, Wait};
use ka_cpu::{executed_word, find_address};
use ka_state::Outcome;
use lock_queue::{LockTable, Request};
use machine::{
    Answer, Config, Event, INTERRUPT_CHARACTER, JobView, LOGIN_QUOTA, RefusedEvent, Told,
};
use std::alloc::{AllocError, Global};
use std::marker::Model;
use tty_lines::{Char7, LineNumber, Lines};
use uuo_calls::{Asked, BlockRoom, CallRoom, MonitorCall, Service, World, service_of};
use word36::{Address, BLOCK_WORDS, DATA_WORDS, Image, JOBS, Word};

/// The parts of the machine, whatever state they are in.
#[derive(Drop)]
pub struct Parts<L: LockTable, C: CoreStore> {
    /// What the calls of jobs work on.
    pub(crate) world: World<L, C>,
    /// The time of day in ticks.
    time: TimeOfDay,
    /// The ticks of a quantum.
    quantum: u8,
    /// How many blocks of core there are.
    blocks: u32,
}

impl<L: LockTable, C: CoreStore> Model for Parts<L, C> {
    ghost use Rattle.machine.specs.Machine.{S};

    ghost Value = { S };

    ghost view = { λ p. record {
      world = p.world;
      time = p.time;
      quantum = p.quantum;
      blocks = p.blocks;
    } };
}

/// How many requests a new job may have: `LOGIN_QUOTA`, or all that the lock table holds if these are fewer.
fn first_quota(size: usize) -> u16
    ensures { result ≡ first_quota size }
{
    (LOGIN_QUOTA as usize).min(size) as u16
}

/// The refusal of an event that would start or continue a job.
fn refusal_of(error: JobError) -> RefusedEvent
    ensures { result ≡ refusal_of error }
{
    match error {
        JobError::NoSuchJob => RefusedEvent::NoSuchJob,
        JobError::NotStopped => RefusedEvent::NotStopped,
    }
}

/// Whether requests that waited may be granted behind a call.
fn grants_by(call: &Option<MonitorCall>) -> bool
    ensures { result ≡ grants_by call.now }
{
    match call {
        Some(MonitorCall { kind, ac, e }) => matches!(
            service_of(*kind, *ac, *e),
            Service::Enq | Service::Deq | Service::Reset | Service::Exit | Service::Logout
        ),
        None => false,
    }
}

/// Makes the ticks of all rounds of one job but the last one, where `ticking`.
#[inline(always)]
fn pass_ticks(ticking: bool, rounds: u32, quantum: u8, table: &mut JobTable, time: &mut TimeOfDay)
    requires { 1 ≤ rounds }
    ensures table { table.new ≡ table_after table.old quantum ticking (rounds - 1) }
    ensures time { time.new ≡ time_after time.old ticking (rounds - 1) }
{
    if ticking && rounds > 1 {
        table.spend(rounds - 1, quantum);
        time.advance_by(rounds - 1);
    }
}

impl<L: LockTable, C: CoreStore> Parts<L, C> {
    /// The parts of a machine without jobs.
    pub fn boot(alloc: Global, config: Config) -> Result<Self, AllocError>
        requires { (1 ≤ L.REQS) × (L.REQS ≤ MOST_REQUESTS) }
        ensures state { IfOk result (λ p. p ≡ at_boot L.REQS config.blocks config.quantum) }
        ensures few { config.blocks ≤ MOST_BLOCKS }
        ensures some_ticks { 1 ≤ config.quantum }
    {
        let cores = C::new(alloc, config.blocks())?;
        let locks = L::new(alloc)?;
        let lines = Lines::new(alloc)?;
        let world = World {
            table: JobTable::new(),
            lines,
            locks,
            cores,
            shared: [Word::new(0); DATA_WORDS],
            room: CallRoom::new(),
        };
        Ok(Parts {
            world,
            time: TimeOfDay::new(0),
            quantum: config.quantum(),
            blocks: config.blocks(),
        })
    }

    /// Lets the job that is next take its turn. Returns its number, or `None` where no job is ready.
    #[inline(never)]
    pub fn step(&mut self) -> Option<u8>
        requires { Safe self.old }
        ensures state { self.new ≡ (stepped self.old (next_job self.old.world.table self.old.world.lines self.old.world.requests)).state }
        ensures job { result ≡ next_job self.old.world.table self.old.world.lines self.old.world.requests }
    {
        self.run_next::<Loop<false>, false>(1, false, &Loop).job
    }

    /// Runs the job that is next for 1 to `most` rounds. A round is a step, with a tick after it where
    /// `ticking`; the tick of the last round is left to the caller. Where no job is ready, one idle round
    /// passes. `IN_PLACE` is that of `run_job`.
    #[inline(always)]
    fn run_next<R: Runner, const IN_PLACE: bool>(
        &mut self,
        most: u32,
        ticking: bool,
        runner: &R,
    ) -> Rounds
        requires safe { Safe self.old }
        requires some { 1 ≤ most }
        ensures state { ticked_if ticking self.new ≡ after (rounds result.made ticking) self.old }
        ensures job { result.job ≡ next_job self.old.world.table self.old.world.lines self.old.world.requests }
        ensures count { runs_in (answers (rounds result.made ticking) self.old) + (if is_some result.job then 0 else result.made)
            ≡ result.made }
        ensures least { 1 ≤ result.made }
        ensures most { result.made ≤ most }
        ensures between { (k : ℕ) → 1 ≤ k → k < result.made
            → Between self.old (after (rounds k ticking) self.old) result.job (R.ends runner.now) }
    {
        let world = &mut self.world;
        let Some(n) = world.table.next(&world.lines, &world.locks) else {
            return Rounds { job: None, made: 1 };
        };
        let alone = world.table.is_alone(n);
        world.table.choose(n, self.quantum);
        let span = world.table.span(n, most, ticking, alone);
        let made = self.run_job::<R, IN_PLACE>(n, span, ticking, runner);
        Rounds { job: Some(n), made }
    }

    /// Runs a job for one round: ends its wait, takes its turn, with the instruction inlined here, and
    /// performs the call that it makes.
    #[inline(always)]
    fn run_once(&mut self, n: u8)
        requires number { IsJob n }
        requires there { IsSome (job_at self.old.world.table.jobs n) }
        requires core { core_of self.old.world.cores n ≢ [] }
        ensures runs { (ticking : Bool) → record { world = self.new.world; time = self.new.time; rounds = 1 }
            ≡ runs_on self.old.world self.old.time self.old.quantum n 1 ticking (job_at self.old.world.table.jobs n) }
        ensures others { self.new ≡ record self.old { world = self.new.world; time = self.new.time } }
    {
        let world = &mut self.world;
        let Some(job) = &mut world.table.jobs[n as usize] else {
            return;
        };
        job.wait = Wait::None;
        let (_, call, _) = run_turn::<L, C, Loop<true>>(
            n,
            job,
            &mut world.locks,
            &mut world.cores,
            1,
            &Loop,
        );
        if let Some(call) = call {
            world.perform(n, call, self.time);
        }
    }

    /// Runs a job for 1 to `most` rounds, and returns for how many: ends its wait, takes its turn, with
    /// `runner` for its instructions, and performs the call that it makes. Where `IN_PLACE`, a single round
    /// is that of `run_once`.
    #[inline(always)]
    fn run_job<R: Runner, const IN_PLACE: bool>(
        &mut self,
        n: u8,
        most: u32,
        ticking: bool,
        runner: &R,
    ) -> u32
        requires number { IsJob n }
        requires some { 1 ≤ most }
        requires there { IsSome (job_at self.old.world.table.jobs n) }
        requires core { core_of self.old.world.cores n ≢ [] }
        ensures runs { record { world = self.new.world; time = self.new.time; rounds = result }
            ≡ runs_on self.old.world self.old.time self.old.quantum n result ticking (job_at self.old.world.table.jobs n) }
        ensures others { self.new ≡ record self.old { world = self.new.world; time = self.new.time } }
        ensures least { 1 ≤ result }
        ensures most { result ≤ most }
        ensures none_over { (j : JobRecord) → job_at self.old.world.table.jobs n ≡ Some j
            → NoneOver (R.ends runner.now) j.regs (core_of self.old.world.cores n) result }
    {
        if IN_PLACE && most == 1 {
            self.run_once(n);
            return 1;
        }
        let world = &mut self.world;
        let Some(job) = &mut world.table.jobs[n as usize] else {
            return 1;
        };
        job.wait = Wait::None;
        let (rounds, call, _) = run_turn(n, job, &mut world.locks, &mut world.cores, most, runner);
        pass_ticks(
            ticking,
            rounds,
            self.quantum,
            &mut world.table,
            &mut self.time,
        );
        if let Some(call) = call {
            world.perform(n, call, self.time);
        }
        rounds
    }

    /// Performs the call that a job made in its turn, and tells what that asks and what it is answered. `next` is
    /// the job's PC behind the instruction.
    #[inline(never)]
    fn tell_made(
        world: &mut World<L, C>,
        n: u8,
        next: Address,
        made: MonitorCall,
        time: TimeOfDay,
        room: &mut BlockRoom,
    ) -> Told
        requires number { IsJob n }
        requires there { IsSome (job_at world.old.table.jobs n) }
        requires core { core_of world.old.cores n ≢ [] }
        ensures world { world.new ≡ called world.old time n (Some made) }
        ensures told { result ≡ told_of_call world.old n next (Some made) }
        ensures read { room.new ≡ block_before world.old n (Some made) }
    {
        // The prover takes the call apart, so that it may be handed over three times.
        let MonitorCall { kind, ac, e } = made;
        let asked = world.asked(n, MonitorCall { kind, ac, e }, room);
        let end = world.perform(n, MonitorCall { kind, ac, e }, time);
        Told {
            job: n,
            next,
            call: Some(MonitorCall { kind, ac, e }),
            asked,
            reply: end.reply,
        }
    }

    /// Performs the call of a turn, if there is one, and tells what the turn makes known; and copies the requests
    /// that are not granted before the call, where it may grant some.
    #[inline(always)]
    fn tell_call(
        alloc: Global,
        world: &mut World<L, C>,
        n: u8,
        next: Address,
        call: Option<MonitorCall>,
        time: TimeOfDay,
        room: &mut BlockRoom,
    ) -> (Told, Result<Vec<Request>, AllocError>)
        requires number { IsJob n }
        requires there { IsSome (job_at world.old.table.jobs n) }
        requires core { core_of world.old.cores n ≢ [] }
        ensures world { world.new ≡ called world.old time n call }
        ensures told { result.0 ≡ told_of_call world.old n next call }
        ensures read { room.new ≡ block_before world.old n call }
        ensures before { IfOk result.1 (λ v. v.items ≡ requests_before world.old call) }
    {
        let before = ungranted_if(alloc, grants_by(&call), world);
        let told = match call {
            Some(made) => Self::tell_made(world, n, next, made, time, room),
            None => {
                room.clear();
                Told {
                    job: n,
                    next,
                    call: None,
                    asked: None,
                    reply: None,
                }
            }
        };
        (told, before)
    }

    /// Runs a job for 1 to `most` rounds as `run_job` does, and tells what the last of them makes known, and the PC
    /// before it.
    #[inline(always)]
    fn tell_job(
        &mut self,
        alloc: Global,
        n: u8,
        most: u32,
        ticking: bool,
        room: &mut BlockRoom,
    ) -> (u32, Option<Told>, Result<Vec<Request>, AllocError>, Address)
        requires number { IsJob n }
        requires some { 1 ≤ most }
        requires there { IsSome (job_at self.old.world.table.jobs n) }
        requires core { core_of self.old.world.cores n ≢ [] }
        ensures runs { record { world = self.new.world; time = self.new.time; rounds = result.0 }
            ≡ runs_on self.old.world self.old.time self.old.quantum n result.0 ticking (job_at self.old.world.table.jobs n) }
        ensures others { self.new ≡ record self.old { world = self.new.world; time = self.new.time } }
        ensures least { 1 ≤ result.0 }
        ensures most { result.0 ≤ most }
        ensures told { result.1 ≡ told_on self.old.world self.old.quantum n result.0 ticking (job_at self.old.world.table.jobs n) }
        ensures before { IfOk result.2 (λ v. v.items
            ≡ before_on self.old.world self.old.quantum n result.0 ticking (job_at self.old.world.table.jobs n)) }
        ensures read { room.new ≡ read_on self.old.world self.old.quantum n result.0 ticking (job_at self.old.world.table.jobs n) }
    {
        let world = &mut self.world;
        let Some(job) = &mut world.table.jobs[n as usize] else {
            room.clear();
            return (1, None, Ok(Vec::new(alloc)), Address::new(0));
        };
        job.wait = Wait::None;
        let runner = UpTo { addresses: &[] };
        let (rounds, call, at) = run_turn::<L, C, UpTo<'_>>(
            n,
            job,
            &mut world.locks,
            &mut world.cores,
            most,
            &runner,
        );
        let next = job.regs.pc;
        pass_ticks(
            ticking,
            rounds,
            self.quantum,
            &mut world.table,
            &mut self.time,
        );
        let (told, before) = Self::tell_call(alloc, world, n, next, call, self.time, room);
        (rounds, Some(told), before, at)
    }

    /// Lets the job that is next take its turn, as `step` does, and tells what that makes known; nothing where
    /// no job is ready.
    #[inline(never)]
    pub fn step_told(
        &mut self,
        alloc: Global,
        room: &mut BlockRoom,
    ) -> (Option<Told>, Result<Vec<Request>, AllocError>)
        requires { Safe self.old }
        ensures state { self.new ≡ (happens self.old Step).state }
        ensures told { result.0 ≡ told_in self.old }
        ensures before { IfOk result.1 (λ v. v.items ≡ before_in self.old) }
        ensures read { room.new ≡ read_in self.old }
    {
        let world = &mut self.world;
        let Some(n) = world.table.next(&world.lines, &world.locks) else {
            room.clear();
            return (None, Ok(Vec::new(alloc)));
        };
        world.table.choose(n, self.quantum);
        let ran = self.tell_job(alloc, n, 1, false, room);
        let (_, told, before, _) = ran;
        (told, before)
    }

    /// Runs the job that is next for 1 to `most` rounds, as `run_next` does, and tells what the last of them
    /// makes known, and the PC before it. The tick of the last round is left to the caller.
    #[inline(never)]
    pub fn rounds_told(
        &mut self,
        alloc: Global,
        most: u32,
        room: &mut BlockRoom,
    ) -> (u32, Option<Told>, Result<Vec<Request>, AllocError>, Address)
        requires safe { Safe self.old }
        requires some { 1 ≤ most }
        ensures least { 1 ≤ result.0 }
        ensures most { result.0 ≤ most }
        ensures quiet { (k : ℕ) → k + 1 < result.0 → IsQuiet (after (rounds k true) self.old) }
        ensures state { self.new ≡ (happens (after (rounds (result.0 - 1) true) self.old) Step).state }
        ensures told { result.1 ≡ told_in (after (rounds (result.0 - 1) true) self.old) }
        ensures before { IfOk result.2 (λ v. v.items ≡ before_in (after (rounds (result.0 - 1) true) self.old)) }
        ensures read { room.new ≡ read_in (after (rounds (result.0 - 1) true) self.old) }
    {
        let world = &mut self.world;
        let Some(n) = world.table.next(&world.lines, &world.locks) else {
            room.clear();
            return (1, None, Ok(Vec::new(alloc)), Address::new(0));
        };
        let alone = world.table.is_alone(n);
        world.table.choose(n, self.quantum);
        let span = world.table.span(n, most, true, alone);
        let ran = self.tell_job(alloc, n, span, true, room);
        ran
    }

    /// Makes `most` rounds, each a step with a tick after it where `TICKING`. Returns in how many a job ran.
    /// The loop with ticks inlines a round of one instruction: a program can afford this in one loop.
    #[inline(always)]
    pub fn run_rounds<const TICKING: bool>(&mut self, most: u32) -> u32
        requires { Safe self.old }
        ensures state { self.new ≡ after (rounds most TICKING) self.old }
        ensures count { result ≡ runs_in (answers (rounds most TICKING) self.old) }
    {
        let mut idle = 0;
        let mut left = most;
        while left > 0 {
            let some = self.run_next::<Loop<false>, TICKING>(left, TICKING, &Loop);
            some.count_idle(&mut idle);
            left -= some.made;
            self.tick_if(TICKING);
        }
        most - idle
    }

    /// Makes 1 to `most` rounds at once, each a step and a tick: those of the job that is next, as long as
    /// nothing comes between them, up to the first that leaves its PC at one of `addresses`.
    #[inline(never)]
    pub fn rounds_to(&mut self, most: u32, addresses: &[Address]) -> Rounds
        requires safe { Safe self.old }
        requires some { 1 ≤ most }
        ensures state { self.new ≡ after (rounds result.made true) self.old }
        ensures next { next_in self.old ≡ result.job }
        ensures least { 1 ≤ result.made }
        ensures most { result.made ≤ most }
        ensures between { (k : ℕ) → 1 ≤ k → k < result.made
            → Between self.old (after (rounds k true) self.old) result.job (is_among addresses.now) }
    {
        let runner = UpTo { addresses };
        let made = self.run_next::<UpTo<'_>, false>(most, true, &runner);
        self.tick();
        made
    }

    /// Makes a tick, where `ticking`.
    #[inline(always)]
    fn tick_if(&mut self, ticking: bool)
        ensures { self.new ≡ ticked_if ticking self.old }
    {
        if ticking {
            self.tick();
        }
    }

    /// Makes a tick. It looks at the jobs only where one sleeps or waits with a limit.
    #[inline(always)]
    pub fn tick(&mut self)
        ensures { self.new ≡ (ticked self.old).state }
    {
        self.time.advance();
        let ended = self.world.table.pass_tick(&self.world.locks);
        if ended != 0 {
            self.world.locks.withdraw_all(ended);
        }
    }

    /// Makes a tick, as `tick` does, and tells the set of the jobs whose limits end; and copies the requests that
    /// are not granted before these leave, where there are some.
    #[inline(never)]
    pub fn tick_told(&mut self, alloc: Global) -> (u64, Result<Vec<Request>, AllocError>)
        ensures state { self.new ≡ (ticked self.old).state }
        ensures ended { (n : ℕ) → is_in_set result.0 n ≡ expires self.old.world.requests (ticked_table self.old.world.table).jobs n }
        ensures before { result.0 ≢ 0 → IfOk result.1 (λ v. v.items ≡ ungranted self.old.world.requests) }
    {
        self.time.advance();
        let ended = self.world.table.pass_tick(&self.world.locks);
        if ended == 0 {
            return (0, Ok(Vec::new(alloc)));
        }
        let before = ungranted_in(alloc, &self.world.locks);
        self.world.locks.withdraw_all(ended);
        (ended, before)
    }

    /// Kills a job: its requests leave, and its core and its line are free.
    #[inline(never)]
    pub fn kill(&mut self, n: u8) -> Answer
        requires { Safe self.old }
        ensures state { self.new ≡ (killed self.old n (job_at self.old.world.table.jobs n)).state }
        ensures answer { result ≡ (killed self.old n (job_at self.old.world.table.jobs n)).answer }
    {
        if self.world.table.job(n).is_none() {
            return Answer::Refused(RefusedEvent::NoSuchJob);
        }
        self.world.remove_job(n);
        Answer::Done
    }

    /// Starts a stopped job; its blocking request that is not granted leaves.
    #[inline(never)]
    pub fn start(&mut self, n: u8) -> Answer
        requires { Safe self.old }
        ensures state { self.new ≡ (started self.old n).state }
        ensures answer { result ≡ (started self.old n).answer }
    {
        match self.world.table.start(n) {
            Ok(()) => {
                self.world.locks.withdraw(n);
                Answer::Done
            }
            Err(error) => Answer::Refused(refusal_of(error)),
        }
    }

    /// Lets a stopped job go on where it stands.
    #[inline(never)]
    pub fn go_on(&mut self, n: u8) -> Answer
        requires { Safe self.old }
        ensures state { self.new ≡ (continued self.old n).state }
        ensures answer { result ≡ (continued self.old n).answer }
    {
        match self.world.table.go_on(n) {
            Ok(()) => Answer::Done,
            Err(error) => Answer::Refused(refusal_of(error)),
        }
    }

    /// Takes away all jobs, requests and characters.
    #[inline(never)]
    pub fn restart(&mut self) -> Answer
        requires { Safe self.old }
        ensures state { self.new ≡ (restarted self.old).state }
        ensures answer { result ≡ (restarted self.old).answer }
    {
        self.world.table = JobTable::new();
        self.world.lines.clear();
        self.world.locks.clear();
        free_all(&mut self.world.cores, self.blocks);
        Answer::Done
    }

    /// Types a character at a line; CTRL-C stops the line's job.
    #[inline(always)]
    pub fn typed(&mut self, line: u8, c: Char7) -> Answer
        requires { Safe self.old }
        ensures state { self.new ≡ (typed self.old line c).state }
        ensures answer { result ≡ (typed self.old line c).answer }
    {
        let Some(at) = LineNumber::try_new(line) else {
            return Answer::Refused(RefusedEvent::NoLine);
        };
        if c.number() == INTERRUPT_CHARACTER {
            self.world.table.break_at(at);
            return Answer::Done;
        }
        match self.world.lines.typed(line, c) {
            Ok(()) => Answer::Done,
            Err(_) => Answer::Refused(RefusedEvent::Full),
        }
    }

    /// Takes at most `n` characters from the front of a line's output.
    #[inline(never)]
    pub fn take(&mut self, line: u8, n: usize) -> Answer
        requires { Safe self.old }
        ensures state { self.new ≡ (taken self.old line n).state }
        ensures answer { result ≡ (taken self.old line n).answer }
    {
        match self.world.lines.taken(line, n) {
            Ok(text) => Answer::Text(text),
            Err(_) => Answer::Refused(RefusedEvent::NoLine),
        }
    }

    /// Begins a job, with a number that no job has, and an image whose highest address is `top`.
    fn admit(&mut self, n: u8, line: LineNumber, image: &Image, top: u32) -> Answer
        requires number { IsJob n }
        requires bare { core_of self.old.world.cores n ≡ [] }
        requires top { top < 2 ^ 18 }
        requires start { image.now.start < 2 ^ 18 }
        ensures state { self.new ≡ (admitted self.old line image.now.words.items image.now.start (blocks_for top) (Some n)).state }
        ensures answer { result ≡ (admitted self.old line image.now.words.items image.now.start (blocks_for top) (Some n)).answer }
    {
        let blocks = top / BLOCK_WORDS as u32 + 1;
        let start = Address::new(image.start);
        match load_job(
            n,
            &mut self.world.cores,
            image.words.as_slice(),
            start,
            blocks,
        ) {
            Ok(regs) => {
                self.world
                    .table
                    .put(n, Job::new(line, regs, start, first_quota(L::REQS)));
                Answer::JobNumber(n)
            }
            Err(_) => Answer::Refused(RefusedEvent::NoCore),
        }
    }

    /// Begins a job at a line with an image.
    #[inline(never)]
    pub fn login(&mut self, line: u8, image: &Image) -> Answer
        requires { Safe self.old }
        ensures state { self.new ≡ (logged_in self.old line image.now.words.items image.now.start).state }
        ensures answer { result ≡ (logged_in self.old line image.now.words.items image.now.start).answer }
    {
        let Some(at) = LineNumber::try_new(line) else {
            return Answer::Refused(RefusedEvent::NoLine);
        };
        if self.world.table.is_busy(at) {
            return Answer::Refused(RefusedEvent::LineBusy);
        }
        let Some(top) = image_top(image) else {
            return Answer::Refused(RefusedEvent::BadImage);
        };
        let Some(n) = self.world.table.free_number() else {
            return Answer::Refused(RefusedEvent::NoJobNumber);
        };
        self.admit(n, at, image, top)
    }

    /// Makes one event happen.
    #[inline(never)]
    pub fn event(&mut self, event: &Event) -> Answer
        requires { Safe self.old }
        ensures state { self.new ≡ (happens self.old event.now).state }
        ensures answer { result ≡ (happens self.old event.now).answer }
    {
        match *event {
            Event::Step => match self.step() {
                Some(n) => Answer::Ran(n),
                None => Answer::Idle,
            },
            Event::Tick => {
                self.tick();
                Answer::Done
            }
            Event::Typed(line, c) => self.typed(line, c),
            Event::Take(line, n) => self.take(line, n),
            Event::Login(line, image) => self.login(line, image),
            Event::Start(n) => self.start(n),
            Event::Continue(n) => self.go_on(n),
            Event::Kill(n) => self.kill(n),
            Event::Restart => self.restart(),
        }
    }

    /// The wait of a job, where it still holds; none otherwise.
    #[inline(always)]
    fn held_wait(&self, n: u8, job: &Job) -> Wait
        ensures { result ≡ held_wait self.now.world.lines self.now.world.requests n job.now }
    {
        let world = &self.world;
        let holds = match job.wait {
            Wait::None => false,
            Wait::Sleep(ticks) => ticks > 0,
            Wait::Char => !world.lines.has_char(job.line),
            Wait::Line => !world.lines.has_line(job.line),
            Wait::Room(places) => world.lines.room(job.line) < places as usize,
            Wait::Queue(..) => world.locks.is_waiting(n),
        };
        if holds { job.wait } else { Wait::None }
    }

    /// What there is to see of a job, if it is there.
    #[inline(always)]
    pub fn job(&self, n: u8) -> Option<JobView>
        requires { Safe self.now }
        ensures { result ≡ job_view self.now.world n }
    {
        let job = self.world.table.job(n)?;
        Some(JobView {
            line: job.line,
            blocks: self.world.cores.blocks(n),
            pc: job.regs.pc,
            flags: job.regs.flags,
            stop: job.stop,
            wait: self.held_wait(n, job),
        })
    }

    /// The word at an address of a job, if the job has that address.
    pub fn peek(&self, n: u8, a: u32) -> Option<Word>
        requires { Safe self.now }
        ensures { result ≡ word_in self.now.world n a }
    {
        let job = self.world.table.job(n)?;
        if (a as usize) < job.regs.ac.len() {
            Some(job.regs.ac[a as usize])
        } else {
            self.world.cores.read(n, a)
        }
    }

    /// What a job asks of the lock queue by its next instruction, if that is a lock call; the block that it reads is
    /// left in `room`.
    pub fn asked_next(&self, n: u8, room: &mut BlockRoom) -> Option<Asked>
        requires { Safe self.now }
        ensures asked { result ≡ asked_next self.now.world n }
        ensures block { room.new ≡ block_next self.now.world n }
    {
        match self.world.table.job(n) {
            Some(job) => asked_next(n, job, &self.world.cores, room),
            None => {
                room.clear();
                None
            }
        }
    }

    /// The word that is executed where a job executes this one.
    pub fn executed_word(&self, n: u8, word: Word) -> Option<Word>
        requires { Safe self.now }
        ensures { result ≡ executed_in self.now.world n word }
    {
        let job = self.world.table.job(n)?;
        let memory = JobWords::new(&self.world.cores, n);
        executed_word(&job.regs, &memory, word).ok()
    }

    /// The effective address of a word of a job.
    pub fn effective_address(&self, n: u8, word: Word) -> Option<Address>
        requires { Safe self.now }
        ensures { result ≡ effective_in self.now.world n word }
    {
        let job = self.world.table.job(n)?;
        let memory = JobWords::new(&self.world.cores, n);
        find_address(&job.regs, &memory, word).ok()
    }

    /// Stores a word at an address of a job, and says whether the job has that address.
    #[inline(never)]
    pub fn deposit(&mut self, n: u8, a: u32, word: Word) -> bool
        requires { Safe self.old }
        ensures state { self.new ≡ deposited self.old n a word }
        ensures found { result ≡ is_some (word_in self.old.world n a) }
    {
        if n > JOBS {
            return false;
        }
        let world = &mut self.world;
        match &mut world.table.jobs[n as usize] {
            Some(job) => put_word(n, job, &mut world.cores, a, word),
            None => false,
        }
    }

    /// Executes a word for a job by hand, and tells how it ends, if the job is there.
    #[inline(never)]
    pub fn execute(&mut self, n: u8, word: Word) -> Option<Outcome>
        requires { Safe self.old }
        ensures state { self.new ≡ executed_by_hand self.old n word }
        ensures end { result ≡ end_by_hand self.old n word }
    {
        if n > JOBS {
            return None;
        }
        let world = &mut self.world;
        match &mut world.table.jobs[n as usize] {
            Some(job) => Some(execute_in(n, job, &mut world.cores, word)),
            None => None,
        }
    }

    /// Starts a stopped job at an address.
    #[inline(never)]
    pub fn start_at(&mut self, n: u8, a: Address) -> Answer
        requires { Safe self.old }
        ensures state { self.new ≡ (started_at self.old n a).state }
        ensures answer { result ≡ (started_at self.old n a).answer }
    {
        let answer = self.start(n);
        if is_done(&answer) {
            set_pc(n, &mut self.world.table, a);
        }
        answer
    }

    /// A word that all jobs share, if there is one of that number.
    pub fn data_word(&self, i: usize) -> Option<Word>
        ensures { result ≡ slice_get self.now.world.shared i }
    {
        self.world.shared.get(i).copied()
    }

    /// The lock table.
    pub fn locks(&self) -> &L
        ensures { L.requests result.now ≡ self.now.world.requests }
    {
        &self.world.locks
    }
}
