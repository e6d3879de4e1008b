//! A machine on which jobs take their turns in any order.
ghost use Rattle.std.specs.Prelude.{◌≡◌, ◌≤◌, ◌+◌, [], IfOk, Some, OnOk, map, replicate, slice_set, true};
ghost use Rattle.word36.specs.declared.sizes.TheConstants.{JOBS};
ghost use Rattle.std.specs.Option.{option_map};
ghost use Rattle.core_store.specs.Cores.{IsJob};
ghost use Rattle.job_sched.specs.Tables.{job_at};
ghost use Rattle.job_order_laws.specs.Erased.{rested, turned_at_once};
ghost use Rattle.job_order_laws.specs.Turned.{IsSound, can_run, turned};
ghost use Rattle.job_order_laws.specs.Turned.{pc_in};
ghost use Rattle.job_moves.specs.Moves.{IsAwake, begun, is_clear_of, is_loud_turn, is_quiet};

use crate::output::run_and_take;
use core_store::CoreStore;
use job_sched::{JOB_SLOTS, Job, JobTable, Wait};
use lock_queue::LockTable;
use next_turns::{has_limit, is_noticed, reads_clock};
use std::alloc::{AllocError, Global};
use std::marker::Model;
use tty_lines::Char7;
use uuo_calls::World;
use word36::Address;

/// A machine at midnight, what each job has put out, which is taken at once, and at which address each took its last turn.
/// Whoever has it chooses which job takes its turn.
#[derive(Drop)]
pub struct Turns<L: LockTable, C: CoreStore> {
    /// What the calls of jobs work on.
    pub world: World<L, C>,
    /// The ticks of a quantum. No turn reads them.
    pub quantum: u8,
    /// How many blocks of core there are.
    pub blocks: u32,
    /// What each job has put out, by its number.
    pub texts: Vec<Vec<Char7>>,
    /// The address of each job's last turn, by its number.
    pub last: [Address; JOB_SLOTS],
}

impl<L: LockTable, C: CoreStore> Model for Turns<L, C> {
    ghost use Rattle.std.specs.Prelude.{◌≡◌, ◌+◌, length, map};
    ghost use Rattle.word36.specs.declared.sizes.TheConstants.{JOBS};
    ghost use Rattle.job_order_laws.specs.Turned.{V};

    ghost Value = { V };

    ghost view = { λ t. record {
      machine = record { world = t.world; time = 0; quantum = t.quantum; blocks = t.blocks };
      texts = map (λ text. text.items) t.texts.items;
      last = t.last;
    } };

    ghost invariant = { λ t. length t.texts.items ≡ JOBS + 1 };
}

/// Ends the sleep of a job, if it sleeps.
fn rest(slot: &mut Option<Job>)
    ensures { slot.new ≡ option_map rested slot.old }
{
    if let Some(job) = slot {
        if let Wait::Sleep(_) = job.wait {
            job.wait = Wait::None;
        }
    }
}

/// The address of a job, 0 if it is not there.
fn pc_in(slot: &Option<Job>) -> Address
    ensures { result ≡ pc_in slot.now }
{
    match slot {
        Some(job) => job.regs.pc,
        None => Address::new(0),
    }
}

/// The address of a job of a world, 0 if it is not there.
fn pc_of<L: LockTable, C: CoreStore>(world: &World<L, C>, n: u8) -> Address
    ensures { result ≡ pc_in (job_at world.now.table.jobs n) }
{
    match world.table.job(n) {
        Some(job) => job.regs.pc,
        None => Address::new(0),
    }
}

/// The addresses of all jobs.
fn pcs_of(jobs: &[Option<Job>; JOB_SLOTS]) -> [Address; JOB_SLOTS]
    ensures { result ≡ map pc_in jobs.now }
{
    let mut pcs = [Address::new(0); JOB_SLOTS];
    for n in 0..JOB_SLOTS {
        pcs[n] = pc_in(&jobs[n]);
    }
    pcs
}

/// Ends the sleep of each job.
fn rest_all(jobs: &mut [Option<Job>])
    ensures { jobs.new ≡ map (option_map rested) jobs.old }
{
    for slot in jobs.iter_mut() {
        rest(slot);
    }
}

/// Ends the sleep of each job of a table, and forgets which job is current.
fn rest_table(table: &mut JobTable)
    ensures { table.new ≡ record { jobs = map (option_map rested) table.old.jobs; current = 0; left = 0 } }
{
    rest_all(&mut table.jobs);
    table.current = 0;
    table.left = 0;
}

/// Ends the sleep of one job of a table, and forgets which job is current.
fn rest_job(table: &mut JobTable, n: u8)
    requires { n ≤ JOBS }
    ensures { table.new ≡ record { jobs = slice_set table.old.jobs n (option_map rested (job_at table.old.jobs n)); current = 0; left = 0 } }
{
    rest(&mut table.jobs[n as usize]);
    table.current = 0;
    table.left = 0;
}

/// Empty texts, one for each number.
fn no_texts(alloc: Global) -> Result<Vec<Vec<Char7>>, AllocError>
    ensures { IfOk result (λ texts. map (λ text. text.items) texts.items ≡ replicate (JOBS + 1) []) }
{
    let mut texts = Vec::with_capacity(alloc, JOB_SLOTS)?;
    for _ in 0..JOB_SLOTS {
        texts.push(Vec::new(alloc))?;
    }
    Ok(texts)
}

impl<L: LockTable, C: CoreStore> Turns<L, C> {
    /// A machine of `blocks` blocks on which nobody has taken a turn yet, and on which no job sleeps.
    pub fn new(
        alloc: Global,
        world: World<L, C>,
        quantum: u8,
        blocks: u32,
    ) -> Result<Self, AllocError>
        ensures begun { IfOk result (λ t. t ≡ begun (record { world = world; time = 0; quantum = quantum; blocks = blocks })) }
    {
        let texts = no_texts(alloc)?;
        let last = pcs_of(&world.table.jobs);
        let mut world = world;
        rest_table(&mut world.table);
        Ok(Turns {
            world,
            quantum,
            blocks,
            texts,
            last,
        })
    }

    /// Whether a job can take its turn.
    pub fn can_run(&self, n: u8) -> bool
        ensures { result ≡ can_run self.now.machine.world n }
    {
        self.world
            .table
            .ready(n, &self.world.lines, &self.world.locks)
    }

    /// Whether others can notice the next turn of a job, or it reads the time of day.
    pub fn is_loud_turn(&self, n: u8) -> bool
        requires { IsJob n }
        ensures { result ≡ is_loud_turn self.now n }
    {
        is_noticed(&self.world, n) || reads_clock(&self.world, n)
    }

    /// Whether a job can take a turn that nobody can notice, and that does not read the time of day.
    pub fn is_quiet(&self, n: u8) -> bool
        requires { IsJob n }
        ensures { result ≡ is_quiet self.now n }
    {
        self.can_run(n) && !self.is_loud_turn(n)
    }

    /// Whether no limit counts for a job, and its next turn, if it can take one, is noticed and does not read the time of
    /// day.
    pub fn is_clear_of(&self, n: u8) -> bool
        requires { IsJob n }
        ensures { result ≡ is_clear_of self.now n }
    {
        !has_limit(&self.world, n)
            && (!self.can_run(n) || is_noticed(&self.world, n) && !reads_clock(&self.world, n))
    }

    /// Lets a job that can run take its turn, and takes its output.
    pub fn take_turn(&mut self, n: u8) -> Result<(), AllocError>
        requires sound { IsSound self.old }
        requires ready { can_run self.old.machine.world n ≡ true }
        ensures { OnOk result (turned self.old n ≡ Some self.new) }
    {
        let pc = pc_of(&self.world, n);
        run_and_take(&mut self.world, n, &mut self.texts[n as usize])?;
        self.last[n as usize] = pc;
        Ok(())
    }

    /// Lets a job that can run take its turn, and ends its sleep, if it sleeps then.
    pub fn take_turn_at_once(&mut self, n: u8) -> Result<(), AllocError>
        requires awake { IsAwake self.old }
        requires ready { can_run self.old.machine.world n ≡ true }
        ensures turned { OnOk result (turned_at_once self.old n ≡ Some self.new) }
        ensures awake { OnOk result (IsAwake self.new) }
    {
        self.take_turn(n)?;
        rest_job(&mut self.world.table, n);
        Ok(())
    }
}
