//! All that can come of small programs, found turn by turn: each job that can take a turn takes it in each state, whether others can
//! notice it or not, and each state is made anew from the boot.
ghost use Rattle.std.specs.Prelude.{◌≤◌};
ghost use Rattle.core_store.specs.Cores.{IsJob};
ghost use Rattle.word36.specs.declared.sizes.TheConstants.{JOBS};

use crate::begun::{begun, machine_of};
use core_store::CoreStore;
use job_orders::{End, Machine, Standing};
use job_sched::{Job, Stop, Wait};
use lock_queue::Request;
use std::alloc::{AllocError, Global};
use tty_lines::Char7;
use wait_graph::{is_in_circle, pair_table, requests_in, waiting_jobs};
use word36::{Address, Image, JOBS, Word};

/// The blocks of the machine: one for each job, and one more.
pub(crate) const BLOCKS: u32 = 4;

/// The most states of the programs of a test.
const MOST_STATES: u32 = 20_000;

/// All of an end that is compared.
#[derive(Drop)]
pub(crate) struct Told {
    /// How jobs 1, 2 and so on have ended.
    standings: Vec<Standing>,
    /// For each job the address of its last turn and what it put out; and the shared words.
    numbers: Vec<u64>,
}

/// All that can come of programs.
#[derive(Drop)]
pub(crate) struct Found {
    /// The ends, no two of which are the same.
    pub(crate) ends: Vec<Told>,
    /// Whether jobs can wait in a circle.
    pub(crate) has_circle: bool,
    /// How many states there are.
    pub(crate) states: usize,
}

impl Told {
    /// Nothing yet.
    fn new(alloc: Global) -> Self {
        Told {
            standings: Vec::new(alloc),
            numbers: Vec::new(alloc),
        }
    }

    /// Adds a job.
    fn add_job(
        &mut self,
        standing: Standing,
        last: Address,
        text: &[Char7],
    ) -> Result<(), AllocError> {
        self.standings.push(standing)?;
        self.numbers.push(u64::from(last.number()))?;
        self.numbers.push(text.len() as u64)?;
        for character in text {
            self.numbers.push(u64::from(character.number()))?;
        }
        Ok(())
    }

    /// Adds shared words.
    fn add_words(&mut self, words: &[Word]) -> Result<(), AllocError> {
        for word in words {
            self.numbers.push(word.number())?;
        }
        Ok(())
    }

    /// Whether another end is the same.
    pub(crate) fn is_same(&self, other: &Told) -> bool {
        self.standings.as_slice() == other.standings.as_slice()
            && self.numbers.as_slice() == other.numbers.as_slice()
    }
}

/// Whether an end is among these.
pub(crate) fn is_among(told: &Told, ends: &[Told]) -> bool {
    for end in ends {
        if end.is_same(told) {
            return true;
        }
    }
    false
}

/// All of an end of a report that is compared.
pub(crate) fn told_of(alloc: Global, end: &End) -> Result<Told, AllocError> {
    let mut told = Told::new(alloc);
    for left in end.jobs.as_slice() {
        told.add_job(left.standing, left.last, left.text.as_slice())?;
    }
    told.add_words(end.shared.as_slice())?;
    Ok(told)
}

/// How a job has ended that can take no turn.
fn standing_of(job: Option<&Job>) -> Standing {
    match job {
        None => Standing::Gone,
        Some(job) => match job.stop {
            Some(stop) => Standing::Stopped(stop),
            None => Standing::Waits(job.wait),
        },
    }
}

/// How each job is left at an end, the words that all share, and the texts that were put out.
fn told_at(alloc: Global, machine: &Machine, count: u8) -> Result<Told, AllocError>
    requires { count ≤ JOBS }
{
    let mut told = Told::new(alloc);
    for k in 0..count {
        let n = usize::from(k) + 1;
        told.add_job(
            standing_of(machine.world.table.job(k + 1)),
            machine.last[n],
            machine.texts[n].as_slice(),
        )?;
    }
    told.add_words(machine.world.shared.as_slice())?;
    Ok(told)
}

/// A sum over numbers, of which two that differ have two sums as good as always.
#[derive(Drop)]
struct Sum {
    value: u64,
}

impl Sum {
    /// Adds a number.
    fn add(&mut self, number: u64) {
        let mixed = (self.value ^ number).wrapping_mul(0x9E37_79B9_7F4A_7C15);
        self.value = mixed ^ (mixed >> 29);
    }

    /// Adds whether something holds.
    fn add_flag(&mut self, holds: bool) {
        self.add(if holds { 1 } else { 0 });
    }

    /// Adds words.
    fn add_words(&mut self, words: &[Word]) {
        for word in words {
            self.add(word.number());
        }
    }

    /// Adds why a job is stopped, if it is.
    fn add_stop(&mut self, stop: Option<Stop>) {
        match stop {
            None => self.add(99),
            Some(stop) => self.add(u64::from(stop.code())),
        }
    }

    /// Adds what a job waits for.
    fn add_wait(&mut self, wait: Wait) {
        let (kind, number) = match wait {
            Wait::None => (0, 0),
            Wait::Sleep(ticks) => (1, u64::from(ticks)),
            Wait::Char => (2, 0),
            Wait::Line => (3, 0),
            Wait::Room(places) => (4, u64::from(places)),
            Wait::Queue(_, ac) => (5, u64::from(ac)),
        };
        self.add(kind);
        self.add(number);
    }

    /// Adds a job.
    fn add_job(&mut self, job: &Job) {
        self.add(u64::from(job.regs.pc.number()));
        self.add_words(job.regs.ac.as_slice());
        self.add_flag(job.regs.flags.overflow);
        self.add_flag(job.regs.flags.carry0);
        self.add_flag(job.regs.flags.carry1);
        self.add_stop(job.stop);
        self.add_wait(job.wait);
        self.add_flag(job.interrupts.vector.is_some());
        self.add_flag(job.interrupts.on);
        self.add_flag(job.interrupts.in_progress);
    }

    /// Adds requests.
    fn add_requests(&mut self, requests: &[Request]) {
        for r in requests {
            self.add(u64::from(r.job));
            self.add(u64::from(r.id.number()));
            self.add_flag(r.notified);
        }
    }

    /// Adds job n and its core.
    fn add_job_of(&mut self, machine: &Machine, n: u8)
        requires { IsJob n }
    {
        match machine.world.table.job(n) {
            Some(job) => self.add_job(job),
            None => self.add(77),
        }
        for a in 0o140..0o260 {
            match machine.world.cores.read(n, a) {
                Some(word) => self.add(word.number()),
                None => self.add(1 << 40),
            }
        }
    }
}

/// The sum of all that is in a state.
fn sum_of(alloc: Global, machine: &Machine, count: u8) -> Result<u64, AllocError>
    requires { count ≤ JOBS }
{
    let mut sum = Sum { value: 0 };
    for k in 0..count {
        sum.add_job_of(machine, k + 1);
    }
    let requests = requests_in(alloc, &machine.world.locks)?;
    sum.add_requests(requests.as_slice());
    let told = told_at(alloc, machine, count)?;
    for number in told.numbers.as_slice() {
        sum.add(*number);
    }
    Ok(sum.value)
}

/// Whether jobs wait in a circle.
fn is_circle(machine: &Machine, count: u8) -> bool
    requires { count ≤ JOBS }
{
    let waiting = waiting_jobs(&machine.world.locks);
    let pairs = pair_table(&machine.world.locks, &waiting);
    for k in 0..count {
        if is_in_circle(&pairs, &waiting, k as usize + 1) {
            return true;
        }
    }
    false
}

/// Whether a job can take a turn.
fn can_go_on(machine: &Machine, count: u8) -> bool
    requires { count ≤ JOBS }
{
    for k in 0..count {
        if machine.can_run(k + 1) {
            return true;
        }
    }
    false
}

/// The machine after these turns from the boot; `None` if one of them cannot be taken.
fn after(alloc: Global, images: &[Image], turns: &[u8]) -> Result<Option<Machine>, AllocError> {
    let system = begun(alloc, BLOCKS, images)?;
    let mut machine = machine_of(alloc, system, BLOCKS)?;
    for n in turns {
        if !machine.can_run(*n) {
            return Ok(None);
        }
        machine.take_turn_at_once(*n)?;
    }
    Ok(Some(machine))
}

impl Found {
    /// Takes a state down that was not seen yet: whether there is a circle in it, and whether it is a new end.
    fn take(&mut self, alloc: Global, machine: &Machine, count: u8) -> Result<(), AllocError>
        requires { count ≤ JOBS }
    {
        self.states = self.states.saturating_add(1);
        self.has_circle = self.has_circle || is_circle(machine, count);
        if can_go_on(machine, count) {
            return Ok(());
        }
        let told = told_at(alloc, machine, count)?;
        if !is_among(&told, self.ends.as_slice()) {
            self.ends.push(told)?;
        }
        Ok(())
    }
}

/// Adds these turns with one more, for each job that can take it.
fn push_next(
    alloc: Global,
    machine: &Machine,
    count: u8,
    turns: &[u8],
    left: &mut Vec<Vec<u8>>,
) -> Result<(), AllocError>
    requires { count ≤ JOBS }
{
    for k in 0..count {
        if machine.can_run(k + 1) {
            let mut more = turns.to_vec(alloc)?;
            more.push(k + 1)?;
            left.push(more)?;
        }
    }
    Ok(())
}

/// How many jobs some programs have, at most as many as there can be.
fn count_of(images: &[Image]) -> u8
    ensures { result ≤ JOBS }
{
    images.len().min(usize::from(JOBS)) as u8
}

/// All that can come of programs; `None` if they have too many states.
pub(crate) fn found_by_turns(alloc: Global, images: &[Image]) -> Result<Option<Found>, AllocError> {
    let count = count_of(images);
    let mut found = Found {
        ends: Vec::new(alloc),
        has_circle: false,
        states: 0,
    };
    let mut seen: Vec<u64> = Vec::new(alloc);
    let mut left: Vec<Vec<u8>> = Vec::new(alloc);
    left.push(Vec::new(alloc))?;
    for _ in 0..MOST_STATES {
        let Some(turns) = left.pop() else {
            return Ok(Some(found));
        };
        let Some(machine) = after(alloc, images, turns.as_slice())? else {
            continue;
        };
        let sum = sum_of(alloc, &machine, count)?;
        if !seen.as_slice().contains(&sum) {
            seen.push(sum)?;
            found.take(alloc, &machine, count)?;
            push_next(alloc, &machine, count, turns.as_slice(), &mut left)?;
        }
    }
    Ok(None)
}
