//! Orders, followed on a machine: the steps, the ticks and the calls that make them.
ghost use Rattle.std.specs.Prelude.{◌≡◌, ◌≤◌, ◌<◌, ◌+◌, IfOk, IsSome, OnOk, Some, length, true};
ghost use Rattle.core_store.specs.Cores.{IsJob};
ghost use Rattle.word36.specs.declared.sizes.TheConstants.{JOBS};
ghost use Rattle.job_order_laws.specs.Erased.{turned_at_once};
ghost use Rattle.job_order_laws.specs.Turned.{V, can_run};
ghost use Rattle.job_moves.specs.Moves.{IsAwake, alone, next, settled};
ghost use Rattle.job_orders.specs.Reports.{IsOrder};
ghost use Rattle.orders_program.specs.Begun.{start_of};
ghost use Rattle.orders_program.specs.Followed.{GoesTo, HasOrder, IsFollowing};

use crate::calls::{Noticed, NoticedText, call_next, noticed_in, word_in};
use crate::loading::{CTRL_C, LoadError, QUANTUM, Work, beginning, begun, count_jobs};
use crate::spots::spot_in;
use job_orders::Machine;
use job_sched::{JOB_SLOTS, Job, TICKS_A_SECOND, Wait};
use job_turns::Turns;
use ka_state::Accumulator;
use order_report::{JobSteps, OrderPart};
use run_record::{EventSequence, RunEvent};
use source_labels::Program;
use std::alloc::{AllocError, Global};
use tty_lines::Char7;
use uuo_calls::Service;
use word36::Address;

/// A turn that a job took.
#[derive(Drop)]
pub struct Turn {
    /// The ticks for which the job sleeps from then on.
    sleep: u32,
    /// Whether it put something out.
    puts_out: bool,
    /// What others can notice of it, in words.
    noticed: Option<String>,
}

/// The turns that a job took, and that no part of the order has yet: no other job can notice when.
#[derive(Drop)]
pub struct Ahead {
    /// The turns.
    turns: Vec<Turn>,
    /// The tick at which it wakes, once they are taken.
    wakes: u64,
}

/// An order that is followed. A job's turns that nobody can notice are put off until the job's next turn that others can.
#[derive(Drop)]
pub struct Following<'a> {
    alloc: Global,
    /// The programs, in the order of their jobs.
    programs: &'a [Program<'a>],
    /// The machine.
    pub machine: Machine,
    /// How many jobs there are.
    count: u8,
    /// How many turns a job may take that nobody can notice.
    most: u32,
    /// By the jobs' numbers.
    ahead: Vec<Ahead>,
    /// How many ticks went by between steps.
    ticks: u64,
    /// The parts of the order.
    pub parts: Vec<OrderPart>,
    /// How many calls and interrupts others could notice.
    pub calls: u64,
    /// What happens in it, as a script says it.
    pub events: EventSequence,
}

/// The ticks for which a job sleeps that makes this call.
fn sleep_of(machine: &Machine, n: u8) -> u32
    requires { IsJob n }
{
    match (call_next(machine, n), machine.world.table.job(n)) {
        (Some((Service::Sleep, ac)), Some(job)) => {
            let seconds = word_in(job, ac.number()).right();
            seconds.saturating_mul(TICKS_A_SECOND).max(1)
        }
        _ => 0,
    }
}

/// Counts a step more in the last part, with what others can notice of it.
fn count_step(parts: &mut Vec<OrderPart>, noticed: Option<String>) -> Result<(), AllocError> {
    if let Some(OrderPart::Steps(steps)) = parts.as_mut_slice().last_mut() {
        steps.steps = steps.steps.saturating_add(1);
        if let Some(noticed) = noticed {
            steps.calls.push(noticed)?;
        }
    }
    Ok(())
}

/// A place for the turns of each job.
fn no_turns(alloc: Global) -> Result<Vec<Ahead>, AllocError>
    ensures { IfOk result (λ ahead. length ahead.items ≡ JOBS + 1) }
{
    let mut ahead = Vec::with_capacity(alloc, JOB_SLOTS)?;
    for _ in 0..JOB_SLOTS {
        let turns = Vec::new(alloc);
        ahead.push(Ahead { turns, wakes: 0 })?;
    }
    Ok(ahead)
}

impl<'a> Following<'a> {
    /// An order of which nothing was followed yet, on a machine with `count` jobs.
    pub fn new(
        alloc: Global,
        machine: Machine,
        count: u8,
        work: &Work<'a>,
        most: u32,
        events: EventSequence,
    ) -> Result<Self, AllocError>
        requires awake { IsAwake machine }
        requires few { count ≤ JOBS }
        ensures begun { IfOk result IsFollowing }
        ensures machine { IfOk result (λ f. f.machine ≡ machine) }
        ensures count { IfOk result (λ f. f.count ≡ count) }
        ensures most { IfOk result (λ f. f.most ≡ most) }
    {
        Ok(Following {
            alloc,
            programs: work.programs,
            machine,
            count,
            most,
            ahead: no_turns(alloc)?,
            ticks: 0,
            parts: Vec::new(alloc),
            calls: 0,
            events,
        })
    }

    /// The address at which a job goes on; of its last turn if it waits.
    pub fn place_of(&self, n: u8) -> Address {
        match self.machine.world.table.job(n) {
            Some(job) if job.wait == Wait::None => job.regs.pc,
            _ => match self.machine.last.get(usize::from(n)) {
                Some(last) => *last,
                None => Address::new(0),
            },
        }
    }

    /// Lets a job take its turn, and gives what it was.
    fn take_turn(&mut self, n: u8) -> Result<Turn, AllocError>
        requires following { IsFollowing self.old }
        requires number { IsJob n }
        requires ready { can_run self.old.machine.machine.world n ≡ true }
        ensures turned { OnOk result (turned_at_once self.old.machine n ≡ Some self.new.machine) }
        ensures goes { OnOk result (GoesTo self.old self.new self.new.machine) }
    {
        let sleep = sleep_of(&self.machine, n);
        let before = self.machine.texts[usize::from(n)].len();
        self.machine.take_turn_at_once(n)?;
        Ok(Turn {
            sleep,
            puts_out: self.machine.texts[usize::from(n)].len() > before,
            noticed: None,
        })
    }

    /// Keeps a turn of a job that no part of the order has yet.
    fn put_off(&mut self, n: u8, turn: Turn) -> Result<(), AllocError>
        requires following { IsFollowing self.old }
        requires number { n ≤ JOBS }
        ensures { OnOk result (GoesTo self.old self.new self.old.machine) }
    {
        self.ahead[usize::from(n)].turns.push(turn)?;
        Ok(())
    }

    /// Lets a job take its turns that nobody can notice.
    fn settle_job(&mut self, n: u8) -> Result<(), AllocError>
        requires following { IsFollowing self.old }
        requires number { IsJob n }
        ensures { OnOk result (GoesTo self.old self.new (alone self.old.most n self.old.machine)) }
    {
        for _ in 0..self.most {
            if !self.machine.is_quiet(n) {
                return Ok(());
            }
            let turn = self.take_turn(n)?;
            self.put_off(n, turn)?;
        }
        Ok(())
    }

    /// Lets all jobs do so, one after the other.
    pub fn settle(&mut self) -> Result<(), AllocError>
        requires { IsFollowing self.old }
        ensures { OnOk result (GoesTo self.old self.new (settled self.old.most self.old.count self.old.machine)) }
    {
        for k in 0..self.count {
            self.settle_job(k + 1)?;
        }
        Ok(())
    }

    /// What others can notice of the turn of job n that was just taken, in words, if it had this call next.
    fn noticed_text(
        &self,
        n: u8,
        call: Option<(Service, Accumulator)>,
        before: &Option<Job>,
    ) -> Result<Option<String>, AllocError> {
        let Some(before) = before else {
            return Ok(None);
        };
        let Some(noticed) = noticed_in(call, before, self.machine.world.table.job(n)) else {
            return Ok(None);
        };
        let place = match noticed {
            Noticed::Called(_, _) => before.regs.pc,
            Noticed::Interrupted(place) => place,
        };
        let text = NoticedText {
            spot: spot_in(self.programs, n, place),
            noticed,
        };
        Ok(Some(format!(in self.alloc; "{text}")?))
    }

    /// Makes a move of job k + 1: its turn that others can notice, and all that it did before; then all jobs settle, and it goes
    /// on with what nobody can notice.
    pub fn make_move(&mut self, k: u8) -> Result<(), AllocError>
        requires following { IsFollowing self.old }
        requires job { k < self.old.count }
        requires made { IsSome (next self.old.most self.old.count self.old.machine k) }
        ensures made { OnOk result (next self.old.most self.old.count self.old.machine k ≡ Some self.new.machine) }
        ensures goes { OnOk result (GoesTo self.old self.new self.new.machine) }
    {
        let n = k + 1;
        let call = call_next(&self.machine, n);
        let before = self.machine.world.table.job(n).copied();
        let mut turn = self.take_turn(n)?;
        turn.noticed = self.noticed_text(n, call, &before)?;
        if turn.noticed.is_some() {
            self.calls = self.calls.saturating_add(1);
        }
        self.put_off(n, turn)?;
        self.settle()?;
        self.write_turns(n)
    }

    /// Writes all that jobs did and that was put off.
    pub fn finish(&mut self) -> Result<(), AllocError>
        requires { IsFollowing self.old }
        ensures { OnOk result (GoesTo self.old self.new self.old.machine) }
    {
        for k in 0..self.count {
            self.write_turns(k + 1)?;
        }
        self.stop_last()
    }

    /// Stops the job that took the last steps.
    fn stop_last(&mut self) -> Result<(), AllocError>
        requires { IsFollowing self.old }
        ensures { OnOk result (GoesTo self.old self.new self.old.machine) }
    {
        if let Some(OrderPart::Steps(steps)) = self.parts.as_slice().last() {
            let line = steps.job.saturating_sub(1);
            self.events.add(RunEvent::Typed(line, Char7::new(CTRL_C)))?;
        }
        Ok(())
    }

    /// Lets ticks go by until job n wakes.
    fn let_sleep(&mut self, n: u8) -> Result<(), AllocError>
        requires following { IsFollowing self.old }
        requires number { n ≤ JOBS }
        ensures { OnOk result (GoesTo self.old self.new self.old.machine) }
    {
        let wakes = self.ahead[usize::from(n)].wakes;
        if wakes <= self.ticks {
            return Ok(());
        }
        let more = u32::try_from(wakes - self.ticks).unwrap_or(u32::MAX);
        self.ticks = wakes;
        self.stop_last()?;
        self.parts.push(OrderPart::Ticks(more))?;
        for _ in 0..more {
            self.events.add(RunEvent::Tick)?;
        }
        Ok(())
    }

    /// Begins steps of job n, unless the last part has some.
    fn begin_steps(&mut self, n: u8) -> Result<(), AllocError>
        requires { IsFollowing self.old }
        ensures { OnOk result (GoesTo self.old self.new self.old.machine) }
    {
        if let Some(OrderPart::Steps(steps)) = self.parts.as_slice().last() {
            if steps.job == n {
                return Ok(());
            }
        }
        self.stop_last()?;
        self.events.add(RunEvent::Continue(n))?;
        self.parts.push(OrderPart::Steps(JobSteps {
            job: n,
            steps: 0,
            calls: Vec::new(self.alloc),
        }))?;
        Ok(())
    }

    /// Writes a turn of job n. In a script a tick goes by after each step, as `RUN` has it: no turn reads the time, and a sleep
    /// may be shorter.
    fn write_turn(&mut self, n: u8, turn: Turn) -> Result<(), AllocError>
        requires following { IsFollowing self.old }
        requires number { n ≤ JOBS }
        ensures { OnOk result (GoesTo self.old self.new self.old.machine) }
    {
        self.let_sleep(n)?;
        self.begin_steps(n)?;
        self.events.add(RunEvent::Step)?;
        self.events.add(RunEvent::Tick)?;
        if turn.sleep > 0 {
            self.ahead[usize::from(n)].wakes = self.ticks.saturating_add(u64::from(turn.sleep));
        }
        if turn.puts_out {
            self.events.add(RunEvent::Take(n.saturating_sub(1)))?;
        }
        count_step(&mut self.parts, turn.noticed)
    }

    /// Writes the turns of job n that were put off.
    fn write_turns(&mut self, n: u8) -> Result<(), AllocError>
        requires following { IsFollowing self.old }
        requires number { n ≤ JOBS }
        ensures { OnOk result (GoesTo self.old self.new self.old.machine) }
    {
        let ahead = &mut self.ahead[usize::from(n)].turns;
        let turns = std::mem::replace(ahead, Vec::new(self.alloc));
        for turn in turns {
            self.write_turn(n, turn)?;
        }
        Ok(())
    }
}

/// Follows an order from the beginning: for each move, the number of its job less 1.
pub fn follow<'a>(
    alloc: Global,
    work: &Work<'a>,
    most: u32,
    moves: &[usize],
) -> Result<Following<'a>, LoadError>
    requires { HasOrder most (start_of work.now) moves.now }
    ensures { IfOk result (λ f. IsOrder most (start_of work.now) moves.now f.machine) }
{
    let system = begun(alloc, work)?;
    let world = system.into_world();
    let count = count_jobs(&world);
    let machine = Turns::new(alloc, world, QUANTUM, work.config.blocks())?;
    let events = beginning(alloc, count)?;
    let mut following = Following::new(alloc, machine, count, work, most, events)?;
    following.settle()?;
    for by in moves {
        let Ok(k) = u8::try_from(*by) else {
            return Err(LoadError::Memory);
        };
        following.make_move(k)?;
    }
    following.finish()?;
    Ok(following)
}
