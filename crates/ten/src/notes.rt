//! What is reported of a run while it goes on.
ghost use Rattle.std.specs.Prelude.{◌≡◌, ◌||◌, [], IfOk, IsTrue, OnOk, false, is_some, string_bytes};
ghost use Rattle.program_shell.specs.Texts.{Adds};
ghost use Rattle.ten.specs.Reports.{AddsSome, AreCircles, AreFactLines, IsCircleBy, IsCircleOf, IsDueLine, clocks_after};
ghost use Rattle.ten.specs.Reports.{grant_lines, lock_lines, table_text};

use crate::history::History;
use crate::jobs::RunningJob;
use crate::options::Options;
use concrete_machine::Machine;
use monitor::JobView;
use program_shell::PendingText;
use run_events::Fact;
use run_notes::{
    Snapshot, TracedJob, WaitClocks, circle_line, circle_of, facts_text, snapshot_of, step_line,
    time_limit_line,
};
use std::alloc::{AllocError, Global};

/// What is reported of a run while it goes on.
#[derive(Drop)]
pub struct Notes {
    /// Whether each step is reported.
    trace: bool,
    /// Whether lock calls and grants are reported.
    locks: bool,
    /// Whether the last steps of each job are kept.
    history: bool,
    /// The clocks of waits, if waits are reported.
    clocks: Option<WaitClocks>,
    /// A row for each job, by number from 1 on; none if no steps are reported.
    jobs: Vec<JobNotes>,
}

/// What is kept of a job.
#[derive(Drop)]
struct JobNotes {
    /// What it does next.
    next_step: Snapshot,
    /// Its last steps.
    history: History,
}

/// Reports the circle of waits that a job closed in this step, in which it began to wait for locks; if it closed one.
fn report_circle(machine: &Machine, tick: u64, number: u8, errors: &mut PendingText)
    ensures { AddsSome errors.old errors.new (IsCircleOf tick machine.now.world.requests number) }
{
    let alloc = errors.alloc;
    match circle_of(alloc, machine, number) {
        Ok(Some(circle)) => errors.say_made(circle_line(alloc, tick, machine, circle.as_slice())),
        Ok(None) => {}
        Err(_) => errors.fail(),
    }
}

/// Reports the circle that closed by a fact of a tick, if one did.
fn report_circle_by(machine: &Machine, tick: u64, fact: &Fact, errors: &mut PendingText)
    ensures { AddsSome errors.old errors.new (IsCircleBy tick machine.now.world.requests fact.now) }
{
    if let Fact::CircleClosed(job) = fact {
        report_circle(machine, tick, *job, errors);
    }
}

/// Reports the circles that closed by some facts of a tick.
fn report_circles(machine: &Machine, tick: u64, facts: &[Fact], errors: &mut PendingText)
    ensures { AddsSome errors.old errors.new (AreCircles tick machine.now.world.requests facts.now) }
{
    for fact in facts {
        report_circle_by(machine, tick, fact, errors);
    }
}

/// What is kept of a job.
fn notes_of(jobs: &mut Vec<JobNotes>, number: u8) -> Option<&mut JobNotes> {
    jobs.get_mut(usize::from(number).saturating_sub(1))
}

impl JobNotes {
    /// Reports a job's step, or keeps it among the last where steps are not reported.
    fn note_step(
        &mut self,
        machine: &Machine,
        tick: u64,
        job: &TracedJob,
        is_reported: bool,
        errors: &mut PendingText,
    )
        ensures { is_reported ≡ false → Adds errors.old errors.new [] }
    {
        let line = step_line(errors.alloc, machine, tick, job, &self.next_step);
        if is_reported {
            errors.say_made(line);
            return;
        }
        let is_kept = match line {
            Ok(line) => self.history.keep(line).is_ok(),
            Err(_) => false,
        };
        if !is_kept {
            errors.fail();
        }
    }
}

impl Notes {
    /// Notes that report what the options ask for; nothing was seen yet.
    pub fn new(alloc: Global, options: &Options<'_>) -> Self {
        let clocks = match options.waits {
            Some(most) => Some(WaitClocks::new(alloc, most)),
            None => None,
        };
        Notes {
            trace: options.trace,
            locks: options.locks,
            history: options.history > 0,
            clocks,
            jobs: Vec::new(alloc),
        }
    }

    /// Whether each step is looked at, before it is made and after it.
    pub fn watches_steps(&self) -> bool
        ensures { result ≡ (self.now.trace || self.now.history) }
    {
        self.trace || self.history
    }

    /// Takes down what each job does next, if steps are reported. None has run yet.
    pub fn prepare_all(
        &mut self,
        alloc: Global,
        machine: &Machine,
        jobs: &[RunningJob],
        options: &Options<'_>,
    ) -> Result<(), AllocError> {
        if self.watches_steps() {
            for job in jobs {
                let next_step = snapshot_of(machine, job.traced.number, job.traced.last);
                let history = History::new(alloc, options.history);
                self.jobs.push(JobNotes { next_step, history })?;
            }
        }
        Ok(())
    }

    /// The lines on lock calls, grants and limits among some facts, if they are asked for.
    fn lock_text(
        &self,
        alloc: Global,
        machine: &Machine,
        tick: u64,
        facts: &[Fact],
    ) -> Result<String, AllocError>
        ensures { IfOk result (λ text. string_bytes text ≡ lock_lines self.now.locks machine.now tick facts.now) }
    {
        if self.locks {
            facts_text(alloc, machine, tick, facts)
        } else {
            Ok(String::new(alloc))
        }
    }

    /// The lines on how long grants among some facts took, if they are asked for. The clocks take note of the facts.
    fn wait_text(&mut self, alloc: Global, tick: u64, facts: &[Fact]) -> Result<String, AllocError>
        ensures text { IfOk result (λ text. string_bytes text ≡ grant_lines self.old.clocks tick facts.now) }
        ensures clocks { OnOk result (self.new.clocks ≡ clocks_after self.old.clocks tick facts.now) }
        ensures kept { (self.new.trace ≡ self.old.trace) × (self.new.locks ≡ self.old.locks) }
    {
        match &mut self.clocks {
            Some(clocks) => clocks.note_all(alloc, tick, facts),
            None => Ok(String::new(alloc)),
        }
    }

    /// Takes down what a job does next, if it is there.
    fn prepare(&mut self, machine: &Machine, number: u8)
        ensures kept { (self.new.trace ≡ self.old.trace) × (self.new.locks ≡ self.old.locks) × (self.new.clocks ≡ self.old.clocks) }
    {
        if let Some(notes) = notes_of(&mut self.jobs, number) {
            if let Some(view) = machine.job(number) {
                notes.next_step = snapshot_of(machine, number, view.pc);
            }
        }
    }

    /// Reports a turn of a job, by what was taken down before it, and takes down what it does next.
    #[inline(never)]
    pub fn report_turn(
        &mut self,
        machine: &Machine,
        tick: u64,
        job: &TracedJob,
        errors: &mut PendingText,
    )
        ensures untold { self.old.trace ≡ false → Adds errors.old errors.new [] }
        ensures kept { (self.new.trace ≡ self.old.trace) × (self.new.locks ≡ self.old.locks) × (self.new.clocks ≡ self.old.clocks) }
    {
        let trace = self.trace;
        if let Some(notes) = notes_of(&mut self.jobs, job.number) {
            notes.note_step(machine, tick, job, trace, errors);
        }
        self.prepare(machine, job.number);
    }

    /// Reports the facts of a step or a tick, on the machine as it left it: lock calls, grants and limits, how long grants
    /// took, and circles of waits.
    #[inline(never)]
    pub fn report_facts(
        &mut self,
        machine: &Machine,
        tick: u64,
        facts: &[Fact],
        errors: &mut PendingText,
    )
        ensures lines { AddsSome errors.old errors.new (AreFactLines self.old.locks self.old.clocks machine.now tick facts.now) }
        ensures clocks { IsTrue errors.new.is_whole → self.new.clocks ≡ clocks_after self.old.clocks tick facts.now }
        ensures kept { (self.new.trace ≡ self.old.trace) × (self.new.locks ≡ self.old.locks) }
    {
        let alloc = errors.alloc;
        errors.say_made(self.lock_text(alloc, machine, tick, facts));
        errors.say_made(self.wait_text(alloc, tick, facts));
        report_circles(machine, tick, facts, errors);
    }

    /// A job's time limit ended: reports that where each step is reported, and takes down what the job does next. `after` is
    /// its view now.
    pub fn report_limit(
        &mut self,
        machine: &Machine,
        tick: u64,
        job: &TracedJob,
        after: &JobView,
        errors: &mut PendingText,
    )
        ensures untold { self.old.trace ≡ false → Adds errors.old errors.new [] }
        ensures kept { (self.new.trace ≡ self.old.trace) × (self.new.locks ≡ self.old.locks) × (self.new.clocks ≡ self.old.clocks) }
    {
        if self.trace {
            errors.say_made(time_limit_line(errors.alloc, tick, job, after));
        }
        self.prepare(machine, job.number);
    }

    /// Whether waits are measured.
    pub fn has_clocks(&self) -> bool
        ensures { result ≡ is_some self.now.clocks }
    {
        self.clocks.is_some()
    }

    /// In how many ticks the next wait is too long; a great number if none is.
    pub fn ticks_to_overdue(&self, tick: u64) -> u64 {
        match &self.clocks {
            Some(clocks) => clocks.ticks_to_overdue(tick),
            None => u64::MAX,
        }
    }

    /// Reports the job that waits for locks for longer than the options say from this tick on, if there is one.
    #[inline(never)]
    pub fn report_overdue(&self, machine: &Machine, tick: u64, errors: &mut PendingText)
        ensures { AddsSome errors.old errors.new (IsDueLine self.now.clocks machine.now tick) }
    {
        if let Some(clocks) = &self.clocks {
            errors.say_made(clocks.overdue(errors.alloc, tick, machine));
        }
    }

    /// Reports the table of waits by lock.
    pub fn report_table(&self, tick: u64, errors: &mut PendingText)
        ensures { Adds errors.old errors.new (table_text self.now.clocks tick) }
    {
        if let Some(clocks) = &self.clocks {
            errors.say_made(clocks.table(errors.alloc, tick));
        }
    }

    /// Reports the last steps of a job, where they are kept.
    pub fn report_history(&mut self, number: u8, errors: &mut PendingText)
        ensures { IsTrue errors.new.is_whole → IsTrue errors.old.is_whole }
    {
        if let Some(notes) = notes_of(&mut self.jobs, number) {
            notes.history.report(errors);
        }
    }
}
