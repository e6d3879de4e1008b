//! A run of programs: its jobs, and what is typed, reported and drawn.

ghost use Rattle.std.specs.Prelude.{◌≡◌, ◌≤◌, [], false, ◌&&◌, ◌||◌, IsTrue, length, map, not, take};
ghost use Rattle.std.specs.List.{list_any};
ghost use Rattle.lock_queue.specs.Jobs.{waits_for};
ghost use Rattle.lock_queue.specs.Waits.{is_in_circle, jobs};
ghost use Rattle.run_facts.specs.Ends.{status_of};
ghost use Rattle.machine.specs.Alone.{text_in};
ghost use Rattle.machine.specs.Machine.{happens};
ghost use Rattle.machine.specs.declared.event.Event.TheVariants.{Take};
ghost use Rattle.word36.specs.declared.sizes.TheConstants.{TAKEN_AT_ONCE};
ghost use Rattle.ten.specs.Events.{TakesOutput};
ghost use Rattle.ten.specs.Writing.{Writes};
ghost use Rattle.ten.specs.Jobs.{sleeps, standing_in, waits_for_input, waits_with_limit};
ghost use Rattle.run_record.specs.declared.pieces.TheConstants.{MOST_ROUNDS};

use crate::jobs::RunningJob;
use crate::loading::log_in_all;
use crate::notes::Notes;
use crate::options::Options;
use crate::picture::Picture;
use crate::recording::Recording;
use crate::terminal::Terminal;
use crate::typing::Typing;
use crate::waits::Waits;
use concrete_machine::Machine;
use machine::MOST_TAKES;
use monitor::{Answer, Event};
use program_files::{ProgramFile, are_recordable, read_programs};
use program_shell::PendingText;
use run_events::{Fact, RoundsMade};
use run_facts::{Cut, RunOutcome, UNASKED_CUT, has_ended_well, status_of};
use run_notes::{has_circle, standing_of};
use run_record::{MOST_ROUNDS, RunEvent};
use std::alloc::{AllocError, Global};
use uuo_calls::BlockRoom;
use word36::{Address, Image, TAKEN_AT_ONCE};

/// What is reported of a run that was cut though no steps were asked for.
const CUT_TEXT: &str =
    "ten: a hundred million steps were made, and jobs go on; --steps N makes N steps\n";

/// A run of programs: its jobs, and what is typed, reported and drawn. The machine is beside it.
#[derive(Drop)]
pub struct Session {
    /// The jobs, by number from 1 on.
    pub jobs: Vec<RunningJob>,
    /// What is typed at their terminals.
    pub typing: Typing,
    /// What they have typed out.
    pub output: PendingText,
    /// What is reported and not yet written.
    pub errors: PendingText,
    /// Room for the block of a lock call.
    room: BlockRoom,
    /// The facts of the last step.
    facts: Vec<Fact>,
    /// How many ticks went by.
    ticks: u64,
    /// What is reported of the run while it goes on.
    notes: Notes,
    /// What is drawn of it.
    picture: Picture,
    /// What happened in it.
    pub recording: Recording,
}

/// Takes 64 characters at most of what a job has typed out; false if there is nothing.
fn take_some(machine: &mut Machine, terminal: &mut Terminal, output: &mut PendingText) -> bool
    ensures state { machine.new ≡ (happens machine.old (Take terminal.old.line TAKEN_AT_ONCE)).state }
    ensures writes { Writes terminal.old terminal.new output.old output.new
        (text_in (happens machine.old (Take terminal.old.line TAKEN_AT_ONCE)).answer) }
    ensures none { result ≡ false → text_in (happens machine.old (Take terminal.old.line TAKEN_AT_ONCE)).answer ≡ [] }
{
    // An event may hold an image, of which these have none: the prover wants its type to be named.
    let _image: Option<&Image> = None;
    match machine.event(&Event::Take(terminal.line, TAKEN_AT_ONCE)) {
        Answer::Text(taken) if !taken.as_slice().is_empty() => {
            terminal.print(taken.as_slice(), output);
            true
        }
        _ => false,
    }
}

/// Takes what a job has typed out; false if there is nothing.
fn take_output(machine: &mut Machine, terminal: &mut Terminal, output: &mut PendingText) -> bool
    ensures { TakesOutput terminal.old terminal.new output.old output.new machine.old machine.new }
{
    let mut has_some = false;
    for _ in 0..MOST_TAKES {
        if !take_some(machine, terminal, output) {
            break;
        }
        has_some = true;
    }
    has_some
}

/// What some rounds came to.
#[derive(Clone, Copy)]
struct RoundsEnd {
    /// How many they are.
    made: u64,
    /// The job that ran in them, if one was ready.
    job: Option<u8>,
    /// Whether a job ran, made no monitor call, and there are no facts.
    is_quiet: bool,
}

/// How far a run went on.
#[derive(Clone, Copy)]
pub struct Progress {
    /// How many rounds were made.
    pub made: u64,
    /// Whether a job can go on.
    pub goes_on: bool,
}

impl Session {
    /// A run without jobs, of which the options say what is reported and drawn.
    pub fn new(alloc: Global, options: &Options<'_>) -> Self {
        Session {
            jobs: Vec::new(alloc),
            typing: Typing::new(alloc, options.ending),
            output: PendingText::new(alloc),
            errors: PendingText::new(alloc),
            room: BlockRoom::new(),
            facts: Vec::new(alloc),
            ticks: 0,
            notes: Notes::new(alloc, options),
            picture: Picture::new(alloc, options.picture.is_some()),
            recording: Recording::new(alloc, options.record.is_some()),
        }
    }

    /// Ends the run, and frees its memory and its machine's.
    pub fn end(self, _machine: Machine) {}

    /// Assembles sources and loads core images, and logs a job in for each; false where one is refused, or cannot be
    /// recorded though that is asked for, which is reported.
    pub fn begin(
        &mut self,
        machine: &mut Machine,
        sources: &[ProgramFile<'_>],
        options: &Options<'_>,
    ) -> bool {
        let Some(programs) = read_programs(sources, options.from, options.faults, &mut self.errors)
        else {
            return false;
        };
        let made = programs.as_slice();
        if options.record.is_some() && !are_recordable(sources, made, &mut self.errors) {
            return false;
        }
        let recording = &mut self.recording;
        recording.add_programs(sources, made);
        if !log_in_all(
            machine,
            programs,
            &mut self.jobs,
            recording,
            &mut self.errors,
        ) {
            return false;
        }
        let (alloc, jobs) = (self.errors.alloc, self.jobs.as_slice());
        if self
            .notes
            .prepare_all(alloc, machine, jobs, options)
            .is_err()
        {
            self.errors.fail();
        }
        true
    }

    /// How many of so many rounds may be made at once: one, if each step is looked at, and else up to the tick at which
    /// a wait is too long.
    fn most_at_once(&self, wanted: u64) -> u32
        ensures some { 1 ≤ result }
        ensures most { result ≤ MOST_ROUNDS }
    {
        if self.notes.watches_steps() || self.picture.draws_each(self.ticks) {
            return 1;
        }
        let most = wanted.min(self.notes.ticks_to_overdue(self.ticks));
        if most == 0 {
            1
        } else if most > u64::from(MOST_ROUNDS) {
            MOST_ROUNDS
        } else {
            most as u32
        }
    }

    /// Makes the next rounds but for the last tick, `wanted` at most: those of one job, up to the first that may have a
    /// fact. What the job typed out by a call is in `output`.
    fn make_rounds(&mut self, machine: &mut Machine, wanted: u64) -> RoundsEnd {
        let most = self.most_at_once(wanted);
        let Ok(rounds) = machine.rounds_facts(self.errors.alloc, &mut self.room, most) else {
            self.errors.fail();
            return RoundsEnd {
                made: 1,
                job: None,
                is_quiet: false,
            };
        };
        let RoundsMade {
            made,
            job,
            has_called,
            at,
            facts,
        } = rounds;
        self.facts = facts;
        self.recording.add_rounds(made.saturating_sub(1));
        self.recording.add(RunEvent::Step);
        self.ticks = self.ticks.saturating_add(u64::from(made.saturating_sub(1)));
        if let Some(number) = job {
            self.note_steps(number, u64::from(made), at);
            if has_called {
                // A call may give up requests that nobody waits behind, of which there is no fact.
                self.picture.may_differ = true;
                self.take_output(machine, number);
            }
        }
        RoundsEnd {
            made: u64::from(made),
            job,
            is_quiet: job.is_some() && !has_called && self.facts.is_empty(),
        }
    }

    /// Counts steps of a job. `at` is its PC before the last of them.
    fn note_steps(&mut self, number: u8, steps: u64, at: Address) {
        if let Some(job) = self.jobs.get_mut(usize::from(number).saturating_sub(1)) {
            job.steps = job.steps.saturating_add(steps);
            job.traced.last = at;
        }
    }

    /// Makes rounds, `most` at most, up to the first by which there may be something to type, to write or to report. What
    /// the jobs typed out is in `output`, and what is reported in `errors`, to be written now.
    pub fn advance(&mut self, machine: &mut Machine, most: u64) -> Progress {
        let mut made = 0u64;
        for _ in 0..most {
            let end = self.make_rounds(machine, most.saturating_sub(made));
            made = made.saturating_add(end.made);
            let goes_on = self.end_round(machine, end.job);
            if !goes_on || !end.is_quiet || made >= most || self.has_report() {
                return Progress { made, goes_on };
            }
        }
        Progress {
            made,
            goes_on: true,
        }
    }

    /// Whether something is to be reported, or memory was missing for that.
    fn has_report(&self) -> bool {
        !self.errors.as_bytes().is_empty() || !self.errors.is_whole()
    }

    /// Takes what a job typed out, and looks whether it waits for characters now.
    #[inline(never)]
    fn take_output(&mut self, machine: &mut Machine, number: u8) {
        let Some(job) = self.jobs.get_mut(usize::from(number).saturating_sub(1)) else {
            return;
        };
        let awaits = match machine.job(number) {
            Some(view) => Waits::of(&view).input,
            None => false,
        };
        self.typing.is_awaited |= awaits;
        if take_output(machine, &mut job.terminal, &mut self.output) {
            self.recording.add(RunEvent::Take(job.terminal.line));
        }
        if awaits {
            job.terminal.flush(&mut self.output);
        }
    }

    /// Reports the last round of a job, or that no job was ready, and lets its tick go by; false if no job can go on.
    fn end_round(&mut self, machine: &mut Machine, job: Option<u8>) -> bool {
        match job {
            Some(number) if self.notes.watches_steps() => self.report_turn(machine, number),
            Some(_) => {}
            None => {
                if !self.can_go_on(machine) {
                    return false;
                }
            }
        }
        if !self.facts.is_empty() {
            self.report_facts(machine);
        }
        if self.picture.wants(self.ticks)
            && self
                .picture
                .draw(self.errors.alloc, machine, self.ticks)
                .is_err()
        {
            self.errors.fail();
        }
        self.tick(machine)
    }

    /// Reports a job's turn, and takes down what it does next.
    fn report_turn(&mut self, machine: &Machine, number: u8) {
        let tick = self.ticks;
        if let Some(job) = self.jobs.get(usize::from(number).saturating_sub(1)) {
            self.notes
                .report_turn(machine, tick, &job.traced, &mut self.errors);
        }
    }

    /// Reports the facts of a step. Requests may be others since then.
    fn report_facts(&mut self, machine: &Machine) {
        let facts = self.facts.as_slice();
        self.notes
            .report_facts(machine, self.ticks, facts, &mut self.errors);
        self.picture.may_differ = true;
    }

    /// Lets a tick go by, and reports its facts and the wait that is too long now; false where there is no memory.
    fn tick(&mut self, machine: &mut Machine) -> bool {
        let Ok(facts) = machine.tick_facts(self.errors.alloc) else {
            self.errors.fail();
            return false;
        };
        self.recording.add(RunEvent::Tick);
        self.ticks = self.ticks.saturating_add(1);
        if !facts.is_empty() {
            self.report_limits(machine, facts.as_slice());
        }
        if self.notes.has_clocks() {
            self.notes
                .report_overdue(machine, self.ticks, &mut self.errors);
        }
        true
    }

    /// Reports the facts of a tick. If a job's time limit ended, the tick set the job back to the error return of its
    /// call.
    #[inline(never)]
    fn report_limits(&mut self, machine: &Machine, facts: &[Fact]) {
        let tick = self.ticks;
        for fact in facts {
            if let Fact::LimitEnded(number, _) = fact {
                self.set_back(machine, *number);
            }
        }
        self.notes
            .report_facts(machine, tick, facts, &mut self.errors);
        self.picture.may_differ = true;
    }

    /// A job's time limit ended: reports that with its steps.
    fn set_back(&mut self, machine: &Machine, number: u8) {
        let Some(job) = self.jobs.get(usize::from(number).saturating_sub(1)) else {
            return;
        };
        if let Some(view) = machine.job(number) {
            self.notes
                .report_limit(machine, self.ticks, &job.traced, &view, &mut self.errors);
        }
    }

    /// Whether the machine, of which no job is ready, can go on: a job sleeps, or waits for locks with a time
    /// limit, or waits for characters of which more may come.
    fn can_go_on(&mut self, machine: &Machine) -> bool
        ensures { result ≡ ((list_any (sleeps machine.now) self.old.jobs.items
            || list_any (waits_with_limit machine.now) self.old.jobs.items)
            || (list_any (waits_for_input machine.now) self.old.jobs.items && not self.old.typing.has_ended)) }
    {
        let waits = Waits::of_all(machine, self.jobs.as_slice());
        waits.sleep || waits.limit || self.typing.goes_on(waits.input)
    }

    /// Hands over what there is of lines that are not whole, and ends them.
    pub fn flush(&mut self) {
        for job in self.jobs.as_mut_slice().iter_mut() {
            job.terminal.flush(&mut self.output);
        }
    }

    /// Reports how each job ended, and gives the exit status. `cut` says whether the run made as many steps as it
    /// was to make; `names` are those of the files of the jobs' sources.
    pub fn report_ends(&mut self, machine: &Machine, names: &[String], cut: Cut) -> u8
        ensures status { IsTrue self.new.errors.is_whole → result
            ≡ status_of (list_any (is_in_circle (waits_for machine.now.world.requests)) jobs) cut
            (map (standing_in machine.now) (take (length names.now) self.old.jobs.items)) }
    {
        if !self.output.is_line_whole() {
            self.errors.end_line();
        }
        self.notes.report_table(self.ticks, &mut self.errors);
        let mut standings = Vec::new(self.errors.alloc);
        for i in 0..self.jobs.len().min(names.len()) {
            let (job, name) = (&self.jobs[i], &names[i]);
            let standing = standing_of(machine, job.traced.number);
            if !has_ended_well(standing) {
                self.notes
                    .report_history(job.traced.number, &mut self.errors);
            }
            job.report_end(machine, name.as_str(), standing, &mut self.errors);
            if standings.push(standing).is_err() {
                self.errors.fail();
            }
        }
        let ending = RunOutcome {
            has_circle: has_circle(machine),
            cut,
        };
        let status = status_of(ending, standings.as_slice());
        if status == UNASKED_CUT {
            self.errors.say(CUT_TEXT);
        }
        status
    }

    /// The picture of the run as SVG, if it is asked for.
    pub fn take_svg(&mut self, machine: &Machine) -> Result<Option<String>, AllocError> {
        self.picture
            .take_svg(self.errors.alloc, machine, self.ticks)
    }
}
