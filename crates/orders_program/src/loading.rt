//! Machines on which jobs with programs begin.
ghost use Rattle.std.specs.Prelude.{◌≡◌, ◌≤◌, ◌++◌, IfOk, OnOk};
ghost use Rattle.machine.specs.Machine.{logged_in, started};
ghost use Rattle.word36.specs.declared.sizes.TheConstants.{JOBS};
ghost use Rattle.job_orders.specs.Endings.{highest_job};
ghost use Rattle.run_record.specs.Pieces.{events_in};
ghost use Rattle.orders_program.specs.Begun.{after_number, all_started, begun_with, logged, logins, starts};

use core_store::PlainCore;
use job_orders::highest_job;
use monitor::{Answer, Config, Event, RefusedEvent, System};
use plain_table::PlainTable;
use run_record::{EventSequence, RunEvent};
use source_labels::Program;
use std::alloc::{AllocError, Global};
use tty_lines::Char7;
use uuo_calls::World;
use word36::{Image, MOST_REQUESTS};

/// The ticks of a quantum. No turn reads them.
pub const QUANTUM: u8 = 1;

/// CTRL-C.
pub const CTRL_C: u8 = 3;

/// A machine on which jobs begin.
pub type Loaded = System<PlainTable<MOST_REQUESTS>, PlainCore>;

/// What the jobs run.
#[derive(Clone, Copy)]
pub struct Work<'a> {
    /// The programs, in the order of their jobs.
    pub programs: &'a [Program<'a>],
    /// The names of their files, as lines for a person show them.
    pub names: &'a [String],
    /// The size of the machine.
    pub config: Config,
}

/// The name at a position.
pub fn name_at(names: &[String], position: usize) -> &str {
    match names.get(position) {
        Some(name) => name.as_str(),
        None => "",
    }
}

/// Why jobs cannot begin.
#[derive(Drop)]
pub enum LoadError {
    /// There was no memory.
    Memory,
    /// The program at this position cannot be logged in.
    Refused(usize, RefusedEvent),
}

impl From<AllocError> for LoadError {
    fn from(_error: AllocError) -> Self {
        LoadError::Memory
    }
}

/// The number after this one; 255 stays.
pub fn after_number(number: u8) -> u8
    ensures { result ≡ after_number number }
{
    number.saturating_add(1)
}

/// Logs a job in at a terminal line. Gives why it is refused, if it is.
fn log_in(system: &mut Loaded, line: u8, image: &Image) -> Option<RefusedEvent>
    ensures { system.new ≡ (logged_in system.old line image.now.words.items image.now.start).state }
{
    match system.event(&Event::Login(line, image)) {
        Answer::Refused(refusal) => Some(refusal),
        _ => None,
    }
}

/// Logs a job in for each program, the first at terminal line 0.
fn log_in_all(system: &mut Loaded, programs: &[Program<'_>]) -> Result<(), LoadError>
    ensures { OnOk result (system.new ≡ logged 0 programs.now system.old) }
{
    let mut line = 0u8;
    for program in programs {
        if let Some(refusal) = log_in(system, line, &program.image) {
            return Err(LoadError::Refused(usize::from(line), refusal));
        }
        line = after_number(line);
    }
    Ok(())
}

/// Starts a job.
fn start(system: &mut Loaded, number: u8)
    ensures { system.new ≡ (started system.old number).state }
{
    // An event may hold an image, of which this one has none: the prover wants its type to be named.
    let _image: Option<&Image> = None;
    system.event(&Event::Start(number));
}

/// Starts a job for each program, job 1 first.
fn start_all(system: &mut Loaded, programs: &[Program<'_>])
    ensures { system.new ≡ all_started 1 programs.now system.old }
{
    let mut number = 1u8;
    for _ in programs {
        start(system, number);
        number = after_number(number);
    }
}

/// A machine on which each program has a job that is started, the first program at terminal line 0 and so on, and nobody has
/// taken a turn yet.
pub fn begun(alloc: Global, work: &Work<'_>) -> Result<Loaded, LoadError>
    ensures { IfOk result (λ s. s ≡ begun_with work.now.config.blocks work.now.config.quantum work.now.programs.now) }
{
    let mut system = System::boot(alloc, work.config)?;
    log_in_all(&mut system, work.programs)?;
    start_all(&mut system, work.programs);
    Ok(system)
}

/// What happens until then, as a script says it. CTRL-C stops each job once it is started.
pub fn beginning(alloc: Global, count: u8) -> Result<EventSequence, AllocError>
    ensures { IfOk result (λ events. events_in events ≡ logins count ++ starts count) }
{
    let mut events = EventSequence::new(alloc);
    for line in 0..count {
        events.add(RunEvent::Login(line, line + 1))?;
    }
    for line in 0..count {
        events.add(RunEvent::Start(line + 1))?;
        events.add(RunEvent::Typed(line, Char7::new(CTRL_C)))?;
    }
    Ok(events)
}

/// How many jobs there are: the highest number that has one.
pub fn count_jobs(world: &World<PlainTable<MOST_REQUESTS>, PlainCore>) -> u8
    ensures highest { result ≡ highest_job world.now.table.jobs JOBS }
    ensures few { result ≤ JOBS }
{
    highest_job(&world.table.jobs)
}
