//! What others can notice of a job's turn, in words.
ghost use Rattle.core_store.specs.Cores.{IsJob};

use crate::spots::JobSpot;
use job_orders::Machine;
use job_sched::{Job, Wait};
use ka_cpu::next_call;
use ka_state::Accumulator;
use monitor::JobWords;
use std::fmt;
use uuo_calls::{Service, service_of};
use word36::{Address, Word, octal_text};

/// How a call ended.
#[derive(Clone, Copy)]
pub enum CallEnding {
    /// It is done.
    Done,
    /// Its job waits.
    Waits,
    /// It is refused, with this code.
    Refused(u32),
    /// A shared word was read: its number, and what it is.
    Read(u32, Word),
    /// A shared word was written: its number, and what it is from now on.
    Written(u32, Word),
}

/// What others can notice of a turn.
#[derive(Clone, Copy)]
pub enum Noticed {
    /// A call.
    Called(Service, CallEnding),
    /// An interrupt was delivered, and the job goes on at this address.
    Interrupted(Address),
}

/// What others can notice of a turn, in words: `ENQ. at LOOP+1, waits`.
#[derive(Clone, Copy)]
pub struct NoticedText<'a> {
    /// The address of the turn; of an interrupt, that at which the job goes on.
    pub spot: JobSpot<'a>,
    /// What they can notice.
    pub noticed: Noticed,
}

/// The name of a call that others can notice.
fn name_of(service: Service) -> &'static str {
    match service {
        Service::Enq => "ENQ.",
        Service::Deq => "DEQ.",
        Service::Enqc => "ENQC.",
        Service::Datrd => "DATRD.",
        Service::Datwr => "DATWR.",
        Service::Core => "CORE",
        Service::Logout => "LOGOUT",
        Service::Reset => "RESET",
        Service::Exit => "EXIT",
        _ => "a call",
    }
}

impl fmt::Display for CallEnding {
    fn fmt<W: fmt::Write>(&self, f: &mut fmt::Formatter<W>) -> fmt::Result {
        match self {
            CallEnding::Done => Ok(()),
            CallEnding::Waits => f.write_str(", waits"),
            CallEnding::Refused(code) => write!(f, ", code {code}"),
            CallEnding::Read(number, word) => {
                let value = octal_text(word.number());
                write!(f, " (word {number} is {value})")
            }
            CallEnding::Written(number, word) => {
                let value = octal_text(word.number());
                write!(f, " (word {number}: {value})")
            }
        }
    }
}

impl fmt::Display for NoticedText<'_> {
    fn fmt<W: fmt::Write>(&self, f: &mut fmt::Formatter<W>) -> fmt::Result {
        let spot = &self.spot;
        match self.noticed {
            Noticed::Called(service, ending) => {
                let name = name_of(service);
                write!(f, "{name} at {spot}{ending}")
            }
            Noticed::Interrupted(_) => write!(f, "interrupt to {spot}"),
        }
    }
}

/// The call that a job's next instruction makes, with its AC field, if it makes one.
pub fn call_next(machine: &Machine, n: u8) -> Option<(Service, Accumulator)>
    requires { IsJob n }
{
    let job = machine.world.table.job(n)?;
    let (kind, ac, e) = next_call(&job.regs, &JobWords::new(&machine.world.cores, n))?;
    Some((service_of(kind, ac, e), ac))
}

/// The word in an accumulator of a job.
pub fn word_in(job: &Job, ac: u8) -> Word {
    job.regs.ac[usize::from(ac % 16)]
}

/// How a call of a job ended, by the job before it and after it.
fn ending_of(service: Service, ac: u8, before: &Job, after: &Job) -> CallEnding {
    if matches!(after.wait, Wait::Queue(_, _)) {
        return CallEnding::Waits;
    }
    if after.stop.is_some() || matches!(service, Service::Reset | Service::Exit | Service::Logout) {
        return CallEnding::Done;
    }
    if after.regs.pc == before.regs.pc.plus(1) {
        return CallEnding::Refused(word_in(after, ac).right());
    }
    let number = word_in(before, ac).right();
    match service {
        Service::Datrd => CallEnding::Read(number, word_in(after, ac)),
        Service::Datwr => CallEnding::Written(number, word_in(before, ac.wrapping_add(1))),
        _ => CallEnding::Done,
    }
}

/// What others can notice of a turn of a job, which had this call next, by the job before and after it; nothing if it made
/// no call and no interrupt was delivered.
pub fn noticed_in(
    call: Option<(Service, Accumulator)>,
    before: &Job,
    after: Option<&Job>,
) -> Option<Noticed> {
    let Some(after) = after else {
        return Some(Noticed::Called(Service::Logout, CallEnding::Done));
    };
    if after.interrupts.in_progress && !before.interrupts.in_progress {
        return Some(Noticed::Interrupted(after.regs.pc));
    }
    let (service, ac) = call?;
    let ending = ending_of(service, ac.number(), before, after);
    Some(Noticed::Called(service, ending))
}
