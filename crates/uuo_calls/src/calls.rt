//! The monitor calls, by their table.

ghost use Rattle.std.specs.Prelude.{◌≡◌, ◌≢◌, ◌<◌, ◌^◌, [], List, Option, IsSome, None, Some};
ghost use Rattle.core_store.specs.Cores.{IsJob, core_of, given};
ghost use Rattle.lock_queue.specs.Jobs.{released};
ghost use Rattle.job_sched.specs.Changes.{table_without};
ghost use Rattle.job_sched.specs.Tables.{job_at};
ghost use Rattle.job_sched.specs.declared.job.Job.{Job as JobView};
ghost use Rattle.word36.specs.Words.{right_half};
ghost use Rattle.uuo_calls.specs.Asked.{reply_in, reply_to};
ghost use Rattle.uuo_calls.specs.CallState.{CallState, ac_of};
ghost use Rattle.uuo_calls.specs.Performed.{World, Performed, performed, row_of, around};
ghost use Rattle.uuo_calls.specs.QuotaRows.{named_job, quota_at};
ghost use Rattle.uuo_calls.specs.declared.call.CallOutcome.TheVariants.{Done};
ghost use Rattle.uuo_calls.specs.declared.service.Service.TheVariants.{Enqc};

use crate::call::{CallEnd, CallOutcome, MonitorCall};
use crate::core_call::resize_core;
use crate::data_words::{datrd, datwr};
use crate::input::{Reading, input, skpin};
use crate::interrupts::{debrk, piini, pisys};
use crate::jobs::{exit, mstime, pjob, reset, sleep};
use crate::locks::{deq, enq};
use crate::output::{outchr, outstr};
use crate::quotas::{enqc, quota_asked};
use crate::returns::stop_at;
use crate::room::CallRoom;
use crate::service::{Service, service_of};
use core_store::CoreStore;
use job_sched::{Job, JobTable, Stop, TimeOfDay};
use ka_state::{Accumulator, StopReason};
use lock_queue::{LockReply, LockTable};
use tty_lines::Lines;
use word36::{Address, DATA_WORDS, Word};

/// A monitor call of a job.
struct JobCall {
    /// Which call it is.
    service: Service,
    /// The time of day.
    time: TimeOfDay,
    /// The number of the job.
    number: u8,
    ac: Accumulator,
    e: Address,
    /// The quota of the job that ENQC. names, if it is there.
    quota: Option<u16>,
}

/// The end of a call that is no lock call.
fn ended(outcome: CallOutcome) -> CallEnd
    ensures outcome { result.outcome ≡ outcome }
    ensures reply { result.reply ≡ None }
{
    CallEnd {
        outcome,
        reply: None,
    }
}

/// The end of a lock call with this answer.
fn replied(reply: LockReply) -> CallEnd
    ensures outcome { result.outcome ≡ Done }
    ensures reply { result.reply ≡ Some reply }
{
    CallEnd {
        outcome: CallOutcome::Done,
        reply: Some(reply),
    }
}

/// Does what the call's row of the table says.
fn carry_out<L: LockTable, C: CoreStore>(
    call: JobCall,
    job: &mut Job,
    lines: &mut Lines,
    locks: &mut L,
    cores: &mut C,
    shared: &mut [Word; DATA_WORDS],
    room: &mut CallRoom,
) -> CallEnd
    requires number { IsJob call.number }
    requires core { core_of (C.meaning cores.old) call.number ≢ [] }
    ensures row { (jobs : List (Option JobView))
        → (call.service ≡ Enqc → quota_at jobs (named_job call.number (right_half (ac_of job.old call.ac))) ≡ call.quota)
        → record {
          size = L.REQS;
          job = job.new;
          jobs = jobs;
          lines = lines.new;
          requests = L.requests locks.new;
          cores = C.meaning cores.new;
          shared = shared.new;
          ending = result.outcome;
        }
        ≡ row_of call.service call.time call.number call.ac call.e (record {
          size = L.REQS;
          job = job.old;
          jobs = jobs;
          lines = lines.old;
          requests = L.requests locks.old;
          cores = C.meaning cores.old;
          shared = shared.old;
          ending = Done;
        }) }
    ensures reply { (jobs : List (Option JobView))
        → (call.service ≡ Enqc → quota_at jobs (named_job call.number (right_half (ac_of job.old call.ac))) ≡ call.quota)
        → result.reply ≡ reply_in call.service call.number call.ac (record {
          size = L.REQS;
          job = job.old;
          jobs = jobs;
          lines = lines.old;
          requests = L.requests locks.old;
          cores = C.meaning cores.old;
          shared = shared.old;
          ending = Done;
        }) }
{
    let JobCall {
        service,
        time,
        number,
        ac,
        e,
        quota,
    } = call;
    match service {
        Service::Reset => reset(number, job, locks),
        Service::Core => resize_core(number, job, ac, cores),
        Service::Exit => exit(number, job, locks),
        Service::Monrt => job.stop = Some(Stop::Monitor),
        Service::Logout => return ended(CallOutcome::Gone),
        Service::Mstime => mstime(time, job, ac),
        Service::Pjob => pjob(number, job, ac),
        Service::Sleep => sleep(job, ac),
        Service::Piini => piini(number, job, ac, cores),
        Service::Pisys => pisys(job, ac),
        Service::Debrk => debrk(number, job, cores),
        Service::Enq => return replied(enq(number, job, ac, locks, cores, room)),
        Service::Deq => return replied(deq(number, job, ac, locks, cores, room)),
        Service::Enqc => return replied(enqc(number, quota, job, ac, locks, cores, room)),
        Service::Datrd => datrd(job, ac, shared),
        Service::Datwr => datwr(job, ac, shared),
        Service::Input(awaited, skips) => {
            let reading = Reading { awaited, skips, e };
            return ended(input(number, reading, job, lines, cores));
        }
        Service::Outchr => return ended(outchr(number, job, e, lines, cores)),
        Service::Outstr => return ended(outstr(number, job, e, lines, cores)),
        Service::Clrbfi => lines.clear_input(job.line),
        Service::Clrbfo => lines.clear_output(job.line),
        Service::Skpin(awaited) => skpin(awaited, job, lines),
        Service::Unlisted => stop_at(job, StopReason::IllegalInstruction),
    }
    ended(CallOutcome::Done)
}

/// Takes a job away, as LOGOUT does: its requests leave, and its core is free; where it was current, nothing
/// is left of the quantum. The characters of its line stay.
pub fn remove_job<L: LockTable, C: CoreStore>(
    number: u8,
    table: &mut JobTable,
    locks: &mut L,
    cores: &mut C,
)
    requires { IsJob number }
    ensures table { table.new ≡ table_without table.old number }
    ensures requests { L.requests locks.new ≡ released (L.requests locks.old) number }
    ensures cores { C.meaning cores.new ≡ given (C.meaning cores.old) number }
{
    table.remove(number);
    locks.release(number);
    cores.give(number);
}

/// Performs a monitor call of a job that is there and has core, and whose PC is already at the next
/// instruction (TOPS-10 Monitor Calls Manual, in this project's profile).
///
/// Calls: CALLI RESET 0, CORE 11, EXIT 12, LOGOUT 17, MSTIME 23, PJOB 30, SLEEP 31, PIINI. 135, PISYS.
/// 136, DEBRK. 137, ENQ. 151, DEQ. 152, ENQC. 153, DATRD. -2 and DATWR. -3 octal, and TTCALL functions
/// 0 to 5 and 11 to 14 octal. A refused call puts its code in AC, does not skip and changes nothing else,
/// except that a request of ENQ. 2 that is not granted at once stays. Any other call stops the job as an
/// illegal instruction, and a call with an illegal address stops it for that; both put the PC back and
/// change nothing else. Nothing takes memory: a call that names locks reads them into `room`, and what it
/// leaves there means nothing. It is not inlined, so that a step without a call is short.
#[inline(never)]
pub fn perform<L: LockTable, C: CoreStore>(
    number: u8,
    call: MonitorCall,
    table: &mut JobTable,
    lines: &mut Lines,
    locks: &mut L,
    cores: &mut C,
    shared: &mut [Word; DATA_WORDS],
    room: &mut CallRoom,
    time: TimeOfDay,
) -> CallEnd
    requires number { IsJob number }
    requires there { IsSome (job_at table.old.jobs number) }
    requires core { core_of (C.meaning cores.old) number ≢ [] }
    ensures performed { record {
      world = record {
        size = L.REQS;
        table = table.new;
        lines = lines.new;
        requests = L.requests locks.new;
        cores = C.meaning cores.new;
        shared = shared.new;
      };
      outcome = result.outcome;
    }
        ≡ performed (record {
          size = L.REQS;
          table = table.old;
          lines = lines.old;
          requests = L.requests locks.old;
          cores = C.meaning cores.old;
          shared = shared.old;
        }) time number call }
    ensures reply { result.reply
        ≡ reply_to (record {
          size = L.REQS;
          table = table.old;
          lines = lines.old;
          requests = L.requests locks.old;
          cores = C.meaning cores.old;
          shared = shared.old;
        }) number call }
{
    let MonitorCall { kind, ac, e } = call;
    let service = service_of(kind, ac, e);
    let quota = quota_asked(service, number, ac, &table.jobs);
    let end = match &mut table.jobs[number as usize] {
        Some(job) => {
            let call = JobCall {
                service,
                time,
                number,
                ac,
                e,
                quota,
            };
            let end = carry_out(call, job, lines, locks, cores, shared, room);
            table.sleepers |= job.is_asleep();
            end
        }
        None => return ended(CallOutcome::Gone),
    };
    if matches!(end.outcome, CallOutcome::Gone) {
        remove_job(number, table, locks, cores);
    }
    end
}
