//! ENQC., and its functions 1 and 2, for the quota of a job: how many requests it may have.

ghost use Rattle.std.specs.Prelude.{◌≡◌, ◌≤◌, List, Option, Some, is_some, nat_le};
ghost use Rattle.core_store.specs.Cores.{IsJob, core_of};
ghost use Rattle.job_sched.specs.Tables.{job_at};
ghost use Rattle.job_sched.specs.declared.job.Job.{Job as JobView};
ghost use Rattle.uuo_calls.specs.declared.service.Service.TheVariants.{Enqc};
ghost use Rattle.word36.specs.Words.{right_half};
ghost use Rattle.word36.specs.declared.sizes.TheConstants.{MOST_REQUESTS};
ghost use Rattle.uuo_calls.specs.Asked.{done_if, enqc_reply};
ghost use Rattle.uuo_calls.specs.CallState.{ac_of};
ghost use Rattle.uuo_calls.specs.QuotaRows.{count, named_job, quota_at, quota_lowered, told_quota};
ghost use Rattle.uuo_calls.specs.StatusRow.{enqc};

use crate::returns::{refused, skip};
use crate::room::CallRoom;
use crate::service::Service;
use crate::status::tell_status;
use core_store::CoreStore;
use job_sched::Job;
use ka_state::Accumulator;
use lock_queue::{LockReply, LockTable, Refusal};
use word36::Word;

/// The number of the job that a job names: 0 names the job itself.
fn named_job(number: u8, named: u32) -> u32
    ensures { result ≡ named_job number named }
{
    if named == 0 { u32::from(number) } else { named }
}

/// The quota of a job, if it is there.
fn quota_at(jobs: &[Option<Job>], number: u32) -> Option<u16>
    ensures { result ≡ quota_at jobs.now number }
{
    match jobs.get(number as usize) {
        Some(Some(job)) => Some(job.quota),
        _ => None,
    }
}

/// The quota of the job that ENQC. names in its AC, if it is there; `None` for any other call.
pub(crate) fn quota_asked(
    service: Service,
    number: u8,
    ac: Accumulator,
    jobs: &[Option<Job>],
) -> Option<u16>
    ensures { service ≡ Enqc → (job : JobView) → job_at jobs.now number ≡ Some job
        → quota_at jobs.now (named_job number (right_half (ac_of job ac))) ≡ result }
{
    if !matches!(service, Service::Enqc) {
        return None;
    }
    match jobs.get(number as usize) {
        Some(Some(job)) => {
            let named = job.regs.ac[ac.index()].right();
            quota_at(jobs, named_job(number, named))
        }
        _ => None,
    }
}

/// How many requests a job has, granted or not.
fn count_requests<L: LockTable>(number: u32, locks: &L) -> u32
    ensures value { result ≡ count (L.requests locks.now) number }
    ensures few { result ≤ MOST_REQUESTS }
{
    let mut count = 0;
    for i in 0..locks.len() {
        if u32::from(locks.request(i).job) == number {
            count += 1;
        }
    }
    count
}

/// ENQC. 1: AC gets the quota of a job and how many requests that job has. The call is refused where there is
/// no such job.
fn tell_quota<L: LockTable>(
    number: u32,
    quota: Option<u16>,
    job: &mut Job,
    ac: Accumulator,
    locks: &L,
) -> LockReply
    ensures job { job.new ≡ told_quota (L.requests locks.now) number ac job.old quota }
    ensures reply { result ≡ done_if (is_some quota) }
{
    match quota {
        Some(quota) => {
            let count = count_requests(number, locks);
            job.regs.ac[ac.index()] = Word::join(u32::from(quota), count);
            skip(job);
            LockReply::Done
        }
        None => refused(job, ac, Refusal::NoSuchQuota),
    }
}

/// ENQC. 2: lowers the job's quota to the right half of AC. The call is refused where that is above the quota.
fn lower_quota(job: &mut Job, ac: Accumulator) -> LockReply
    ensures job { job.new ≡ quota_lowered ac job.old }
    ensures reply { result ≡ done_if (nat_le (right_half (ac_of job.old ac)) job.old.quota) }
{
    let quota = job.regs.ac[ac.index()].right();
    if quota <= u32::from(job.quota) {
        job.quota = quota as u16;
        skip(job);
        LockReply::Done
    } else {
        refused(job, ac, Refusal::NoSuchQuota)
    }
}

/// ENQC. with a function in the left half of AC. `quota` is that of the job that the right half names, if it
/// is there; 0 names the job itself.
///
/// Function 0 stores the status of each lock of the block at that address, three words each, from the address
/// in AC+1 on; its codes are 3 to 8 for the block, and 3 where an address of the answer is not legal.
/// Function 1 puts `quota,,present requests` of the named job into AC; its code is 18 where no such job
/// is there. Function 2 lowers the quota of the job to the right half of AC, which stays; its code is 18
/// where that is above the quota. The code is 2 for any other function. A refused call changes nothing
/// but its AC, and functions 1 and 2 store nothing in core.
pub(crate) fn enqc<L: LockTable, C: CoreStore>(
    number: u8,
    quota: Option<u16>,
    job: &mut Job,
    ac: Accumulator,
    locks: &L,
    cores: &mut C,
    room: &mut CallRoom,
) -> LockReply
    requires number { IsJob number }
    ensures reply { (jobs : List (Option JobView)) → quota_at jobs (named_job number (right_half (ac_of job.old ac))) ≡ quota
        → result ≡ enqc_reply jobs number ac job.old (core_of (C.meaning cores.old) number) }
    ensures row { (jobs : List (Option JobView)) → quota_at jobs (named_job number (right_half (ac_of job.old ac))) ≡ quota
        → record { job = job.new; cores = C.meaning cores.new } ≡ enqc jobs (L.requests locks.now) number ac job.old (C.meaning cores.old) }
{
    let word = job.regs.ac[ac.index()];
    match word.left() {
        1 => tell_quota(named_job(number, word.right()), quota, job, ac, locks),
        2 => lower_quota(job, ac),
        _ => tell_status(number, job, ac, locks, cores, room),
    }
}
