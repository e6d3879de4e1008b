//! The service: a lock table, and the grants of its last call.
ghost use Rattle.std.specs.Prelude.{◌≡◌, ◌≤◌, ◌&&◌, [], Ok, IfOk, IsTrue};
ghost use Rattle.word36.specs.declared.sizes.TheConstants.{JOBS};
ghost use Rattle.lock_queue.specs.WellFormed.{names_locks, all_share_rightly};
ghost use Rattle.lock_queue.specs.declared.call.LockCall.TheVariants.{DequeueAll};
ghost use Rattle.lock_service.specs.Effects.{barred, call_effect, job_effect, enqueue_call, modify_call, dequeue_call, dequeue_id_call, release_effect, withdraw_effect};
ghost use Rattle.lock_service.specs.Served.{shown, requests_of};

use crate::codes::{BAD_JOB, BUSY, OK, reply_code};
use crate::filling::{fill_change, fill_release, fill_request};
use crate::spelling::LockTerms;
use lock_queue::{LockCall, LockTable, Refusal, RequestId, Woken};
use lock_table::ProgramTable;
use std::alloc::{AllocError, Global};
use word36::JOBS;

/// A lock table, the grants of its last call, and room for calls.
#[derive(Drop)]
pub struct Locks {
    pub(crate) table: ProgramTable,
    pub(crate) woken: Woken,
    request: LockCall,
    change: LockCall,
    release: LockCall,
}

/// Makes a job's call, and fills in the grants that it makes.
#[inline(always)]
fn make_call(table: &mut ProgramTable, woken: &mut Woken, job: u8, call: &LockCall) -> u32
    requires job { (1 ≤ job) × (job ≤ JOBS) }
    requires right { IsTrue (names_locks call.now && all_share_rightly call.now) }
    ensures requests { table.new.requests ≡ (call_effect job (Ok call.now) table.old.requests).requests }
    ensures grants { woken.new.items ≡ (call_effect job (Ok call.now) table.old.requests).grants }
    ensures code { result ≡ (call_effect job (Ok call.now) table.old.requests).code }
{
    reply_code(table.call_waking(job, call, woken))
}

/// The release of an id, which has 18 bits.
fn id_call(id: u32) -> Result<LockCall, Refusal>
    ensures call { result ≡ dequeue_id_call id }
    ensures right { IfOk result (λ call. IsTrue (names_locks call && all_share_rightly call)) }
{
    if id >= 1 << 18 {
        return Err(Refusal::BadBlock);
    }
    Ok(LockCall::DequeueId(RequestId::new(id)))
}

impl Locks {
    /// A service with no request, for at most 1,024.
    pub fn new(alloc: Global) -> Result<Locks, AllocError>
        ensures { IfOk result (λ locks. requests_of locks ≡ []) }
    {
        let table = ProgramTable::new(alloc)?;
        Ok(Locks {
            table,
            woken: Woken::new(),
            request: LockCall::DequeueAll,
            change: LockCall::DequeueAll,
            release: LockCall::DequeueAll,
        })
    }

    /// Why a job can make no call now, if so.
    #[inline(always)]
    fn barred(&self, job: u8) -> Option<u32>
        ensures { result ≡ barred job (requests_of self.now) }
    {
        if job < 1 || job > JOBS {
            return Some(BAD_JOB);
        }
        if self.table.is_waiting(job) {
            return Some(BUSY);
        }
        None
    }

    /// Asks for locks, all together.
    pub fn enqueue(&mut self, job: u8, kind: u32, id: u32, quota: u16, terms: &[LockTerms]) -> u32
        ensures { shown self.new result ≡ job_effect job (enqueue_call job kind id quota terms.now) (requests_of self.old) }
    {
        self.woken.clear();
        if let Some(code) = self.barred(job) {
            return code;
        }
        match fill_request(&mut self.request, kind, id, quota, job, terms) {
            Ok(()) => make_call(&mut self.table, &mut self.woken, job, &self.request),
            Err(refusal) => u32::from(refusal.code()),
        }
    }

    /// Makes wants of a job shared or exclusive.
    pub fn modify(&mut self, job: u8, terms: &[LockTerms]) -> u32
        ensures { shown self.new result ≡ job_effect job (modify_call job terms.now) (requests_of self.old) }
    {
        self.woken.clear();
        if let Some(code) = self.barred(job) {
            return code;
        }
        match fill_change(&mut self.change, job, terms) {
            Ok(()) => make_call(&mut self.table, &mut self.woken, job, &self.change),
            Err(refusal) => u32::from(refusal.code()),
        }
    }

    /// Gives up the wants of these locks.
    pub fn dequeue(&mut self, job: u8, terms: &[LockTerms]) -> u32
        ensures { shown self.new result ≡ job_effect job (dequeue_call job terms.now) (requests_of self.old) }
    {
        self.woken.clear();
        if let Some(code) = self.barred(job) {
            return code;
        }
        match fill_release(&mut self.release, job, terms) {
            Ok(()) => make_call(&mut self.table, &mut self.woken, job, &self.release),
            Err(refusal) => u32::from(refusal.code()),
        }
    }

    /// Gives up all wants.
    pub fn dequeue_all(&mut self, job: u8) -> u32
        ensures { shown self.new result ≡ job_effect job (Ok DequeueAll) (requests_of self.old) }
    {
        self.woken.clear();
        if let Some(code) = self.barred(job) {
            return code;
        }
        make_call(&mut self.table, &mut self.woken, job, &LockCall::DequeueAll)
    }

    /// Gives up the requests of an id.
    pub fn dequeue_id(&mut self, job: u8, id: u32) -> u32
        ensures { shown self.new result ≡ job_effect job (dequeue_id_call id) (requests_of self.old) }
    {
        self.woken.clear();
        if let Some(code) = self.barred(job) {
            return code;
        }
        match id_call(id) {
            Ok(call) => make_call(&mut self.table, &mut self.woken, job, &call),
            Err(refusal) => u32::from(refusal.code()),
        }
    }

    /// Removes all requests of a job, as when it is gone. It may wait.
    #[tactic(auto, unfolding(crate::specs::Effects::release_effect))]
    pub fn release(&mut self, job: u8) -> u32
        ensures { shown self.new result ≡ release_effect job (requests_of self.old) }
    {
        self.woken.clear();
        if job < 1 || job > JOBS {
            return BAD_JOB;
        }
        self.table.release_waking(job, &mut self.woken);
        OK
    }

    /// Removes the requests by which some jobs wait, all judged by the list before the first is removed: job `j` if
    /// the bit of weight 2^j is set.
    #[tactic(auto, unfolding(crate::specs::Effects::withdraw_effect))]
    pub fn withdraw(&mut self, jobs: u64) -> u32
        ensures { shown self.new result ≡ withdraw_effect jobs (requests_of self.old) }
    {
        self.woken.clear();
        self.table.withdraw_all_waking(jobs, &mut self.woken);
        OK
    }
}
