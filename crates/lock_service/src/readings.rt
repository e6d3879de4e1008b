//! What is read of the service.
ghost use Rattle.std.specs.Prelude.{◌≡◌, ◌≤◌, ◌++◌, if◌then◌else◌, length, drop, slice_get};
ghost use Rattle.word36.specs.declared.sizes.TheConstants.{JOBS, NAME_LENGTH};
ghost use Rattle.lock_queue.specs.Waits.{is_in_circle};
ghost use Rattle.lock_queue.specs.Jobs.{is_waiting_job, waits_for};
ghost use Rattle.lock_queue.specs.Names.{filled_up};
ghost use Rattle.lock_queue.specs.declared.terms.BlockUse.TheVariants.{Named};
ghost use Rattle.lock_service.specs.declared.codes.TheConstants.{OK, WAITS};
ghost use Rattle.lock_service.specs.Readings.{weight, shown_status, status_code, status_over, code_at, over, shown_grant, shown_request, kind_number, want_in, shown_want, circle_code};
ghost use Rattle.lock_service.specs.Served.{requests_of};
ghost use Rattle.lock_service.specs.Spelled.{want_of};

use crate::codes::{BAD_JOB, NOT_THERE, OK, WAITS};
use crate::locks::Locks;
use crate::spelling::{BYPASS, CODE, LockTerms, OWN, SHARED};
use lock_queue::{BlockUse, EnqueueKind, LockTable, Name, Scope, Status, Want};
use lock_table::ProgramTable;
use wait_graph::{is_in_circle, pair_table, waiting_jobs};
use word36::JOBS;

/// The status of a lock, for the job that asks.
#[repr(C)]
#[derive(Clone, Copy)]
pub struct LockStatus {
    /// 1 the job owns it, 2 the job waits for it, 4 it is owned exclusively without a pool; added.
    pub flags: u32,
    /// The level that all present wants of it have, 0 where there are none.
    pub level: u32,
    /// The job of its first owner, or 0.
    pub first_owner: u32,
    /// How many requests own it.
    pub owners: u32,
    /// How many requests wait for it.
    pub waiters: u32,
    /// How much of its pool the owners have.
    pub amount: u32,
}

/// A request that the last call granted.
#[repr(C)]
#[derive(Clone, Copy)]
pub struct LockGrant {
    /// Whose it is.
    pub job: u32,
    /// The number that the job gave it.
    pub id: u32,
}

/// A request in the list.
#[repr(C)]
#[derive(Clone, Copy)]
pub struct LockRequest {
    /// Whose it is.
    pub job: u32,
    /// The number that the job gave it.
    pub id: u32,
    /// 0 it waits for its grant, 1 it is granted at once or not at all, 2 the job does not wait for its grant.
    pub kind: u32,
    /// 1 it is granted, 2 its job was notified; added.
    pub flags: u32,
    /// How many locks it wants.
    pub wants: u32,
}

/// A flag of this weight.
fn weight(n: u32, flag: bool) -> u32
    ensures { result ≡ weight n flag }
{
    if flag { n } else { 0 }
}

/// A status as C sees it.
fn shown_status(status: &Status) -> LockStatus
    ensures { result ≡ shown_status status.now }
{
    let flags = weight(1, status.owns) + weight(2, status.waits) + weight(4, status.exclusive);
    LockStatus {
        flags,
        level: u32::from(status.level.number()),
        first_owner: u32::from(status.first_owner.unwrap_or(0)),
        owners: u32::from(status.owner_count),
        waiters: u32::from(status.waiter_count),
        amount: status.amount,
    }
}

/// The number of a kind.
fn kind_number(kind: EnqueueKind) -> u32
    ensures { result ≡ kind_number kind }
{
    match kind {
        EnqueueKind::Blocking => 0,
        EnqueueKind::AtOnce => 1,
        EnqueueKind::Interrupt => 2,
    }
}

/// The bytes of a name, with zero bytes behind them.
fn filled_up(text: &str) -> [u8; 32]
    requires { length text.now ≤ NAME_LENGTH }
    ensures { result ≡ filled_up text.now }
{
    let text = text.as_bytes();
    let mut bytes = [0; 32];
    bytes[..text.len()].copy_from_slice(text);
    bytes
}

/// A want as a call spells it.
fn shown_want(want: &Want) -> LockTerms
    ensures { result ≡ shown_want want.now }
{
    let own = match want.key.scope {
        Scope::All => 0,
        Scope::Job(_) => OWN,
    };
    let (pool_size, pool_amount) = match &want.pool {
        Some(pool) => {
            let pool = pool.copied();
            (pool.size(), pool.amount())
        }
        None => (0, 0),
    };
    let terms = LockTerms {
        name: [0; 32],
        code: 0,
        flags: weight(SHARED, want.shared) + weight(BYPASS, want.bypass) + own,
        length: 0,
        level: u32::from(want.level.copied().number()),
        group: want.group.copied().number(),
        pool_size,
        pool_amount,
    };
    match &want.key.name {
        Name::Text(text) => {
            let text = text.as_str();
            LockTerms {
                name: filled_up(text),
                length: text.len() as u32,
                ..terms
            }
        }
        Name::Code(code) => {
            LockTerms {
                code: code.number(),
                flags: terms.flags + CODE,
                ..terms
            }
        }
    }
}

/// Whether a walk of waits leads from a job back to it.
fn is_circling(table: &ProgramTable, job: u8) -> bool
    requires { job ≤ JOBS }
    ensures { result ≡ is_in_circle (waits_for table.now.requests) job }
{
    let waiting = waiting_jobs(table);
    let pairs = pair_table(table, &waiting);
    let number = job as usize;
    is_in_circle(&pairs, &waiting, number)
}

impl Locks {
    /// How many grants the last call made.
    pub fn grants(&self) -> usize
        ensures { result ≡ length self.now.woken.items }
    {
        self.woken.len()
    }

    /// Writes one of them, in order of arrival.
    pub fn grant(&self, i: usize, out: &mut LockGrant) -> u32
        ensures code { result ≡ code_at (slice_get self.now.woken.items i) }
        ensures out { out.new ≡ over shown_grant out.old (slice_get self.now.woken.items i) }
    {
        if i >= self.woken.len() {
            return NOT_THERE;
        }
        let grant = self.woken[i];
        *out = LockGrant {
            job: u32::from(grant.job),
            id: grant.id.number(),
        };
        OK
    }

    /// Writes the status of a lock, for the job that asks.
    pub fn status(&self, job: u8, lock: &LockTerms, out: &mut LockStatus) -> u32
        ensures code { result ≡ status_code (want_of Named job lock.now) }
        ensures out { out.new ≡ status_over (requests_of self.now) job out.old (want_of Named job lock.now) }
    {
        match lock.want(BlockUse::Named, job) {
            Ok(want) => {
                *out = shown_status(&self.table.status(&want.key, job));
                OK
            }
            Err(refusal) => u32::from(refusal.code()),
        }
    }

    /// Whether a job waits: `WAITS` or `OK`.
    pub fn waiting(&self, job: u8) -> u32
        ensures { result ≡ (if is_waiting_job (requests_of self.now) job then WAITS else OK) }
    {
        if self.table.is_waiting(job) {
            WAITS
        } else {
            OK
        }
    }

    /// Whether one job waits for another: `WAITS` or `OK`.
    pub fn waits_for(&self, job: u8, other: u8) -> u32
        ensures { result ≡ (if waits_for (requests_of self.now) job other then WAITS else OK) }
    {
        if self.table.waits_for(job, other) {
            WAITS
        } else {
            OK
        }
    }

    /// Whether a walk of waits leads from a job back to it: `WAITS` or `OK`, or `BAD_JOB`.
    pub fn in_circle(&self, job: u8) -> u32
        ensures { result ≡ circle_code (requests_of self.now) job }
    {
        if job < 1 || job > JOBS {
            return BAD_JOB;
        }
        if is_circling(&self.table, job) {
            WAITS
        } else {
            OK
        }
    }

    /// How many requests there are.
    pub fn len(&self) -> usize
        ensures { result ≡ length (requests_of self.now) }
    {
        self.table.len()
    }

    /// Writes the request at a place of the list.
    pub fn request(&self, i: usize, out: &mut LockRequest) -> u32
        ensures code { result ≡ code_at (slice_get (requests_of self.now) i) }
        ensures out { out.new ≡ over (shown_request (requests_of self.now) i) out.old (slice_get (requests_of self.now) i) }
    {
        if i >= self.table.len() {
            return NOT_THERE;
        }
        let granted = self.table.granted(i);
        let request = self.table.request(i);
        *out = LockRequest {
            job: u32::from(request.job),
            id: request.id.number(),
            kind: kind_number(request.kind),
            flags: weight(1, granted) + weight(2, request.notified),
            wants: request.wants.len() as u32,
        };
        OK
    }

    /// Writes a want of the request at a place of the list.
    pub fn want(&self, i: usize, k: usize, out: &mut LockTerms) -> u32
        ensures code { result ≡ code_at (want_in (slice_get (requests_of self.now) i) k) }
        ensures out { out.new ≡ over shown_want out.old (want_in (slice_get (requests_of self.now) i) k) }
    {
        if i >= self.table.len() {
            return NOT_THERE;
        }
        let request = self.table.request(i);
        if k >= request.wants.len() {
            return NOT_THERE;
        }
        *out = shown_want(&request.wants[k]);
        OK
    }
}
