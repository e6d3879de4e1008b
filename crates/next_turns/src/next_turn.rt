//! The next turn of a job, found without taking it.
ghost use Rattle.std.specs.Prelude.{◌≡◌, ◌==◌};
ghost use Rattle.std.specs.List.{list_any};
ghost use Rattle.ka_cpu.specs.Exec.{exec};
ghost use Rattle.core_store.specs.Cores.{IsJob, core_of};
ghost use Rattle.lock_queue.specs.StatusWords.{has_job};
ghost use Rattle.job_sched.specs.Limits.{limit_of};
ghost use Rattle.job_sched.specs.Tables.{job_at};
ghost use Rattle.job_order_laws.specs.Erased.{limit_in};
ghost use Rattle.job_order_laws.specs.Noticed.{gives_back, is_noticed, is_noticed_call, is_noticed_outcome, is_shared, is_untold};
ghost use Rattle.job_order_laws.specs.Ticked.{is_clock};
ghost use Rattle.job_moves.specs.Moves.{has_limit, is_clock_outcome, reads_clock};
ghost use Rattle.next_turns.specs.Calls.{next_service};

use core_store::CoreStore;
use job_sched::{Job, JobTable, Wait};
use ka_cpu::next_call;
use lock_queue::{EnqueueKind, LockTable, Request};
use monitor::JobWords;
use uuo_calls::{Service, World, service_of};

/// Whether a request is to interrupt job n, and it was not notified of its grant.
fn is_untold(r: &Request, n: u8) -> bool
    ensures { result ≡ is_untold n r.now }
{
    r.job == n && matches!(r.kind, EnqueueKind::Interrupt) && !r.notified
}

/// Whether a job has such a request.
fn has_untold<L: LockTable>(locks: &L, n: u8) -> bool
    ensures { result ≡ list_any (is_untold n) (L.requests locks.now) }
{
    for i in 0..locks.len() {
        let r = locks.request(i);
        if is_untold(r, n) {
            return true;
        }
    }
    false
}

/// Whether a request is of job n.
fn is_of(r: &Request, n: u8) -> bool
    ensures { result ≡ (r.now.job == n) }
{
    r.job == n
}

/// Whether a job has requests.
fn has_requests<L: LockTable>(locks: &L, n: u8) -> bool
    ensures { result ≡ has_job (L.requests locks.now) n }
{
    for i in 0..locks.len() {
        let r = locks.request(i);
        if is_of(r, n) {
            return true;
        }
    }
    false
}

/// Whether a call reads or changes what is not its job's own.
fn is_shared(service: Service) -> bool
    ensures { result ≡ is_shared service }
{
    matches!(
        service,
        Service::Core
            | Service::Logout
            | Service::Enq
            | Service::Deq
            | Service::Enqc
            | Service::Datrd
            | Service::Datwr
    )
}

/// Whether a call gives the job's requests back.
fn gives_back(service: Service) -> bool
    ensures { result ≡ gives_back service }
{
    matches!(service, Service::Reset | Service::Exit)
}

/// The service of the call that a job's next instruction makes, if it makes one.
fn next_service<C: CoreStore>(n: u8, job: &Job, cores: &C) -> Option<Service>
    requires { IsJob n }
    ensures { result ≡ next_service job.now (core_of (C.meaning cores.now) n) }
{
    match next_call(&job.regs, &JobWords::new(cores, n)) {
        Some((kind, ac, e)) => Some(service_of(kind, ac, e)),
        None => None,
    }
}

/// Whether others can notice a call of job n.
fn is_noticed_call<L: LockTable>(service: Service, n: u8, locks: &L) -> bool
    ensures { result ≡ is_noticed_call (has_job (L.requests locks.now) n) service }
{
    is_shared(service) || gives_back(service) && has_requests(locks, n)
}

/// Whether others can notice the next instruction of job n.
fn is_noticed_next<L: LockTable, C: CoreStore>(n: u8, job: &Job, locks: &L, cores: &C) -> bool
    requires { IsJob n }
    ensures { result ≡ is_noticed_outcome (has_job (L.requests locks.now) n) (exec job.now.regs (core_of (C.meaning cores.now) n)).outcome }
{
    match next_service(n, job, cores) {
        Some(service) => is_noticed_call(service, n, locks),
        None => false,
    }
}

/// Whether a call reads the time of day.
fn is_clock(service: Service) -> bool
    ensures { result ≡ is_clock service }
{
    matches!(service, Service::Mstime)
}

/// Whether the next instruction of job n reads the time of day.
fn is_clock_next<C: CoreStore>(n: u8, job: &Job, cores: &C) -> bool
    requires { IsJob n }
    ensures { result ≡ is_clock_outcome (exec job.now.regs (core_of (C.meaning cores.now) n)).outcome }
{
    match next_service(n, job, cores) {
        Some(service) => is_clock(service),
        None => false,
    }
}

/// Whether others can notice the next turn of job n.
pub fn is_noticed<L: LockTable, C: CoreStore>(world: &World<L, C>, n: u8) -> bool
    requires { IsJob n }
    ensures { result ≡ is_noticed world.now n }
{
    let Some(job) = world.table.job(n) else {
        return false;
    };
    job.takes_interrupts() && has_untold(&world.locks, n)
        || is_noticed_next(n, job, &world.locks, &world.cores)
}

/// Whether the next instruction of job n reads the time of day.
pub fn reads_clock<L: LockTable, C: CoreStore>(world: &World<L, C>, n: u8) -> bool
    requires { IsJob n }
    ensures { result ≡ reads_clock world.now n }
{
    match world.table.job(n) {
        Some(job) => is_clock_next(n, job, &world.cores),
        None => false,
    }
}

/// The limit of a wait, 0 if it has none.
fn limit_of(wait: Wait) -> u32
    ensures { result ≡ limit_of wait }
{
    match wait {
        Wait::Queue(limit, _) => limit,
        Wait::None | Wait::Sleep(_) | Wait::Char | Wait::Line | Wait::Room(_) => 0,
    }
}

/// The limit of the wait of job n, 0 if it has none.
fn limit_at(table: &JobTable, n: u8) -> u32
    ensures { result ≡ limit_in (job_at table.now.jobs n) }
{
    match table.job(n) {
        Some(job) => limit_of(job.wait),
        None => 0,
    }
}

/// Whether a limit counts for job n: it waits for a grant, and not for ever.
pub fn has_limit<L: LockTable, C: CoreStore>(world: &World<L, C>, n: u8) -> bool
    ensures { result ≡ has_limit world.now n }
{
    world.locks.is_waiting(n) && limit_at(&world.table, n) > 0
}
