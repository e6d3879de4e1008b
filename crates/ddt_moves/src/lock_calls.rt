//! Jobs that stand before a call on a lock.

ghost use Rattle.std.specs.Prelude.{◌≡◌};
ghost use Rattle.std.specs.List.{list_any};
ghost use Rattle.ddt_moves.specs.LockCalls.{gives_up, gives_up_lock, has_name, is_on, stands_before};

use concrete_machine::Machine;
use lock_queue::{Name, Request, Want};
use uuo_calls::{Asked, BlockRoom, LockService};

/// Whether one of these wants is for a lock of this name.
fn has_name(wants: &[Want], name: &Name) -> bool
    ensures { result ≡ has_name name.now wants.now }
{
    wants.iter().any(|want| want.key.name.is_same(name))
}

/// Whether a call gives up this request, of its job, by another way than by its locks.
fn gives_up(asked: &Asked, request: &Request) -> bool
    ensures { result ≡ gives_up asked.now request.now }
{
    match (asked.service, asked.word.left()) {
        (LockService::Deq, 1) => true,
        (LockService::Deq, 2) => request.id.number() == asked.word.right(),
        _ => false,
    }
}

/// Whether a call of a job gives up this request, and the request wants a lock of this name.
fn gives_up_lock(asked: &Asked, job: u8, request: &Request, name: &Name) -> bool
    ensures { result ≡ gives_up_lock asked.now job name.now request.now }
{
    request.job == job && gives_up(asked, request) && has_name(request.wants.as_slice(), name)
}

/// Whether a call of a job gives up a request that wants a lock of this name.
fn gives_up_some(machine: &Machine, asked: &Asked, job: u8, name: &Name) -> bool
    ensures { result ≡ list_any (gives_up_lock asked.now job name.now) machine.now.world.requests }
{
    for i in 0..machine.request_count() {
        if gives_up_lock(asked, job, machine.request(i), name) {
            return true;
        }
    }
    false
}

/// Whether a call of a job, whose block is in `room`, is on a lock of this name: it names the lock, or gives up a request that
/// wants it.
fn is_on(machine: &Machine, job: u8, asked: &Asked, name: &Name, room: &mut BlockRoom) -> bool
    ensures { result ≡ is_on name.now machine.now job asked.now room.old }
{
    match room.take() {
        Some(Ok(block)) => has_name(block.wants.as_slice(), name),
        Some(Err(_)) => false,
        None => gives_up_some(machine, asked, job, name),
    }
}

/// Whether a job, which is not stopped, stands before a call on a lock of this name: its next instruction is one, also by XCT and
/// indirect words. What stands in `room` behind it means nothing.
pub fn stands_before(machine: &Machine, job: u8, name: &Name, room: &mut BlockRoom) -> bool
    ensures { result ≡ stands_before name.now machine.now job }
{
    match machine.job(job) {
        Some(view) if view.stop.is_none() => match machine.asked_next(job, room) {
            Some(asked) => is_on(machine, job, &asked, name, room),
            None => false,
        },
        _ => false,
    }
}
