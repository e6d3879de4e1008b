//! The commands of a script on the lock queue.
ghost use Rattle.std.specs.Prelude.{◌≡◌, ◌<◌, ◌^◌, None, is_some, IfSome, MatchOption};
ghost use Rattle.queue_script.specs.Borrowed.{owned_call, owned_of, owned_command};
ghost use Rattle.queue_script.specs.Commands.{job_of, call_by, enqueue_call, dequeue_call, unknown_call, enqueue_of, dequeue_of};
ghost use Rattle.queue_script.specs.Commands.{status_of_items, free_of, bare, command_of_items, command_of};
ghost use Rattle.queue_script.specs.Locks.{locks_of};
ghost use Rattle.script_io.specs.Numbers.{front, IsFront, parts};
ghost use Rattle.queue_script.specs.Options.{half_of};

use crate::call_room::{CallRoom, ReadCall};
use crate::locks::read_lock;
use crate::options::next_half;
use lock_queue::{EnqueueKind, LockCall, Refusal, RequestId, Wants};
use script_io::{LINE_LENGTH, Parts, is_allowed, is_silent};
use word36::JOBS;

/// The command of a line. The locks that it names stand in the room that it was read into.
#[derive(Clone, Copy)]
pub enum Command<'a> {
    /// Nothing: the line is empty or a comment.
    Nothing,
    /// ENQ or DEQ of a job: its call.
    Call(u8, &'a LockCall),
    /// ENQ or DEQ of a job whose call is refused before it is made, and why.
    Refused(u8, Refusal),
    /// STAT: the status of these locks for a job, or why there is none.
    Status(u8, Result<&'a Wants, Refusal>),
    /// FREE: all requests of a job leave.
    Free(u8),
    /// SHOW: the requests.
    Show,
    /// WAITS: who waits for whom.
    Waits,
    /// QUIT: the script ends.
    Quit,
}

/// Takes a job's number, 1 to 63, from the front of the items.
#[inline(always)]
fn next_job(items: &mut Parts<'_>) -> Option<u8>
    ensures { MatchOption result (front job_of items.old ≡ None) (λ job. IsFront job_of job items.old items.new) }
{
    let job = items.next_number(u64::from(JOBS))?;
    if job == 0 { None } else { Some(job as u8) }
}

/// Whether all items are locks.
fn are_locks(mut items: Parts<'_>) -> bool
    ensures { result ≡ is_some (locks_of items.entry) }
{
    while let Some(item) = items.next() {
        match read_lock(item) {
            Some(_) => {}
            None => return false,
        }
    }
    true
}

/// The call of an unknown function: it is refused, whatever its locks.
fn unknown_call<'a>(items: Parts<'_>) -> ReadCall<'a>
    ensures { owned_call result ≡ unknown_call items.entry }
{
    if are_locks(items) {
        ReadCall::Refused(Refusal::NoFunction)
    } else {
        ReadCall::NoCall
    }
}

/// The call of ENQ with this function.
#[inline(always)]
fn enqueue_call<'a>(
    room: &'a mut CallRoom,
    function: u32,
    id: RequestId,
    job: u8,
    items: Parts<'_>,
) -> ReadCall<'a>
    ensures { owned_call result ≡ enqueue_call function id job items.entry }
{
    match function {
        0 => room.request(EnqueueKind::Blocking, id, job, items),
        1 => room.request(EnqueueKind::AtOnce, id, job, items),
        2 => room.request(EnqueueKind::Interrupt, id, job, items),
        3 => room.change(job, items),
        _ => unknown_call(items),
    }
}

/// The command for a call of this job.
#[inline(always)]
fn call_of<'a>(job: u8, asked: ReadCall<'a>) -> Option<Command<'a>>
    ensures { owned_command result ≡ call_by job (owned_call asked.entry) }
{
    match asked {
        ReadCall::NoCall => None,
        ReadCall::Call(call) => Some(Command::Call(job, call)),
        ReadCall::Refused(refusal) => Some(Command::Refused(job, refusal)),
    }
}

/// What follows ENQ.
#[inline(always)]
fn read_enqueue<'a>(room: &'a mut CallRoom, mut items: Parts<'_>) -> Option<Command<'a>>
    ensures { owned_command result ≡ enqueue_of items.entry }
{
    let job = next_job(&mut items)?;
    let function = next_half(&mut items)?;
    let id = RequestId::new(next_half(&mut items)?);
    call_of(job, enqueue_call(room, function, id, job, items))
}

/// The call of DEQ with this function.
#[inline(always)]
fn dequeue_call<'a>(
    room: &'a mut CallRoom,
    function: u32,
    job: u8,
    items: Parts<'_>,
) -> ReadCall<'a>
    ensures { owned_call result ≡ dequeue_call function job items.entry }
{
    match function {
        0 => room.release(job, items),
        1 => room.release_all(items),
        2 => room.release_id(items),
        _ => unknown_call(items),
    }
}

/// What follows DEQ.
#[inline(always)]
fn read_dequeue<'a>(room: &'a mut CallRoom, mut items: Parts<'_>) -> Option<Command<'a>>
    ensures { owned_command result ≡ dequeue_of items.entry }
{
    let job = next_job(&mut items)?;
    let function = next_half(&mut items)?;
    call_of(job, dequeue_call(room, function, job, items))
}

/// What follows STAT.
#[inline(always)]
fn read_status<'a>(room: &'a mut CallRoom, mut items: Parts<'_>) -> Option<Command<'a>>
    ensures { owned_command result ≡ status_of_items items.entry }
{
    let job = next_job(&mut items)?;
    let keys = room.keys(job, items)?;
    Some(Command::Status(job, keys))
}

/// What follows FREE.
fn read_free<'a>(mut items: Parts<'_>) -> Option<Command<'a>>
    ensures { owned_command result ≡ free_of items.entry }
{
    let job = next_job(&mut items)?;
    if !items.is_empty() {
        return None;
    }
    Some(Command::Free(job))
}

/// A command that stands alone.
fn bare<'a>(command: Command<'a>, items: Parts<'_>) -> Option<Command<'a>>
    ensures { owned_command result ≡ bare (owned_of command.entry) items.entry }
{
    if items.is_empty() {
        Some(command)
    } else {
        None
    }
}

/// The command of a line's items.
fn read_items<'a>(room: &'a mut CallRoom, mut items: Parts<'_>) -> Option<Command<'a>>
    ensures { owned_command result ≡ command_of_items items.entry }
{
    let name = items.next()?;
    if name == b"ENQ".as_slice() {
        read_enqueue(room, items)
    } else if name == b"DEQ".as_slice() {
        read_dequeue(room, items)
    } else if name == b"STAT".as_slice() {
        read_status(room, items)
    } else if name == b"FREE".as_slice() {
        read_free(items)
    } else if name == b"SHOW".as_slice() {
        bare(Command::Show, items)
    } else if name == b"WAITS".as_slice() {
        bare(Command::Waits, items)
    } else if name == b"QUIT".as_slice() {
        bare(Command::Quit, items)
    } else {
        None
    }
}

/// The command of a line. The three names that most lines begin with are tried first.
#[tactic(auto, using(crate::proofs::WordLemmas::command_words))]
fn read_line<'a>(room: &'a mut CallRoom, line: &[u8]) -> Option<Command<'a>>
    ensures { owned_command result ≡ command_of_items (parts 32 line.now) }
{
    if let [b'E', b'N', b'Q', b' ', items @ ..] = line {
        return read_enqueue(room, Parts::of(items, b' '));
    }
    if let [b'D', b'E', b'Q', b' ', items @ ..] = line {
        return read_dequeue(room, Parts::of(items, b' '));
    }
    if let [b'S', b'T', b'A', b'T', b' ', items @ ..] = line {
        return read_status(room, Parts::of(items, b' '));
    }
    read_items(room, Parts::of(line, b' '))
}

/// The command of a line, if the line is in the grammar. The locks that it names stand in the room, whatever stood there
/// before. Only a line that does nothing is tested for ASCII, since whatever spells a command is ASCII.
#[tactic(auto, unfolding(crate::specs::Commands::command_of))]
pub fn read_command<'a>(room: &'a mut CallRoom, line: &[u8]) -> Option<Command<'a>>
    ensures { owned_command result ≡ command_of line.now }
{
    if is_silent(line) {
        return if is_allowed(line) {
            Some(Command::Nothing)
        } else {
            None
        };
    }
    if line.len() > LINE_LENGTH {
        return None;
    }
    read_line(room, line)
}
