//! Scripts on the lock queue.
ghost use Rattle.std.specs.Prelude.{◌≡◌, ◌+◌, ◌^◌, ◌≤◌, ◌++◌, ◌∷◌};
ghost use Rattle.std.specs.Prelude.{[], ℕ, List, Ok, Err, false, OnOk, IfOk, IfErr, IsTrue};
ghost use Rattle.std.specs.Str.Lines.{lines};
ghost use Rattle.queue_script.specs.QueueScripts.{effect_of, call_effect, unless_busy, free_effect, statuses};
ghost use Rattle.queue_script.specs.QueueScripts.{status_text, show_text, transcript_of, transcript};
ghost use Rattle.queue_script.specs.WellFormed.{is_well_formed};
ghost use Rattle.queue_script.specs.Borrowed.{owned_command, lent};
ghost use Rattle.lock_queue.specs.WellFormed.{is_call};
ghost use Rattle.word36.specs.declared.sizes.TheConstants.{MOST_REQUESTS};
ghost use Rattle.script_io.specs.Endings.{script_fault, served_as};
ghost use Rattle.script_io.specs.Serves.{Serves, Blames};

use crate::call_room::CallRoom;
use crate::commands::{Command, read_command};
use crate::printing::{push_code, push_grants, push_reply, push_request, push_status};
use crate::wait_pairs::push_waits;
use lock_queue::{LockCall, LockTable, Refusal, Want, Wants, Woken};
use lock_table::ProgramTable;
use script_io::{
    ByteIn, ByteOut, Ending, LineService, LineSession, ServeError, push_fault, serve_script,
};
use std::alloc::{AllocError, Global};

/// Makes a call of a job that does not wait, and adds its answer and the grants that it causes.
#[tactic(auto, using(std::proofs::Common::append_assoc))]
fn make_call<L: LockTable>(
    table: &mut L,
    job: u8,
    call: &LockCall,
    woken: &mut Woken,
    out: &mut Vec<u8>,
) -> Result<(), AllocError>
    requires { IsTrue (is_call job call.now) }
    ensures requests { OnOk result (L.requests table.new ≡ (call_effect L.REQS (L.requests table.old) job (Ok call.now)).requests) }
    ensures text { OnOk result (out.new.items ≡ out.old.items ++ (call_effect L.REQS (L.requests table.old) job (Ok call.now)).text) }
{
    let reply = table.call_waking(job, call, woken);
    push_reply(out, reply)?;
    push_grants(out, woken.as_slice())
}

/// Makes a call of a job, or adds BUSY if the job waits.
fn call_unless_busy<L: LockTable>(
    table: &mut L,
    job: u8,
    call: &LockCall,
    woken: &mut Woken,
    out: &mut Vec<u8>,
) -> Result<(), AllocError>
    requires { IsTrue (is_call job call.now) }
    ensures requests { OnOk result (L.requests table.new
        ≡ (unless_busy (L.requests table.old) job (call_effect L.REQS (L.requests table.old) job (Ok call.now))).requests) }
    ensures text { OnOk result (out.new.items
        ≡ out.old.items ++ (unless_busy (L.requests table.old) job (call_effect L.REQS (L.requests table.old) job (Ok call.now))).text) }
{
    if table.is_waiting(job) {
        out.extend_from_slice(b"BUSY\n")?;
        return Ok(());
    }
    make_call(table, job, call, woken, out)
}

/// Adds why a call of a job is refused before it is made, or BUSY if the job waits.
fn refuse_unless_busy<L: LockTable>(
    table: &L,
    job: u8,
    refusal: Refusal,
    out: &mut Vec<u8>,
) -> Result<(), AllocError>
    ensures { OnOk result (out.new.items
        ≡ out.old.items ++ (unless_busy (L.requests table.now) job (call_effect L.REQS (L.requests table.now) job (Err refusal))).text) }
{
    if !table.is_waiting(job) {
        return push_code(out, refusal);
    }
    out.extend_from_slice(b"BUSY\n")?;
    Ok(())
}

/// Takes all requests of a job away, and adds the grants that this makes.
#[tactic(auto, using(std::proofs::Common::append_assoc))]
fn free<L: LockTable>(
    table: &mut L,
    job: u8,
    woken: &mut Woken,
    out: &mut Vec<u8>,
) -> Result<(), AllocError>
    ensures requests { OnOk result (L.requests table.new ≡ (free_effect (L.requests table.old) job).requests) }
    ensures text { OnOk result (out.new.items ≡ out.old.items ++ (free_effect (L.requests table.old) job).text) }
{
    table.release_waking(job, woken);
    out.extend_from_slice(b"OK\n")?;
    push_grants(out, woken.as_slice())
}

/// Adds a line for the key of each want.
fn push_statuses<L: LockTable>(
    out: &mut Vec<u8>,
    table: &L,
    job: u8,
    wants: &[Want],
) -> Result<(), AllocError>
    ensures { OnOk result (out.new.items ≡ out.old.items ++ statuses (L.requests table.now) job wants.now) }
{
    for want in wants {
        let status = table.status(&want.key, job);
        push_status(out, &status)?;
    }
    Ok(())
}

/// Adds the statuses of the keys of some wants for a job, or why there are none.
fn push_status_text<L: LockTable>(
    out: &mut Vec<u8>,
    table: &L,
    job: u8,
    wants: Result<&Wants, Refusal>,
) -> Result<(), AllocError>
    ensures { OnOk result (out.new.items ≡ out.old.items ++ status_text (L.requests table.now) job (lent wants.entry)) }
{
    match wants {
        Ok(wants) => push_statuses(out, table, job, wants.as_slice()),
        Err(refusal) => push_code(out, refusal),
    }
}

/// Adds the lines of all requests in order of arrival, and `END`.
#[tactic(auto, using(std::proofs::Common::append_assoc))]
pub fn push_requests<L: LockTable>(out: &mut Vec<u8>, table: &L) -> Result<(), AllocError>
    ensures { OnOk result (out.new.items ≡ out.old.items ++ show_text (L.requests table.now)) }
{
    for i in 0..table.len() {
        push_request(out, table.request(i), table.granted(i))?;
    }
    out.extend_from_slice(b"END\n")?;
    Ok(())
}

/// Carries out a line's command, and adds its output. Returns an ending if the script ends there.
#[inline(always)]
fn perform<L: LockTable>(
    table: &mut L,
    number: u128,
    command: Option<Command<'_>>,
    woken: &mut Woken,
    out: &mut Vec<u8>,
) -> Result<Option<Ending>, AllocError>
    requires { IsTrue (is_well_formed (owned_command command)) }
    ensures requests { OnOk result (L.requests table.new
        ≡ (effect_of L.REQS number (L.requests table.old) (owned_command command.entry)).requests) }
    ensures text { OnOk result (out.new.items
        ≡ out.old.items ++ (effect_of L.REQS number (L.requests table.old) (owned_command command.entry)).text) }
    ensures ending { IfOk result (λ ending. ending
        ≡ (effect_of L.REQS number (L.requests table.old) (owned_command command.entry)).ending) }
{
    let Some(command) = command else {
        push_fault(out, number)?;
        return Ok(Some(Ending::Script(number)));
    };
    match command {
        Command::Quit => return Ok(Some(Ending::Done)),
        Command::Nothing => {}
        Command::Call(job, call) => call_unless_busy(table, job, call, woken, out)?,
        Command::Refused(job, refusal) => refuse_unless_busy(table, job, refusal, out)?,
        Command::Status(job, wants) => push_status_text(out, table, job, wants)?,
        Command::Free(job) => free(table, job, woken, out)?,
        Command::Show => push_requests(out, table)?,
        Command::Waits => push_waits(out, table)?,
    }
    Ok(None)
}

/// A lock queue that a script's lines work on.
#[derive(Drop)]
pub struct QueueService<L: LockTable> {
    table: L,
    room: CallRoom,
    woken: Woken,
}

impl<L: LockTable> QueueService<L> {
    /// The service over this table.
    pub fn new(table: L) -> Self
        ensures { (n : ℕ) (lines : List (List ℕ))
            → ⟦<QueueService<L> as LineService>⟧.follow_lines result n lines ≡ transcript_of L.REQS (L.requests table) n lines }
    {
        QueueService {
            table,
            room: CallRoom::new(),
            woken: Woken::new(),
        }
    }

    /// The table that the lines taken so far have left.
    pub fn table(&self) -> &L
        ensures { L.requests result.now ≡ L.requests self.now.table }
    {
        &self.table
    }
}

impl<L: LockTable> LineService for QueueService<L> {
    type Ending = Ending;

    ghost follow_lines = { λ s n lines. transcript_of L.REQS (L.requests s.table) n lines };

    fn take_line(
        &mut self,
        number: u128,
        line: &[u8],
        out: &mut Vec<u8>,
    ) -> Result<Option<Ending>, AllocError> {
        let command = read_command(&mut self.room, line);
        perform(&mut self.table, number, command, &mut self.woken, out)
    }

    fn refuse_line(&mut self, number: u128, out: &mut Vec<u8>) -> Result<Ending, AllocError> {
        push_fault(out, number)?;
        Ok(Ending::Script(number))
    }

    fn end_lines(&mut self, _number: u128, _out: &mut Vec<u8>) -> Result<Ending, AllocError> {
        Ok(Ending::Done)
    }
}

/// Serves a script on a lock table that is empty at first: reads it, and writes its transcript.
fn serve_on<L: LockTable, R: ByteIn, W: ByteOut>(
    alloc: Global,
    reader: &mut R,
    writer: &mut W,
) -> Result<(), ServeError>
    requires size { (1 ≤ L.REQS) × (L.REQS ≤ MOST_REQUESTS) }
    requires reader_sound { R.has_failed reader.old ≡ false }
    requires writer_sound { W.has_failed writer.old ≡ false }
    requires few { R.reads_left reader.old ≤ 2 ^ 63 }
    ensures serves { Serves (λ bytes. transcript_of L.REQS [] 0 (lines bytes)) (R.to_come reader.old) (R.to_come reader.new)
        (W.written writer.old) (W.written writer.new) (served_as result) }
    ensures blames { IfErr (served_as result) (λ e. Blames e (R.has_failed reader.new) (W.has_failed writer.new)) }
{
    let table = match L::new(alloc) {
        Ok(table) => table,
        Err(_) => return Err(ServeError::Memory),
    };
    let service = QueueService::new(table);
    let mut session = LineSession::new(service);
    serve_script(alloc, &mut session, reader, writer)
}

/// Serves a script on a lock queue that is empty at first: reads it, and writes its transcript.
/// The output of a command is written before the next read.
pub fn serve_queue<R: ByteIn, W: ByteOut>(
    alloc: Global,
    reader: &mut R,
    writer: &mut W,
) -> Result<(), ServeError>
    requires reader_sound { R.has_failed reader.old ≡ false }
    requires writer_sound { W.has_failed writer.old ≡ false }
    requires few { R.reads_left reader.old ≤ 2 ^ 63 }
    ensures serves { Serves transcript (R.to_come reader.old) (R.to_come reader.new)
        (W.written writer.old) (W.written writer.new) (served_as result) }
    ensures blames { IfErr (served_as result) (λ e. Blames e (R.has_failed reader.new) (W.has_failed writer.new)) }
{
    serve_on::<ProgramTable, R, W>(alloc, reader, writer)
}
