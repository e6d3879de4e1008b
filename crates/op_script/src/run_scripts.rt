//! The service of `lockmon run`: scripts on the machine.
ghost use Rattle.std.specs.Prelude.{◌≡◌, ◌++◌, ◌^◌, ◌≤◌, None, Some, false, IfOk, IfErr, OnOk};
ghost use Rattle.mac_asm.specs.Outcome.{outcome_of};
ghost use Rattle.script_io.specs.Serves.{Serves, Blames};
ghost use Rattle.script_io.specs.Endings.{script_fault, served_as};
ghost use Rattle.op_script.specs.Images.{image_of};
ghost use Rattle.op_script.specs.RunScripts.{effect_of, end_of, login_effect, defined, assembled_text, assembled_ending, source_effect};
ghost use Rattle.op_script.specs.RunScripts.{line_effect, transcript_of, transcript};
ghost use Rattle.op_script.specs.Undone.{ended_by};

use crate::events::{happen, happen_often, step, take_text, type_text};
use crate::images::Images;
use crate::line_ends::LineEnd;
use crate::printing::push_image;
use crate::script_state::ScriptState;
use crate::showing::{push_data_word, push_examined, push_jobs, push_locks, push_waiting};
use crate::sources::Source;
use asm_script::{push_asm_fault, source_ending};
use core_store::{BlockCore, CoreStore};
use lock_queue::LockTable;
use lock_table::ProgramTable;
use mac_asm::{AsmError, assemble};
use monitor::{Config, Event};
use run_commands::{Command, ImageName, read_command};
use script_io::{
    ByteIn, ByteOut, Ending, LineService, LineSession, ServeError, is_allowed, push_fault,
    serve_script,
};
use std::alloc::{AllocError, Global};
use word36::TAKEN_AT_ONCE;

/// Adds `?SCRIPT n`, and ends the script there.
fn end_at_fault(number: u128, out: &mut Vec<u8>) -> Result<LineEnd, AllocError>
    ensures text { OnOk result (out.new.items ≡ out.old.items ++ (script_fault number).text) }
    ensures end { IfOk result (λ end. end ≡ ended_by (Some (Ending.Script number))) }
{
    push_fault(out, number)?;
    Ok(LineEnd::of(Some(Ending::Script(number))))
}

/// Logs a job in at a line, with the image of a name; a script fault if there is no such image.
fn login<L: LockTable, C: CoreStore>(
    state: &mut ScriptState<L, C>,
    number: u128,
    line: u8,
    name: &ImageName,
    out: &mut Vec<u8>,
) -> Result<LineEnd, AllocError>
    ensures state { OnOk result (state.new ≡ (login_effect number state.old line (image_of state.old.images name.now)).state) }
    ensures text { OnOk result (out.new.items
        ≡ out.old.items ++ (login_effect number state.old line (image_of state.old.images name.now)).text) }
    ensures end { IfOk result (λ end. end ≡ end_of (login_effect number state.old line (image_of state.old.images name.now))) }
{
    match state.images.get(name) {
        Some(image) => happen(&mut state.machine, &Event::Login(line, image), out),
        None => end_at_fault(number, out),
    }
}

/// Carries out a line's command, and adds its output.
fn perform<L: LockTable, C: CoreStore>(
    alloc: Global,
    state: &mut ScriptState<L, C>,
    number: u128,
    command: Option<Command>,
    out: &mut Vec<u8>,
) -> Result<LineEnd, AllocError>
    ensures state { OnOk result (state.new ≡ (effect_of number state.old command).state) }
    ensures text { OnOk result (out.new.items ≡ out.old.items ++ (effect_of number state.old command).text) }
    ensures end { IfOk result (λ end. end ≡ end_of (effect_of number state.old command)) }
{
    let Some(command) = command else {
        return end_at_fault(number, out);
    };
    let machine = &mut state.machine;
    let done = match command {
        Command::Quit => return Ok(LineEnd::of(Some(Ending::Done))),
        Command::Login(line, name) => return login(state, number, line, &name, out),
        Command::Start(job) => return happen(machine, &Event::Start(job), out),
        Command::Continue(job) => return happen(machine, &Event::Continue(job), out),
        Command::Kill(job) => return happen(machine, &Event::Kill(job), out),
        Command::Restart => return happen(machine, &Event::Restart, out),
        Command::Typed(line, text) => return type_text(machine, line, &text, out),
        Command::Take(line) => return take_text(machine, &Event::Take(line, TAKEN_AT_ONCE), out),
        Command::Examine(job, address) => return push_examined(out, machine, job, address),
        Command::Nothing => Ok(()),
        Command::Assemble(name) => {
            state.source = Some(Source::new(alloc, name, number));
            Ok(())
        }
        Command::Step(most) => step(machine, most, false, out),
        Command::Run(most) => step(machine, most, true, out),
        Command::Tick(ticks) => happen_often(machine, &Event::Tick, ticks, out),
        Command::ShowJobs => push_jobs(out, machine),
        Command::ShowLocks => push_locks(out, machine),
        Command::ShowWaits => push_waiting(out, machine),
        Command::Data(i) => push_data_word(out, machine, i),
    };
    done?;
    Ok(LineEnd::of(None))
}

/// Assembles a whole source: keeps its image, or adds its fault and ends the script.
fn end_source(
    alloc: Global,
    images: &mut Images,
    source: Source,
    out: &mut Vec<u8>,
) -> Result<Option<Ending>, AllocError>
    ensures images { OnOk result (images.new ≡ defined images.old source.name (outcome_of source.text)) }
    ensures text { OnOk result (out.new.items ≡ out.old.items ++ assembled_text source.name (outcome_of source.text)) }
    ensures ending { IfOk result (λ ending. ending ≡ assembled_ending source.before (outcome_of source.text)) }
{
    match assemble(alloc, source.text()) {
        Ok(image) => {
            let name = source.into_name();
            push_image(out, &name, image.words.len())?;
            images.insert(name, image)?;
            Ok(None)
        }
        Err(AsmError::Line { line, code }) => {
            push_asm_fault(out, line, code)?;
            Ok(Some(source_ending(source.before(), line, code)))
        }
        Err(AsmError::Memory) => Err(AllocError),
    }
}

/// Takes a line of a source.
fn take_source_line<L: LockTable, C: CoreStore>(
    alloc: Global,
    state: &mut ScriptState<L, C>,
    mut source: Source,
    line: &[u8],
    out: &mut Vec<u8>,
) -> Result<Option<Ending>, AllocError>
    requires { state.old.source ≡ None }
    ensures state { OnOk result (state.new ≡ (source_effect state.old source line.now).state) }
    ensures text { OnOk result (out.new.items ≡ out.old.items ++ (source_effect state.old source line.now).text) }
    ensures ending { IfOk result (λ ending. ending ≡ (source_effect state.old source line.now).ending) }
{
    if line == b"ENDASM".as_slice() {
        return end_source(alloc, &mut state.images, source, out);
    }
    source.push_line(line)?;
    state.source = Some(source);
    Ok(None)
}

/// Takes a line: a command, or a line of a source. Adds its output. If memory runs out, the state means nothing.
pub fn obey<L: LockTable, C: CoreStore>(
    alloc: Global,
    state: &mut ScriptState<L, C>,
    number: u128,
    line: &[u8],
    out: &mut Vec<u8>,
) -> Result<LineEnd, AllocError>
    ensures state { OnOk result (state.new ≡ (line_effect number state.old line.now).state) }
    ensures text { OnOk result (out.new.items ≡ out.old.items ++ (line_effect number state.old line.now).text) }
    ensures end { IfOk result (λ end. end ≡ end_of (line_effect number state.old line.now)) }
{
    if !is_allowed(line) {
        return end_at_fault(number, out);
    }
    match state.source.take() {
        Some(source) => {
            let ending = take_source_line(alloc, state, source, line, out)?;
            Ok(LineEnd::of(ending))
        }
        None => perform(alloc, state, number, read_command(line), out),
    }
}

/// A machine that a script's lines work on.
#[derive(Drop)]
struct RunService {
    alloc: Global,
    state: ScriptState<ProgramTable, BlockCore>,
}

impl LineService for RunService {
    type Ending = Ending;

    ghost follow_lines = { λ s n lines. transcript_of s.state n lines };

    fn take_line(
        &mut self,
        number: u128,
        line: &[u8],
        out: &mut Vec<u8>,
    ) -> Result<Option<Ending>, AllocError> {
        let end = obey(self.alloc, &mut self.state, number, line, out)?;
        Ok(end.ending)
    }

    fn refuse_line(&mut self, number: u128, out: &mut Vec<u8>) -> Result<Ending, AllocError> {
        push_fault(out, number)?;
        Ok(Ending::Script(number))
    }

    fn end_lines(&mut self, number: u128, out: &mut Vec<u8>) -> Result<Ending, AllocError> {
        if self.state.source.is_none() {
            return Ok(Ending::Done);
        }
        push_fault(out, number + 1)?;
        Ok(Ending::Script(number + 1))
    }
}

/// Serves a script on a machine from a fresh boot, with the blocks and the quantum of a `Config`:
/// reads it, and writes its transcript. The output of a command is
/// written before the next read.
pub fn serve<R: ByteIn, W: ByteOut>(
    alloc: Global,
    config: Config,
    reader: &mut R,
    writer: &mut W,
) -> Result<(), ServeError>
    requires reader_sound { R.has_failed reader.old ≡ false }
    requires writer_sound { W.has_failed writer.old ≡ false }
    requires few { R.reads_left reader.old ≤ 2 ^ 63 }
    ensures serves { Serves (transcript config.blocks config.quantum) (R.to_come reader.old) (R.to_come reader.new)
        (W.written writer.old) (W.written writer.new) (served_as result) }
    ensures blames { IfErr (served_as result) (λ e. Blames e (R.has_failed reader.new) (W.has_failed writer.new)) }
{
    let state = match ScriptState::fresh(alloc, config) {
        Ok(state) => state,
        Err(_) => return Err(ServeError::Memory),
    };
    let service = RunService { alloc, state };
    let mut session = LineSession::new(service);
    serve_script(alloc, &mut session, reader, writer)
}
