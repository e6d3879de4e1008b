//! Steps, reported as they come.
ghost use Rattle.std.specs.Prelude.{◌≡◌, ◌++◌, IfOk, OnOk, string_bytes};
ghost use Rattle.machine.specs.Views.{job_view};
ghost use Rattle.run_notes.specs.Steps.{effective_words, executed_words, filled, head_words};
ghost use Rattle.run_notes.specs.Steps.{interrupt_words, is_carried_out, limit_line, may_skip, step_words, turn_by, waits_words, way_words};
ghost use Rattle.run_notes.specs.Instructions.{instruction_words};

use crate::instructions::{DEBRK, InstructionText};
use crate::job_stops::stop_text;
use crate::snapshot::Snapshot;
use crate::stores::push_changes;
use crate::traced_job::TracedJob;
use concrete_machine::Machine;
use job_sched::{Stop, Wait};
use ka_isa::{Family, classify, decode};
use ka_state::StopReason;
use monitor::JobView;
use std::alloc::{AllocError, Global};
use word36::Address;

/// What a step changed begins at this column.
const HEAD_WIDTH: usize = 44;

/// Whether the executed instruction may skip, and is no jump.
fn may_skip(before: &Snapshot) -> bool
    ensures { result ≡ may_skip before.now }
{
    match classify(decode(before.executed).op) {
        Family::Compare | Family::SkipOn(_) | Family::Test | Family::Ttcall => true,
        Family::Calli => match before.address {
            Some(address) => address != DEBRK,
            None => true,
        },
        _ => false,
    }
}

/// That a job waits, if it does.
fn waits_text(wait: Wait) -> &'static str
    ensures { result.now ≡ waits_words wait }
{
    match wait {
        Wait::None => "",
        _ => "  waits",
    }
}

/// Adds where a job goes, unless that is the next address, and that it waits or stops.
fn push_way(
    text: &mut String,
    job: &TracedJob,
    before: &Snapshot,
    after: &JobView,
) -> Result<(), AllocError>
    ensures { OnOk result (string_bytes text.new ≡ string_bytes text.old ++ way_words job.now.places before.now after.now) }
{
    if let Some(stop) = after.stop {
        let stop = stop_text(stop);
        return write!(text, "  {stop}");
    }
    let waits = waits_text(after.wait);
    let stays = after.pc == before.place && !waits.is_empty();
    if stays || after.pc == before.place.plus(1) {
        text.push_str(waits)
    } else if after.pc == before.place.plus(2) && may_skip(before) {
        write!(text, "  skips{waits}")
    } else {
        let place = job.spot(after.pc);
        write!(text, "  to {place}{waits}")
    }
}

/// Adds the tick, the job and the address of a step: `tick 12, job 1, LOOP+1: `.
fn push_spot(
    text: &mut String,
    tick: u64,
    job: &TracedJob,
    place: Address,
) -> Result<(), AllocError>
    ensures { OnOk result (string_bytes text.new ≡ string_bytes text.old ++ head_words tick job.now.number job.now.places place) }
{
    let number = job.number;
    let spot = job.spot(place);
    write!(text, "tick {tick}, job {number}, {spot}: ")
}

/// Adds blanks, up to the column in which the changes of a step begin.
fn fill_up(text: &mut String) -> Result<(), AllocError>
    ensures { OnOk result (string_bytes text.new ≡ filled (string_bytes text.old)) }
{
    let blanks = HEAD_WIDTH.saturating_sub(text.len());
    write!(text, "{:blanks$}", "")
}

/// Adds the instruction of a step, filled up to the width of the head, and the effective address.
#[tactic(auto, using(std::proofs::Common::append_assoc))]
fn push_instruction(text: &mut String, job: &TracedJob, before: &Snapshot) -> Result<(), AllocError>
    ensures { OnOk result (string_bytes text.new
        ≡ filled (string_bytes text.old ++ instruction_words job.now.places before.now.instruction) ++ effective_words before.now.address) }
{
    let instruction = InstructionText {
        places: &job.places,
        word: before.instruction,
    };
    write!(text, "{instruction}")?;
    fill_up(text)?;
    match before.address {
        Some(address) => write!(text, "  E {address:o}"),
        None => Ok(()),
    }
}

/// The line on a job whose wait for locks ended with its time limit. It goes on at the error return of its call.
#[tactic(auto, using(std::proofs::Common::append_assoc))]
pub fn time_limit_line(
    alloc: Global,
    tick: u64,
    job: &TracedJob,
    after: &JobView,
) -> Result<String, AllocError>
    ensures { IfOk result (λ text. string_bytes text ≡ limit_line tick job.now.number job.now.places job.now.last after.now) }
{
    let mut text = String::new(alloc);
    let next = job.spot(after.pc);
    push_spot(&mut text, tick, job, job.last)?;
    write!(text, "time limit ended  to {next}\n")?;
    Ok(text)
}

/// Whether the instruction of a step was carried out. A stop by the processor leaves it undone, but for that of a pushdown
/// list that ran over.
fn is_carried_out(after: &JobView) -> bool
    ensures { result ≡ is_carried_out after.now.stop }
{
    match after.stop {
        Some(Stop::Fault(StopReason::Pushdown)) => true,
        Some(Stop::Fault(_)) => false,
        _ => true,
    }
}

/// Adds what is reported of a step that executed its instruction.
#[tactic(auto, using(std::proofs::Common::append_assoc))]
fn push_executed(
    text: &mut String,
    machine: &Machine,
    job: &TracedJob,
    before: &Snapshot,
    after: &JobView,
) -> Result<(), AllocError>
    ensures { OnOk result (string_bytes text.new
        ≡ executed_words machine.now.world job.now.places job.now.number before.now after.now (string_bytes text.old)) }
{
    push_instruction(text, job, before)?;
    if is_carried_out(after) {
        push_changes(text, machine, job, before)?;
    }
    push_way(text, job, before, after)
}

/// Adds that a job's turn was an interrupt, and the address at which the job goes on.
fn push_interrupt(text: &mut String, job: &TracedJob, next: Address) -> Result<(), AllocError>
    ensures { OnOk result (string_bytes text.new ≡ string_bytes text.old ++ interrupt_words job.now.places next) }
{
    let next = job.spot(next);
    write!(text, "interrupt  to {next}")
}

/// Adds what is reported of a step after its address: the instruction, what it changed, and the way that the job goes,
/// unless that leads to the next address.
fn push_step(
    text: &mut String,
    machine: &Machine,
    job: &TracedJob,
    before: &Snapshot,
) -> Result<(), AllocError>
    ensures { OnOk result (string_bytes text.new ≡ turn_by machine.now.world job.now.places job.now.number before.now
        (string_bytes text.old) (job_view machine.now.world job.now.number)) }
{
    let Some(after) = machine.job(job.number) else {
        return text.push_str("LOGOUT");
    };
    if before.is_interrupted(machine, job.number) {
        return push_interrupt(text, job, after.pc);
    }
    push_executed(text, machine, job, before, &after)
}

/// The line on a step: `tick 12, job 1, LOOP+1: MOVE 1,BLK  E 150  1/ 000001,,000005`, with the instruction, the
/// effective address, what it changed, and where the job goes unless that is the next address.
pub fn step_line(
    alloc: Global,
    machine: &Machine,
    tick: u64,
    job: &TracedJob,
    before: &Snapshot,
) -> Result<String, AllocError>
    ensures { IfOk result (λ text. string_bytes text ≡ step_words machine.now.world tick job.now.places job.now.number before.now) }
{
    let mut text = String::new(alloc);
    push_spot(&mut text, tick, job, before.place)?;
    push_step(&mut text, machine, job, before)?;
    text.push_str("\n")?;
    Ok(text)
}
