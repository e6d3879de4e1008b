//! Commands that stand for several events of the machine.
ghost use Rattle.std.specs.Prelude.{◌≡◌, ◌++◌, ◌-◌, ◌+◌, ◌≤◌, [], length, replicate, None, IfOk, OnOk};
ghost use Rattle.machine.specs.Machine.{happens, after};
ghost use Rattle.machine.specs.declared.event.Event.TheVariants.{Typed};
ghost use Rattle.op_script.specs.Events.{after_steps, steps_run, refusal_in, typed_by, taken_by};
ghost use Rattle.op_script.specs.Printing.{answer_line, ran_line, done_line, taken_line};
ghost use Rattle.op_script.specs.Undone.{behind};

use crate::line_ends::LineEnd;
use crate::printing::{push_answer, push_done, push_ran, push_taken};
use arrayvec::ArrayVec;
use core_store::CoreStore;
use lock_queue::LockTable;
use machine::MOST_TAKES;
use monitor::{Answer, Event, RefusedEvent, System};
use run_commands::TypedText;
use std::alloc::AllocError;
use tty_lines::Char7;
use word36::{Image, TAKEN_AT_ONCE};

/// Room for what they give.
const TAKEN_ROOM: usize = MOST_TAKES * TAKEN_AT_ONCE;

/// Makes one event happen, and adds its answer.
pub fn happen<L: LockTable, C: CoreStore>(
    machine: &mut System<L, C>,
    event: &Event<'_>,
    out: &mut Vec<u8>,
) -> Result<LineEnd, AllocError>
    ensures state { OnOk result (machine.new ≡ (happens machine.old event.now).state) }
    ensures text { OnOk result (out.new.items ≡ out.old.items ++ answer_line (happens machine.old event.now).answer) }
    ensures end { IfOk result (λ end. end ≡ behind (refusal_in (happens machine.old event.now).answer)) }
{
    let answer = machine.event(event);
    push_answer(out, &answer)?;
    Ok(LineEnd::behind(refusal_in(answer)))
}

/// Makes `most` steps, each followed by a tick if `ticking`, and adds in how many a job ran.
pub fn step<L: LockTable, C: CoreStore>(
    machine: &mut System<L, C>,
    most: u32,
    ticking: bool,
    out: &mut Vec<u8>,
) -> Result<(), AllocError>
    ensures state { OnOk result (machine.new ≡ after_steps most ticking machine.old) }
    ensures text { OnOk result (out.new.items
        ≡ out.old.items ++ ran_line (steps_run most ticking machine.old) (most - steps_run most ticking machine.old)) }
{
    let ran = step_by(machine, most, ticking);
    push_ran(out, ran, most.saturating_sub(ran))
}

/// Makes `most` steps, and returns in how many a job ran.
#[tactic(auto, unfolding(crate::specs::Events::after_steps, crate::specs::Events::steps_run))]
fn step_by<L: LockTable, C: CoreStore>(machine: &mut System<L, C>, most: u32, ticking: bool) -> u32
    ensures state { machine.new ≡ after_steps most ticking machine.old }
    ensures ran { result ≡ steps_run most ticking machine.old }
{
    machine.steps(most, ticking)
}

/// Makes an event happen `times` times.
fn repeat<L: LockTable, C: CoreStore>(machine: &mut System<L, C>, event: &Event<'_>, times: u32)
    ensures { machine.new ≡ after (replicate times event.now) machine.old }
{
    'times: for _ in 0..times {
        machine.event(event);
    }
}

/// Makes an event happen `times` times, and adds `DONE` instead of its answers.
pub fn happen_often<L: LockTable, C: CoreStore>(
    machine: &mut System<L, C>,
    event: &Event<'_>,
    times: u32,
    out: &mut Vec<u8>,
) -> Result<(), AllocError>
    ensures state { OnOk result (machine.new ≡ after (replicate times event.now) machine.old) }
    ensures text { OnOk result (out.new.items ≡ out.old.items ++ done_line None) }
{
    repeat(machine, event, times);
    push_done(out, None)
}

/// Why an event was refused, if it was.
fn refusal_in(answer: Answer) -> Option<RefusedEvent>
    ensures { result ≡ refusal_in answer }
{
    match answer {
        Answer::Refused(refusal) => Some(refusal),
        _ => None,
    }
}

/// Types a character at a line. Returns why it is refused, if it is.
fn type_character<L: LockTable, C: CoreStore>(
    machine: &mut System<L, C>,
    line: u8,
    character: Char7,
) -> Option<RefusedEvent>
    ensures state { machine.new ≡ (happens machine.old (Typed line character)).state }
    ensures refusal { result ≡ refusal_in (happens machine.old (Typed line character)).answer }
{
    // An event may hold an image, of which this one has none: the prover wants its type to be named.
    let _image: Option<&Image> = None;
    refusal_in(machine.event(&Event::Typed(line, character)))
}

/// Types characters at a line, up to the first that is refused. Returns why it is.
fn type_characters<L: LockTable, C: CoreStore>(
    machine: &mut System<L, C>,
    line: u8,
    text: &[Char7],
) -> Option<RefusedEvent>
    ensures machine { machine.new ≡ (typed_by text.now machine.old line).machine }
    ensures refusal { result ≡ (typed_by text.now machine.old line).refusal }
{
    'characters: for character in text {
        match type_character(machine, line, *character) {
            Some(refusal) => return Some(refusal),
            None => {}
        }
    }
    None
}

/// Types a text at a line.
pub fn type_text<L: LockTable, C: CoreStore>(
    machine: &mut System<L, C>,
    line: u8,
    text: &TypedText,
    out: &mut Vec<u8>,
) -> Result<LineEnd, AllocError>
    ensures state { OnOk result (machine.new ≡ (typed_by text.now machine.old line).machine) }
    ensures text { OnOk result (out.new.items ≡ out.old.items ++ done_line (typed_by text.now machine.old line).refusal) }
    ensures end { IfOk result (λ end. end ≡ behind (typed_by text.now machine.old line).refusal) }
{
    let refusal = type_characters(machine, line, text.as_slice());
    push_done(out, refusal)?;
    Ok(LineEnd::behind(refusal))
}

/// Adds characters to a text that has room for them.
fn extend(text: &mut ArrayVec<Char7, TAKEN_ROOM>, more: &[Char7])
    requires { length text.old.items + length more.now ≤ TAKEN_ROOM }
    ensures { text.new.items ≡ text.old.items ++ more.now }
{
    let _ = text.try_extend_from_slice(more);
}

/// Makes a Take event happen, again until it takes fewer characters than it can, and adds what it takes.
fn take_characters<L: LockTable, C: CoreStore>(
    machine: &mut System<L, C>,
    event: &Event<'_>,
    text: &mut ArrayVec<Char7, TAKEN_ROOM>,
) -> Option<RefusedEvent>
    requires { text.old.items ≡ [] }
    ensures machine { machine.new ≡ (taken_by MOST_TAKES event.now machine.old).machine }
    ensures text { text.new.items ≡ (taken_by MOST_TAKES event.now machine.old).text }
    ensures refusal { result ≡ (taken_by MOST_TAKES event.now machine.old).refusal }
{
    'takes: for _ in 0..MOST_TAKES {
        match machine.event(event) {
            Answer::Text(taken) => {
                let characters = taken.as_slice();
                extend(text, characters);
                if characters.len() < TAKEN_AT_ONCE {
                    return None;
                }
            }
            Answer::Refused(refusal) => return Some(refusal),
            _ => return None,
        }
    }
    None
}

/// Takes all output of a line, by a Take event that happens as often as is needed, and adds it.
pub fn take_text<L: LockTable, C: CoreStore>(
    machine: &mut System<L, C>,
    event: &Event<'_>,
    out: &mut Vec<u8>,
) -> Result<LineEnd, AllocError>
    ensures state { OnOk result (machine.new ≡ (taken_by MOST_TAKES event.now machine.old).machine) }
    ensures text { OnOk result
        (out.new.items
        ≡ out.old.items
        ++ taken_line (taken_by MOST_TAKES event.now machine.old).refusal (taken_by MOST_TAKES event.now machine.old).text) }
    ensures end { IfOk result (λ end. end ≡ behind (taken_by MOST_TAKES event.now machine.old).refusal) }
{
    let mut text = ArrayVec::new();
    let refusal = take_characters(machine, event, &mut text);
    push_taken(out, refusal, text.as_slice())?;
    Ok(LineEnd::behind(refusal))
}
