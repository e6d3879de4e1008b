//! What has happened to a machine as a script of `lockmon run`.
ghost use Rattle.std.specs.Prelude.{◌≡◌, ◌++◌, true, false, replicate, IfOk, OnOk};
ghost use Rattle.std.specs.List.{list_all};
ghost use Rattle.run_record.specs.Pieces.{events_in};
ghost use Rattle.run_record.specs.declared.happened.RunEvent.TheVariants.{Tick};
ghost use Rattle.ddt_timeline.specs.Recorded.{AddsScript, changes, events_of, has_changed, is_event, recorded};
ghost use Rattle.ddt_timeline.specs.Timelines.{made};
ghost use Rattle.ddt_timeline.specs.Views.{history};

use crate::entries::{Entry, perform};
use crate::timeline::{Timeline, let_go};
use concrete_machine::Machine;
use monitor::Answer;
use run_record::{EventSequence, RunEvent, push_pieces};
use std::alloc::AllocError;

/// Whether an entry is events of a run: a change that a debugger makes by hand is none.
fn is_event(entry: &Entry) -> bool
    ensures { result ≡ is_event entry.now }
{
    !matches!(
        entry,
        Entry::Deposit(_, _, _) | Entry::StartAt(_, _) | Entry::Execute(_, _)
    )
}

/// Whether all of some entries are events of a run.
fn are_events(entries: &[Entry]) -> bool
    ensures { result ≡ list_all is_event entries.now }
{
    for entry in entries {
        if !is_event(entry) {
            return false;
        }
    }
    true
}

/// Whether something has changed, by the machine's answer: nothing has where it refuses, or where it had no output to be taken.
fn has_changed(answer: &Answer) -> bool
    ensures { result ≡ has_changed answer.now }
{
    match answer {
        Answer::Refused(_) => false,
        Answer::Text(taken) => !taken.as_slice().is_empty(),
        _ => true,
    }
}

/// Adds so many ticks.
fn add_ticks(events: &mut EventSequence, count: u32) -> Result<(), AllocError>
    ensures { OnOk result (events_in events.new ≡ events_in events.old ++ replicate count Tick) }
{
    for i in 0..count {
        events.add(RunEvent::Tick)?;
    }
    Ok(())
}

/// Adds the events of an entry.
fn add_entry(events: &mut EventSequence, entry: &Entry) -> Result<(), AllocError>
    ensures { OnOk result (events_in events.new ≡ events_in events.old ++ events_of entry.now) }
{
    let event = match entry {
        Entry::Rounds(count) => return events.add_rounds(*count),
        Entry::Ticks(count) => return add_ticks(events, *count),
        Entry::Deposit(_, _, _) | Entry::StartAt(_, _) | Entry::Execute(_, _) => return Ok(()),
        Entry::Login(line, _) => RunEvent::Login(*line, line.saturating_add(1)),
        Entry::Start(number) => RunEvent::Start(*number),
        Entry::Continue(number) => RunEvent::Continue(*number),
        Entry::Kill(number) => RunEvent::Kill(*number),
        Entry::Typed(line, character) => RunEvent::Typed(*line, *character),
        Entry::Take(line) => RunEvent::Take(*line),
    };
    events.add(event)
}

/// Makes an entry happen, and adds its events if something changes by it.
fn add_next(
    machine: &mut Machine,
    entry: &Entry,
    events: &mut EventSequence,
) -> Result<(), AllocError>
    ensures machine { machine.new ≡ made machine.old entry.now }
    ensures events { OnOk result (events_in events.new ≡ events_in events.old ++ changes machine.old entry.now) }
{
    if has_changed(&perform(machine, entry)) {
        add_entry(events, entry)
    } else {
        Ok(())
    }
}

/// Makes entries happen one after the other, and adds the events of those by which something changes.
fn add_all(
    machine: &mut Machine,
    entries: &[Entry],
    events: &mut EventSequence,
) -> Result<(), AllocError>
    ensures { OnOk result (events_in events.new ≡ events_in events.old ++ recorded machine.old entries.now) }
{
    for i in 0..entries.len() {
        add_next(machine, &entries[i], events)?;
    }
    Ok(())
}

/// Adds the events of all that has happened, which it makes happen once more on a second machine.
fn add_past(timeline: &Timeline, events: &mut EventSequence) -> Result<(), AllocError>
    ensures { OnOk result
        (events_in events.new ≡ events_in events.old ++ recorded (history timeline.now).boot (history timeline.now).past) }
{
    let mut machine = timeline.boot()?;
    let added = add_all(&mut machine, timeline.entries(), events);
    let_go(machine);
    added?;
    events.add_rounds(timeline.part())?;
    Ok(())
}

/// Adds the lines of a script of `lockmon run` that say all that has happened, but for what changed nothing: what the machine
/// refused, and where it had no output to be taken. False, and nothing is added, where a debugger changed a job by hand.
pub fn push_past(out: &mut Vec<u8>, timeline: &Timeline) -> Result<bool, AllocError>
    ensures said { IfOk result (λ is_said. is_said ≡ list_all is_event (history timeline.now).past) }
    ensures script { IfOk result (λ is_said. is_said ≡ true
        → AddsScript out.old.items out.new.items (recorded (history timeline.now).boot (history timeline.now).past)) }
    ensures nothing { IfOk result (λ is_said. is_said ≡ false → out.new ≡ out.old) }
{
    if !are_events(timeline.entries()) {
        return Ok(false);
    }
    let mut events = EventSequence::new(timeline.alloc());
    add_past(timeline, &mut events)?;
    push_pieces(out, events.pieces())?;
    Ok(true)
}
