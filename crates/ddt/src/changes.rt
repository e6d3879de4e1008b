//! Commands that change the machine by hand: words, where jobs start, and what is typed in and out.

ghost use Rattle.std.specs.Prelude.{◌≡◌, ◌≤◌, ◌<◌, ◌+◌, ◌^◌, IsTrue, false, true};
ghost use Rattle.ddt_timeline.specs.Histories.{done, things_of};
ghost use Rattle.ddt_timeline.specs.Views.{history};
ghost use Rattle.program_shell.specs.Texts.{Adds};
ghost use Rattle.ddt.specs.Showing.{taken_words};
ghost use Rattle.ddt.specs.Obeying.{after_change, after_deposit, has_job, takes_word};

use crate::examining::{open, put_mask};
use crate::runs::run_from_start;
use crate::session::Session;
use ddt_commands::{CommandError, first_character};
use ddt_moves::{interrupt, take_line, type_line};
use ddt_show::refuse;
use ddt_timeline::{Entry, Timeline};
use program_shell::PendingText;
use std::alloc::AllocError;
use word36::{Address, Word};

/// A value: deposits it at the open address, and closes that.
pub fn deposit(session: &mut Session, timeline: &mut Timeline, word: Word)
    ensures happens { IsTrue session.new.answer.is_whole
        → history timeline.new ≡ after_deposit session.old word (history timeline.old) }
    ensures refused { takes_word session.old ≡ false → timeline.new ≡ timeline.old }
    ensures mask { session.old.is_open ≡ true → session.old.is_mask ≡ true → session.new.mask ≡ word }
    ensures stays { session.new.open ≡ session.old.open }
{
    if !session.is_open {
        return refuse(&mut session.answer, CommandError::NotOpen);
    }
    if session.is_mask {
        return put_mask(session, word);
    }
    if timeline
        .machine()
        .peek(session.open, session.here)
        .is_none()
    {
        return refuse(&mut session.answer, CommandError::NoWord);
    }
    session.input.forget(timeline.happened());
    let entry = Entry::Deposit(session.open, session.here, word);
    make(&mut session.answer, timeline, entry);
    session.is_open = false;
    session.last = word;
}

/// `a/ value`: opens an address of the open job, whose word is shown, and deposits the value there.
pub fn change(session: &mut Session, timeline: &mut Timeline, address: u32, word: Word)
    ensures { IsTrue session.new.answer.is_whole
        → history timeline.new ≡ after_change session.old address word (history timeline.old) }
{
    session.is_open = false;
    open(session, timeline, address);
    if session.is_open {
        deposit(session, timeline, word);
    }
}

/// Makes an entry happen whose answer is not shown.
pub fn make(answer: &mut PendingText, timeline: &mut Timeline, entry: Entry)
    ensures happens { IsTrue answer.new.is_whole → history timeline.new ≡ done (history timeline.old) (things_of entry) }
    ensures quiet { IsTrue answer.new.is_whole → answer.new ≡ answer.old }
{
    if timeline.make(entry).is_err() {
        answer.fail();
    }
}

/// `a$G`: starts the open job at an address, and runs.
pub fn start_at(session: &mut Session, timeline: &mut Timeline, address: u32)
    ensures { 2 ^ 18 ≤ address → timeline.new ≡ timeline.old }
{
    let Some(address) = Address::try_new(address) else {
        return refuse(&mut session.answer, CommandError::NoWord);
    };
    session.input.forget(timeline.happened());
    match interrupt(timeline, session.open) {
        Ok(true) => {}
        Ok(false) => return refuse(&mut session.answer, CommandError::Gone),
        Err(_) => return session.answer.fail(),
    }
    match timeline.make(Entry::StartAt(session.open, address)) {
        Ok(_) => run_from_start(session, timeline),
        Err(_) => session.answer.fail(),
    }
}

/// Adds the characters that a text spells to some bytes; false where a backslash spells none.
fn push_spelled(bytes: &mut Vec<u8>, text: &[u8]) -> Result<bool, AllocError> {
    let mut rest = text;
    for _ in 0..text.len() {
        match first_character(rest) {
            Some((byte, behind)) => {
                bytes.push(byte)?;
                rest = behind;
            }
            None => break,
        }
    }
    Ok(rest.is_empty())
}

/// Types a text, as it is spelled, and RETURN at a terminal line. Where it is refused, nothing is typed, or what there is room
/// for.
fn type_spelled(
    timeline: &mut Timeline,
    line: u8,
    text: &[u8],
) -> Result<Option<CommandError>, AllocError>
    ensures { has_job (history timeline.old) (line + 1) ≡ false → line < 255 → timeline.new ≡ timeline.old }
{
    // Job 1 is at line 0, job 2 at line 1, and so on.
    if timeline.machine().job(line.saturating_add(1)).is_none() {
        return Ok(Some(CommandError::NoJobAtLine));
    }
    let mut bytes = Vec::new(timeline.alloc());
    if !push_spelled(&mut bytes, text)? {
        return Ok(Some(CommandError::NoCharacter));
    }
    if type_line(timeline, line, bytes.as_slice())? {
        Ok(None)
    } else {
        Ok(Some(CommandError::LineFull))
    }
}

/// `.TYPE line text`: types a text and RETURN at the terminal line of a job.
pub fn type_at(answer: &mut PendingText, timeline: &mut Timeline, line: u8, text: &[u8])
    ensures { has_job (history timeline.old) (line + 1) ≡ false → line < 255 → timeline.new ≡ timeline.old }
{
    match type_spelled(timeline, line, text) {
        Ok(None) => {}
        Ok(Some(refusal)) => refuse(answer, refusal),
        Err(_) => answer.fail(),
    }
}

/// Adds what was taken from a terminal line, which is named where there are several.
fn say_taken(answer: &mut PendingText, line: u8, is_named: bool, bytes: &[u8])
    ensures { Adds answer.old answer.new (taken_words line is_named bytes.now) }
{
    let Some(last) = bytes.last() else {
        return;
    };
    if is_named {
        answer.say_number("line ", u64::from(line), ":\n");
    }
    answer.add(bytes);
    if *last != b'\n' {
        answer.end_line();
    }
}

/// `.TAKE`: shows what jobs have typed out.
pub fn take(session: &mut Session, timeline: &mut Timeline) {
    let before = session.answer.as_bytes().len();
    let is_named = session.jobs.len() > 1;
    let mut bytes = Vec::new(session.alloc);
    for line in 0..session.lines() {
        bytes.clear();
        match take_line(timeline, line, &mut bytes) {
            Ok(()) => say_taken(&mut session.answer, line, is_named, bytes.as_slice()),
            Err(_) => session.answer.fail(),
        }
    }
    if session.answer.as_bytes().len() == before {
        session.answer.say("nothing was typed out\n");
    }
}
