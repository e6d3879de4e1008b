//! Commands that set breakpoints and the other stops.

ghost use Rattle.std.specs.Prelude.{◌≡◌, ◌-◌, None, codes, if◌then◌else◌, is_some, not, slice_set};
ghost use Rattle.ddt_timeline.specs.Views.{history};
ghost use Rattle.program_shell.specs.Texts.{Adds};
ghost use Rattle.ddt.specs.Obeying.{breakpoints_after, condition_has_word, open_word, words_after};

use crate::session::Session;
use ddt_breakpoints::{BREAKPOINTS, Condition};
use ddt_commands::{CommandError, NewBreakpoint};
use ddt_moves::{Breakpoint, WatchedWord};
use ddt_show::refuse;
use ddt_timeline::Timeline;
use lock_queue::Name;
use queue_script::CallRoom;
use script_io::Parts;
use word36::Address;

/// Whether the open job has a word at an address.
fn is_there(session: &Session, timeline: &Timeline, address: u32) -> bool
    ensures { result ≡ is_some (open_word session.now (history timeline.now) address) }
{
    timeline.machine().peek(session.open, address).is_some()
}

/// Whether a condition, if there is one, is on a word that the open job has.
fn has_word(session: &Session, timeline: &Timeline, condition: Option<Condition>) -> bool
    ensures { result ≡ condition_has_word session.now (history timeline.now) condition }
{
    match condition {
        Some(condition) => is_there(session, timeline, condition.address),
        None => true,
    }
}

/// `a$B` and `a$nB`: sets a breakpoint of the open job.
pub fn set(session: &mut Session, timeline: &Timeline, wanted: &NewBreakpoint)
    ensures { session.new.list.breakpoints ≡ breakpoints_after session.old (history timeline.now) wanted.now }
{
    let Some(address) = Address::try_new(wanted.address) else {
        return refuse(&mut session.answer, CommandError::NoWord);
    };
    if !has_word(session, timeline, wanted.condition) {
        return refuse(&mut session.answer, CommandError::NoWord);
    }
    let breakpoint = Breakpoint {
        job: session.open,
        address,
        condition: wanted.condition,
        times: wanted.times,
    };
    match session.list.set(&breakpoint, wanted.number) {
        Some(number) => show_breakpoint(session, number, &breakpoint),
        None => refuse(&mut session.answer, CommandError::NoBreakpointFree),
    }
}

/// `0$nB`: clears a breakpoint.
pub fn unset(session: &mut Session, number: u8)
    ensures { session.new.list.breakpoints ≡ slice_set session.old.list.breakpoints (number - 1) None }
{
    if !session.list.unset(number) {
        refuse(&mut session.answer, CommandError::NotSet);
    }
}

/// Adds the address of a stop: ` job 1 LOOP+3`.
fn say_stop(session: &mut Session, job: u8, address: u32)
    ensures { session.new ≡ record session.old { answer = session.new.answer } }
{
    session.answer.say_number(" job ", u64::from(job), " ");
    session.say_address(job, address);
}

/// Adds a condition of a job's breakpoint: ` IF COUNT>5`, with the value as a signed number in octal.
fn say_condition(session: &mut Session, job: u8, condition: Condition)
    ensures { session.new ≡ record session.old { answer = session.new.answer } }
{
    session.answer.say(" IF ");
    session.say_address(job, condition.address);
    session.answer.say(condition.comparison.sign());
    let value = condition.value.signed();
    let sign = if value < 0 { "-" } else { "" };
    let digits = value.unsigned_abs();
    let alloc = session.alloc;
    session
        .answer
        .say_made(format!(in alloc; "{sign}{digits:o}"));
}

/// Shows a breakpoint, as it is typed: `$1B job 1 LOOP+3 IF COUNT>5 TIMES 3`.
fn show_breakpoint(session: &mut Session, number: usize, breakpoint: &Breakpoint)
    ensures { session.new ≡ record session.old { answer = session.new.answer } }
{
    session.answer.say_number("$", number as u64, "B");
    say_stop(session, breakpoint.job, breakpoint.address.number());
    if let Some(condition) = breakpoint.condition {
        say_condition(session, breakpoint.job, condition);
    }
    if breakpoint.counts() {
        let (alloc, times) = (session.alloc, breakpoint.times);
        session
            .answer
            .say_made(format!(in alloc; " TIMES {times:o}"));
    }
    session.answer.end_line();
}

/// `$nB/`: shows a breakpoint.
pub fn show_one(session: &mut Session, number: u8) {
    let slot = usize::from(number).saturating_sub(1);
    match session.list.breakpoints.get(slot).copied().flatten() {
        Some(breakpoint) => show_breakpoint(session, usize::from(number), &breakpoint),
        None => refuse(&mut session.answer, CommandError::NotSet),
    }
}

/// Shows a word that is watched, or no longer: `watched job 1 COUNT`.
fn show_watched(session: &mut Session, word: WatchedWord, is_watched: bool)
    ensures { session.new ≡ record session.old { answer = session.new.answer } }
{
    session.answer.say(if is_watched {
        "watched"
    } else {
        "no longer watched"
    });
    say_stop(session, word.job, word.address);
    session.answer.end_line();
}

/// `$B`: shows the breakpoints, and what else runs stop at.
pub fn show_stops(session: &mut Session) {
    for slot in 0..BREAKPOINTS {
        if let Some(breakpoint) = session.list.breakpoints.get(slot).copied().flatten() {
            show_breakpoint(session, slot.saturating_add(1), &breakpoint);
        }
    }
    for position in 0..session.list.words.len() {
        if let Some(word) = session.list.words.as_slice().get(position).copied() {
            show_watched(session, word, true);
        }
    }
    if session.list.circles {
        session.answer.say("circles\n");
    }
    if session.list.lock.is_some() {
        session.answer.say("calls on a lock\n");
    }
    if session.list.grants {
        session.answer.say("grants\n");
    }
}

/// `.WATCH a`: watches a word of the open job, or no longer.
pub fn watch(session: &mut Session, timeline: &Timeline, address: u32)
    ensures { session.new.list.words.items
        ≡ words_after session.old address (open_word session.old (history timeline.now) address) }
{
    let job = session.open;
    if timeline.machine().peek(job, address).is_none() {
        return refuse(&mut session.answer, CommandError::NoWord);
    }
    let word = WatchedWord { job, address };
    match session.list.watch(word) {
        Some(is_watched) => show_watched(session, word, is_watched),
        None => refuse(&mut session.answer, CommandError::NoWatchFree),
    }
}

/// `.BREAK CIRCLE`: stops runs at circles of waits, or no longer.
pub fn stop_at_circles(session: &mut Session)
    ensures list { session.new.list ≡ record session.old.list { circles = not session.old.list.circles } }
    ensures says { Adds session.old.answer session.new.answer
        (if session.old.list.circles then codes "runs no longer stop at circles\n" else codes "runs stop at circles\n") }
{
    session.list.circles = !session.list.circles;
    session.answer.say(if session.list.circles {
        "runs stop at circles\n"
    } else {
        "runs no longer stop at circles\n"
    });
}

/// `.BREAK GRANT`: stops runs where a request is granted, or no longer.
pub fn stop_at_grants(session: &mut Session)
    ensures list { session.new.list ≡ record session.old.list { grants = not session.old.list.grants } }
    ensures says { Adds session.old.answer session.new.answer
        (if session.old.list.grants then codes "runs no longer stop at grants\n" else codes "runs stop at grants\n") }
{
    session.list.grants = !session.list.grants;
    session.answer.say(if session.list.grants {
        "runs stop at grants\n"
    } else {
        "runs no longer stop at grants\n"
    });
}

/// The lock that a text names, as in a queue script, if it names one.
fn lock_name(job: u8, text: &[u8]) -> Option<Name> {
    let mut room = CallRoom::new();
    match room.keys(job, Parts::of(text, b' ')) {
        Some(Ok(wants)) => match wants.as_slice() {
            [want] => Some(want.key.name),
            _ => None,
        },
        _ => None,
    }
}

/// `.BREAK LOCK name`: stops runs before calls on a lock, or no longer where they do.
pub fn stop_at_lock(session: &mut Session, text: &[u8]) {
    let Some(name) = lock_name(session.open, text) else {
        return refuse(&mut session.answer, CommandError::NoLock);
    };
    match &session.list.lock {
        Some(lock) if lock.is_same(&name) => {
            session.list.lock = None;
            session
                .answer
                .say("runs no longer stop before calls on that lock\n");
        }
        _ => {
            session.list.lock = Some(name);
            session.answer.say("runs stop before calls on that lock\n");
        }
    }
}
