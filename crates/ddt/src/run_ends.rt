//! What is reported of a run that ended.

use crate::session::Session;
use crate::tables::{say_edits, show_waits};
use ddt_moves::{RunEnd, StopCause, turn_at};
use ddt_show::change_text;
use ddt_timeline::Timeline;
use word36::Word;

/// Reports that a job came to a breakpoint, and opens the job.
fn report_breakpoint(
    session: &mut Session,
    timeline: &Timeline,
    number: usize,
    job: u8,
    address: u32,
) {
    session.open = job;
    session.here = address;
    session.answer.say_number("$", number as u64, "B>> ");
    if !session.show_address(timeline, address) {
        session.show_job(timeline, job);
    }
}

/// Adds the job that had a turn, and its PC before it: `job 1 at LOOP+3`.
pub fn say_turn(session: &mut Session, job: u8, address: u32) {
    session.answer.say_number("job ", u64::from(job), " at ");
    session.say_address(job, address);
}

/// Reports that the last step changed a word of a job, and whose turn it was: ` by job 1 at LOOP+3`. Opens the job of the word.
fn report_change(
    session: &mut Session,
    timeline: &Timeline,
    job: u8,
    address: u32,
    was: Option<Word>,
) {
    session.open = job;
    session.say_address(job, address);
    let is = timeline.machine().peek(job, address);
    let change = change_text(session.alloc, was, is);
    session.answer.say_made(change);
    let steps = timeline.steps().saturating_sub(1);
    match turn_at(timeline, steps) {
        Ok(Some((job, address))) => {
            session.answer.say(" by ");
            say_turn(session, job, address);
        }
        Ok(None) => {}
        Err(_) => session.answer.fail(),
    }
    session.answer.end_line();
    session.show_next(timeline);
}

/// Reports that a run that could make `most` steps ended with no stop: it made all of them, or no job goes on.
fn report_no_stop(session: &mut Session, timeline: &Timeline, end: RunEnd, most: u32) {
    if end.is_cut {
        let behind = " steps were made, and jobs still run: $P goes on, .RUN n for n steps\n";
        session.answer.say_number("", u64::from(most), behind);
        session.show_jobs(timeline);
    } else {
        session.answer.say("no job goes on\n");
        session.show_jobs(timeline);
    }
}

/// Reports why a run ended that could make `most` steps.
fn report_cause(session: &mut Session, timeline: &Timeline, end: RunEnd, most: u32) {
    // A cause may hold a word: the prover wants its type to be named.
    let _word: Option<Word> = None;
    let cause = end.cause;
    match cause {
        Some(StopCause::Breakpoint(number, job, address)) => {
            report_breakpoint(session, timeline, number, job, address)
        }
        Some(StopCause::Word(job, address, was)) => {
            report_change(session, timeline, job, address, was)
        }
        Some(StopCause::Circle) => {
            session.answer.say("jobs wait in a circle\n");
            show_waits(&mut session.answer, timeline);
        }
        Some(StopCause::Call(job)) => {
            session.open = job;
            let behind = " is before a call on the lock\n";
            session.answer.say_number("job ", u64::from(job), behind);
            session.show_next(timeline);
        }
        Some(StopCause::Grant) => {
            session.answer.say(session.grants.as_str());
            session.show_next(timeline);
        }
        Some(StopCause::Own | StopCause::Input) => session.show_next(timeline),
        None => report_no_stop(session, timeline, end, most),
    }
}

/// Reports why a run ended that could make `most` steps, and whether words were deposited before.
pub fn report_end(session: &mut Session, timeline: &Timeline, end: RunEnd, most: u32) {
    session.is_open = false;
    report_cause(session, timeline, end, most);
    say_edits(&mut session.answer, timeline, "", "\n");
}
