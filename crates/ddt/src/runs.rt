//! Commands that run the machine.

use crate::run_ends::report_end;
use crate::session::Session;
use ddt_commands::{CommandError, MOST_TIMES, RUN_STEPS};
use ddt_moves::{
    RunEnd, RunStops, StopCause, begin, cause_at_start, go_on, is_stopped, run_to, start_jobs,
    stops_of,
};
use ddt_show::refuse;
use ddt_timeline::{StopCondition, Timeline, some_go_on};
use job_sched::Wait;
use ka_state::{Outcome, StopReason};
use run_notes::stop_text;
use std::alloc::AllocError;
use word36::{Address, Word};

/// The most steps of a run whose command gives no number of steps.
const MOST_STEPS: u32 = RUN_STEPS as u32;

/// Makes steps until a stop holds, no job can go on, or `most` are made. A run stops at its own stops, which come first, and at
/// those that the user set. Where a job waits for characters it types the next line of the input, as long as there is one.
fn try_run(
    session: &mut Session,
    timeline: &mut Timeline,
    own: &[StopCondition],
    most: u32,
) -> Result<RunEnd, AllocError> {
    let machine = timeline.machine();
    let mut stops = stops_of(session.alloc, machine, own, &session.list)?;
    if session.input.is_left(timeline.happened()) {
        stops.add(StopCondition::Input, 0)?;
    }
    run_with_input(session, timeline, &mut stops, most)
}

/// Makes steps as `try_run` does. Where there is too little memory, the run ends, and the answer fails.
fn run(session: &mut Session, timeline: &mut Timeline, own: &[StopCondition], most: u32) -> RunEnd {
    match try_run(session, timeline, own, most) {
        Ok(end) => end,
        Err(_) => {
            session.answer.fail();
            RunEnd::at_once(None)
        }
    }
}

/// Makes steps as `try_run` does, up to these stops.
fn run_with_input(
    session: &mut Session,
    timeline: &mut Timeline,
    stops: &mut RunStops,
    most: u32,
) -> Result<RunEnd, AllocError> {
    let last = timeline.steps().saturating_add(u64::from(most));
    for _ in 0..most {
        let left = last.saturating_sub(timeline.steps());
        let end = run_to(
            timeline,
            stops,
            &session.list,
            left.min(u64::from(most)) as u32,
            &mut session.grants,
        )?;
        if !goes_on(session, timeline, end)? {
            return Ok(end);
        }
    }
    Ok(RunEnd::at_once(None))
}

/// Whether a run goes on behind this end: a job waits for characters, or no job goes on, and the next line of the input is typed,
/// or some job goes on behind the last line.
fn goes_on(
    session: &mut Session,
    timeline: &mut Timeline,
    end: RunEnd,
) -> Result<bool, AllocError> {
    if end.is_cut || !matches!(end.cause, None | Some(StopCause::Input)) {
        return Ok(false);
    }
    let lines = session.lines();
    match session.input.type_next(timeline, lines) {
        Ok(false) => Ok(some_go_on(timeline.machine())),
        typed => typed,
    }
}

/// `$G`: starts jobs, and runs.
pub fn go(session: &mut Session, timeline: &mut Timeline) {
    let lines = session.lines();
    let happened = timeline.happened();
    match start_jobs(timeline, lines, session.open) {
        Ok(true) => {
            session.input.forget(happened);
            run_from_start(session, timeline);
        }
        Ok(false) => refuse(&mut session.answer, CommandError::Gone),
        Err(_) => session.answer.fail(),
    }
}

/// Runs where jobs were started just now.
pub fn run_from_start(session: &mut Session, timeline: &mut Timeline) {
    let lines = session.lines();
    let begun = cause_at_start(timeline, 1, lines, &session.list);
    proceed_from(session, timeline, begun, 1, MOST_STEPS, false);
}

/// `n$P` and `.RUN n`: lets the jobs go on up to the n-th breakpoint, for `most` steps at most up to each, and continues the open
/// one where CTRL-C or EXIT 1 stopped it.
pub fn proceed(session: &mut Session, timeline: &mut Timeline, times: u32, most: u32) {
    let begun = continue_open(session, timeline);
    proceed_from(session, timeline, begun, times, most, false);
}

/// `$$P`: lets the jobs go on as `$P` does, past each breakpoint, which is shown, `MOST_TIMES` of them at most.
pub fn proceed_on(session: &mut Session, timeline: &mut Timeline) {
    let begun = continue_open(session, timeline);
    proceed_from(
        session,
        timeline,
        begun,
        MOST_TIMES as u32,
        MOST_STEPS,
        true,
    );
}

/// Continues the open job where CTRL-C or EXIT 1 stopped it, and gives why a run makes no step then.
fn continue_open(
    session: &Session,
    timeline: &mut Timeline,
) -> Result<Option<StopCause>, AllocError> {
    let open = session.open;
    match go_on(timeline, open) {
        Ok(true) => cause_at_start(timeline, open, open, &session.list),
        Ok(false) => Ok(None),
        Err(error) => Err(error),
    }
}

/// Lets the jobs go on up to the n-th breakpoint. A job that was started or continued just now may stand where runs stop: then
/// that is the first of the stops, and no step is made before it. Each breakpoint on the way is shown if `shows_all`.
fn proceed_from(
    session: &mut Session,
    timeline: &mut Timeline,
    begun: Result<Option<StopCause>, AllocError>,
    times: u32,
    most: u32,
    shows_all: bool,
) {
    // A cause may hold a word: the prover wants its type to be named.
    let _word: Option<Word> = None;
    let mut end = match begun {
        Ok(None) => run(session, timeline, &[], most),
        Ok(cause) => RunEnd::at_once(cause),
        Err(_) => return session.answer.fail(),
    };
    for _ in 1..times {
        if !matches!(end.cause, Some(StopCause::Breakpoint(_, _, _))) {
            break;
        }
        if shows_all {
            report_end(session, timeline, end, most);
        }
        end = run(session, timeline, &[], most);
    }
    report_end(session, timeline, end, most);
}

/// `n$X`: executes n instructions of the open job, and shows behind each the next one; fewer where the job is stopped, or another
/// stop holds.
pub fn execute(session: &mut Session, timeline: &mut Timeline, count: u32) {
    let number = session.open;
    if begin(timeline, number).is_err() {
        return session.answer.fail();
    }
    for _ in 0..count {
        let end = run(
            session,
            timeline,
            &[StopCondition::Turn(number)],
            MOST_STEPS,
        );
        let cause = end.cause;
        report_end(session, timeline, end, MOST_STEPS);
        let is_own = matches!(cause, Some(StopCause::Own));
        if !is_own || is_stopped(timeline.machine(), number) {
            break;
        }
    }
}

/// `$$X`: lets the open job go on until it comes to the address behind its instruction, or the one behind that, or ends.
pub fn execute_call(session: &mut Session, timeline: &mut Timeline) {
    // A stop may hold a word, of which these have none: the prover wants its type to be named.
    let _word: Option<Word> = None;
    let number = session.open;
    if begin(timeline, number).is_err() {
        return session.answer.fail();
    }
    match timeline.machine().job(number) {
        Some(view) => run_to_return(session, timeline, view.pc.plus(1)),
        None => session.show_job(timeline, number),
    }
}

/// Lets the open job go on until it comes to an address, where a call returns, or to the one behind it, or ends.
fn run_to_return(session: &mut Session, timeline: &mut Timeline, address: Address) {
    // A stop may hold a word, of which these have none: the prover wants its type to be named.
    let _word: Option<Word> = None;
    let number = session.open;
    let own = [
        StopCondition::At(number, address, None),
        StopCondition::At(number, address.plus(1), None),
        StopCondition::End(number),
    ];
    let end = run(session, timeline, &own, MOST_STEPS);
    report_end(session, timeline, end, MOST_STEPS);
}

/// Why an instruction that is typed is not executed, by how the processor ends it; `None` where it is complete.
fn refusal_of(end: &Option<Outcome>) -> Option<CommandError> {
    match end {
        None => Some(CommandError::Gone),
        Some(Outcome::Done | Outcome::Stop(StopReason::Pushdown)) => None,
        Some(Outcome::Call(_, _, _)) => Some(CommandError::CallsMonitor),
        Some(Outcome::Stop(reason)) => Some(CommandError::Stops(stop_text(job_sched::Stop::Fault(
            *reason,
        )))),
    }
}

/// `instr$X`: executes an instruction for the open job as if it stood before the one at its PC, without a step or a tick. Where it
/// jumps, as a call does, the job goes on until it comes back to its PC or to the address behind that, or ends. An instruction that
/// is refused changes nothing, but a job that was not started is started, as by `$X`.
pub fn execute_word(session: &mut Session, timeline: &mut Timeline, word: Word) {
    let number = session.open;
    if begin(timeline, number).is_err() {
        return session.answer.fail();
    }
    let Some(view) = timeline.machine().job(number) else {
        return refuse(&mut session.answer, CommandError::Gone);
    };
    if view.wait != Wait::None {
        return refuse(&mut session.answer, CommandError::Waits);
    }
    let Ok(end) = timeline.execute(number, word) else {
        return session.answer.fail();
    };
    match refusal_of(&end) {
        Some(refusal) => refuse(&mut session.answer, refusal),
        None => show_executed(session, timeline, view.pc, end),
    }
}

/// Shows what an instruction that was executed by hand has led to, before which the open job's PC was this.
fn show_executed(
    session: &mut Session,
    timeline: &mut Timeline,
    pc: Address,
    end: Option<Outcome>,
) {
    let number = session.open;
    session.is_open = false;
    if matches!(end, Some(Outcome::Stop(_))) {
        session
            .answer
            .say("pushdown overflow: the instruction is complete\n");
    }
    let is_back = match timeline.machine().job(number) {
        Some(view) => view.stop.is_some() || view.pc == pc || view.pc == pc.plus(1),
        None => true,
    };
    if is_back {
        return session.show_next(timeline);
    }
    match cause_at_start(timeline, number, number, &session.list) {
        Ok(None) => run_to_return(session, timeline, pc),
        Ok(cause) => report_end(session, timeline, RunEnd::at_once(cause), MOST_STEPS),
        Err(_) => session.answer.fail(),
    }
}

/// `.STEP n`: makes n steps of the machine, or fewer where a stop holds.
pub fn step(session: &mut Session, timeline: &mut Timeline, count: u32) {
    let end = run(session, timeline, &[], count);
    if end.is_cut {
        session.is_open = false;
        session.show_next(timeline);
    } else {
        report_end(session, timeline, end, count);
    }
}
