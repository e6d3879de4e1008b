//! Lines that are obeyed.

ghost use Rattle.std.specs.Prelude.{◌≡◌, true};
ghost use Rattle.ddt.specs.Obeying.{Obeys, only_looks};

use crate::changes::{change, deposit, make, start_at, take, type_at};
use crate::examining::{change_mask, evaluate, examine, open, open_as, open_mask, show_last};
use crate::going_back::{back, back_to, back_to_write, forward};
use crate::histories::show_history;
use crate::recording::record;
use crate::runs::{execute, execute_call, execute_word, go, proceed, proceed_on, step};
use crate::searches::search;
use crate::session::Session;
use crate::stop_commands::{
    set, show_one, show_stops, stop_at_circles, stop_at_grants, stop_at_lock, unset, watch,
};
use crate::tables::{open_job, show_jobs, show_locks, show_registers, show_waits};
use ddt_commands::{Command, LineError, RUN_STEPS, read_line};
use ddt_show::{add_help, next_address, previous_address};
use ddt_timeline::{Entry, Timeline};
use program_shell::PendingText;
use std::str;

/// What a line leaves to the host, beside writing its answer.
#[derive(Clone, Copy)]
pub enum HostAction<'a> {
    /// Nothing; the line is kept for `.SAVE`.
    Keep,
    /// Nothing; the line is not kept, since it is too long, or names a file that is neither read nor written.
    Refuse,
    /// To write the lines that were kept to this file.
    Save(&'a str),
    /// To write the script of what has happened to this file.
    Record(&'a str),
    /// To read this file, whose lines are obeyed next.
    Do(&'a str),
    /// To end the session.
    Quit,
}

/// Obeys a line, adds what it shows to the answer, and gives what is left to the host. A line that is no command changes nothing,
/// and is answered by what is wrong with it.
pub fn obey_line<'a>(
    session: &mut Session,
    timeline: &mut Timeline,
    line: &'a [u8],
) -> HostAction<'a>
    ensures { Obeys session.old line.now (timeline.new ≡ timeline.old) }
{
    let read = read_line(line, &session.scope());
    match read {
        Ok(command) => {
            obey(session, timeline, &command);
            action_of(session, &command)
        }
        Err(error) => {
            report_error(&mut session.answer, error);
            HostAction::Keep
        }
    }
}

/// Reports what is wrong with a line.
fn report_error(answer: &mut PendingText, error: LineError) {
    let alloc = answer.alloc;
    answer.say_made(format!(in alloc; "{error}\n"));
}

/// What a command leaves to the host.
fn action_of<'a>(session: &mut Session, command: &Command<'a>) -> HostAction<'a> {
    match *command {
        Command::Save(file) => match name_in(&mut session.answer, file) {
            Some(file) => HostAction::Save(file),
            None => HostAction::Refuse,
        },
        Command::Record(file) => match name_in(&mut session.answer, file) {
            Some(file) if !session.script.is_empty() => HostAction::Record(file),
            _ => HostAction::Refuse,
        },
        Command::Do(file) => match file_to_obey(session, file) {
            Some(file) => HostAction::Do(file),
            None => HostAction::Refuse,
        },
        Command::Quit => HostAction::Quit,
        _ => HostAction::Keep,
    }
}

/// The name of a file as text; `None`, which is reported, where it is no text.
fn name_in<'a>(answer: &mut PendingText, file: &'a [u8]) -> Option<&'a str> {
    let name = str::from_utf8(file).ok();
    if name.is_none() {
        answer.say("? : the name of a file is no text\n");
    }
    name
}

/// The name of a file whose lines are to be obeyed; `None`, which is reported, where it is no text, or where the line that names
/// it is a line of such a file itself.
fn file_to_obey<'a>(session: &mut Session, file: &'a [u8]) -> Option<&'a str> {
    let Some(obeyed) = session.file_lines.file() else {
        return name_in(&mut session.answer, file);
    };
    session.answer.say("? ");
    session.answer.say(obeyed);
    session
        .answer
        .say(": a file of lines obeys no other file\n");
    None
}

/// Obeys a command that goes back, or forward again; any other goes to `obey_move`.
fn obey(session: &mut Session, timeline: &mut Timeline, command: &Command<'_>)
    ensures { only_looks command.now ≡ true → timeline.new ≡ timeline.old }
{
    match *command {
        Command::Back(steps) => back(session, timeline, steps),
        Command::BackTo(address) => back_to(session, timeline, address),
        Command::BackWrite(address) => back_to_write(session, timeline, address),
        Command::Forward => forward(session, timeline),
        _ => obey_move(session, timeline, command),
    }
}

/// Whether a command makes something happen to the machine; `deposit`, `go` and `start_at` find that out themselves.
fn makes_happen(command: &Command<'_>) -> bool {
    match *command {
        Command::Proceed(_)
        | Command::ProceedOn
        | Command::Execute(_)
        | Command::ExecuteWord(_)
        | Command::ExecuteCall
        | Command::Step(_)
        | Command::Run(_)
        | Command::Tick(_)
        | Command::Type(_, _)
        | Command::Take => true,
        _ => false,
    }
}

/// Obeys a command that makes something happen to the machine; any other goes to `obey_look`. Lines of the input that are typed
/// ahead of where the machine stands are forgotten with all that is ahead.
fn obey_move(session: &mut Session, timeline: &mut Timeline, command: &Command<'_>)
    ensures { only_looks command.now ≡ true → timeline.new ≡ timeline.old }
{
    if makes_happen(command) {
        session.input.forget(timeline.happened());
    }
    match *command {
        Command::Deposit(word) => deposit(session, timeline, word),
        Command::Change(address, word) => change(session, timeline, address, word),
        Command::Go => go(session, timeline),
        Command::GoAt(address) => start_at(session, timeline, address),
        Command::Proceed(times) => proceed(session, timeline, times, RUN_STEPS as u32),
        Command::ProceedOn => proceed_on(session, timeline),
        Command::ExecuteWord(word) => execute_word(session, timeline, word),
        Command::Run(most) => proceed(session, timeline, 1, most),
        Command::Execute(count) => execute(session, timeline, count),
        Command::ExecuteCall => execute_call(session, timeline),
        Command::Step(count) => step(session, timeline, count),
        Command::Tick(count) => make(&mut session.answer, timeline, Entry::Ticks(count)),
        Command::Type(line, text) => type_at(&mut session.answer, timeline, line, text),
        Command::Take => take(session, timeline),
        _ => obey_look(session, timeline, command),
    }
}

/// Obeys a command that leaves the machine as it is: it opens addresses, sets stops, shows something, or makes a script.
fn obey_look(session: &mut Session, timeline: &Timeline, command: &Command<'_>) {
    match *command {
        Command::Next => open(session, timeline, next_address(session.here)),
        Command::Previous => open(session, timeline, previous_address(session.here)),
        Command::Addressed => open(session, timeline, session.last.right()),
        Command::Open(address) => open(session, timeline, address),
        Command::OpenAs(address, opening) => open_as(session, timeline, address, opening),
        Command::Evaluate(word, retype) => evaluate(session, word, retype),
        Command::SetMode(mode) => session.mode = mode,
        Command::SetAddresses(is_absolute) => session.is_absolute = is_absolute,
        Command::OpenMask => open_mask(session),
        Command::ChangeMask(mask) => change_mask(session, mask),
        Command::ShowBreakpoint(number) => show_one(session, number),
        Command::Retype(retype) => show_last(session, retype.mode()),
        Command::Examine(first, last) => examine(session, timeline, first, last),
        Command::Search(wanted) => search(session, timeline, &wanted),
        Command::SetBreakpoint(wanted) => set(session, timeline, &wanted),
        Command::ClearBreakpoint(number) => unset(session, number),
        Command::ListStops => show_stops(session),
        Command::Watch(address) => watch(session, timeline, address),
        Command::BreakLock(name) => stop_at_lock(session, name),
        Command::BreakGrant => stop_at_grants(session),
        Command::BreakCircle => stop_at_circles(session),
        Command::Job(number) => open_job(session, timeline, number),
        Command::Jobs => show_jobs(session, timeline),
        Command::Locks => show_locks(&mut session.answer, timeline),
        Command::Waits => show_waits(&mut session.answer, timeline),
        Command::Registers => show_registers(session, timeline),
        Command::History(count) => show_history(session, timeline, count),
        Command::Record(_) => record(session, timeline),
        Command::Help(word) => help(&mut session.answer, word),
        _ => {}
    }
}

/// `.HELP` and `.HELP word`: lists all commands, or those in which the word stands.
fn help(answer: &mut PendingText, word: &[u8]) {
    if !add_help(answer, word) {
        report_error(answer, LineError::NoCommand);
    }
}
