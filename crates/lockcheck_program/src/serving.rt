//! The whole program over any ports.
ghost use Rattle.std.specs.Prelude.{◌≡◌, ◌++◌, List, false, IfErr, IfOk, codes, map};
ghost use Rattle.std.specs.Str.Lines.{lines};
ghost use Rattle.clap.specs.Words.{Text, kind_of};
ghost use Rattle.lockcheck_program.specs.Arguments.{IsDue};
ghost use Rattle.lockcheck_program.specs.Checks.{Checks, IsFound, WritesText};
ghost use Rattle.lockcheck_program.specs.Runs.{RefusesArguments, Runs};
ghost use Rattle.lockcheck_program.specs.Reading.{IsReason, programs_of};
ghost use Rattle.lockcheck_program.specs.Reports.{counted, looked_status, looked_text, report_status};

use crate::arguments::read_arguments;
use crate::input::read_script;
use crate::reading::{ScriptError, read_programs};
use crate::refusals::{refuse_script, report_memory};
use crate::report::{push_counted, report_text};
use crate::statuses::{CIRCLE, STUCK};
use clap::Error;
use clap::error::ErrorKind;
use lockcheck_orders::{Looked, Programs, Report, look};
use program_shell::{DONE, FAILED, FailureLines, USAGE, report_to, usage_text};
use script_io::{ByteIn, ByteOut, write_all};
use state_search::Watch;
use std::alloc::{AllocError, Global};
use std::convert::AsStr;
use std::rt::Files;

/// The lines by which the program reports a failure.
pub const FAILURE_LINES: FailureLines = FailureLines {
    read: b"lockcheck: read\n",
    write: b"lockcheck: write\n",
    memory: b"lockcheck: memory\n",
};

/// What is written, and the exit status.
#[derive(Drop)]
struct Answered {
    text: Vec<u8>,
    status: u8,
}

/// The exit status for a report.
fn status_of(report: &Report) -> u8
    ensures { result ≡ report_status report.now.circle report.now.stuck }
{
    match (&report.circle, &report.stuck) {
        (Some(_), _) => CIRCLE,
        (None, Some(_)) => STUCK,
        (None, None) => DONE,
    }
}

/// The words for a search that gave up.
#[tactic(auto, using(std::proofs::Common::append_assoc))]
fn gave_up_text(alloc: Global, states: usize) -> Result<Vec<u8>, AllocError>
    ensures { IfOk result (λ text. text.items ≡ codes "GAVE UP after " ++ counted states (codes "state") ++ codes "\n") }
{
    let mut text = Vec::new(alloc);
    text.extend_from_slice(b"GAVE UP after ")?;
    push_counted(&mut text, states, b"state")?;
    text.extend_from_slice(b"\n")?;
    Ok(text)
}

/// The text and the status for what was found.
fn told(
    alloc: Global,
    programs: &Programs,
    script: &[u8],
    looked: &Looked,
) -> Result<Answered, AllocError>
    ensures text { IfOk result (λ a. a.text.items ≡ looked_text (lines script.now) programs.now looked.now) }
    ensures status { IfOk result (λ a. a.status ≡ looked_status looked.now) }
{
    match looked {
        Looked::GaveUp(states) => {
            let text = gave_up_text(alloc, *states)?;
            Ok(Answered {
                text,
                status: FAILED,
            })
        }
        Looked::All(report) => {
            let text = report_text(alloc, programs, script, report)?;
            let status = status_of(report);
            Ok(Answered { text, status })
        }
    }
}

/// Looks at all orders of a script's calls, and gives the text and the status for that.
fn answer<T: Watch>(
    alloc: Global,
    script: &[u8],
    states: usize,
    all: bool,
    watch: &mut T,
) -> Result<Answered, ScriptError>
    ensures found { IfOk result (λ a. IsFound T.Looks watch.old watch.new script.now states all a.text.items a.status) }
    ensures refused { IfErr result (IsReason (programs_of script.now)) }
{
    let programs = read_programs(alloc, script)?;
    let looked = look(alloc, &programs, states, all, watch)?;
    let answered = told(alloc, &programs, script, &looked)?;
    Ok(answered)
}

/// Writes a text, and gives the exit status: this one, or `FAILED` if the writer failed, which is reported.
fn write_text<W: ByteOut, E: ByteOut>(writer: &mut W, text: &[u8], status: u8, errors: &mut E) -> u8
    requires writer_sound { W.has_failed writer.old ≡ false }
    requires errors_sound { E.has_failed errors.old ≡ false }
    ensures { WritesText text.now status (W.written writer.old) (W.written writer.new) (W.has_failed writer.new)
        (E.written errors.old) (E.written errors.new) (E.has_failed errors.new) result }
{
    match write_all(writer, text) {
        Ok(()) => status,
        Err(_) => report_to(errors, b"lockcheck: write\n", FAILED),
    }
}

/// Reports why the arguments are refused, or writes the help or the version that they ask for; gives the exit status.
fn refuse_arguments<W: ByteOut, E: ByteOut>(
    alloc: Global,
    error: &Error,
    writer: &mut W,
    errors: &mut E,
) -> u8
    requires writer_sound { W.has_failed writer.old ≡ false }
    requires errors_sound { E.has_failed errors.old ≡ false }
    ensures { (arguments : List Text) → IsDue arguments (kind_of error.now)
        → RefusesArguments arguments (W.written writer.old) (W.written writer.new) (W.has_failed writer.new)
        (E.written errors.old) (E.written errors.new) (E.has_failed errors.new) result }
{
    let Ok(text) = usage_text(alloc, error) else {
        return report_memory(errors);
    };
    let said = text.as_str().as_bytes();
    match error.kind() {
        ErrorKind::OutOfMemory => report_memory(errors),
        ErrorKind::DisplayHelp | ErrorKind::DisplayVersion => {
            write_text(writer, said, DONE, errors)
        }
        _ => report_to(errors, said, USAGE),
    }
}

/// Looks at all orders of a script's calls, and writes the report. It gives the exit status: 0 where no order leads to
/// a circle and none leaves jobs waiting, 4 where one leads to a circle, 5 where one only leaves jobs waiting; 1 where
/// the script is refused, which is reported to `errors`; and 3 where there are more states than may be kept, or the
/// writer or memory failed.
pub fn check_script<W: ByteOut, E: ByteOut, T: Watch>(
    alloc: Global,
    states: usize,
    all: bool,
    script: &[u8],
    writer: &mut W,
    errors: &mut E,
    watch: &mut T,
) -> u8
    requires writer_sound { W.has_failed writer.old ≡ false }
    requires errors_sound { E.has_failed errors.old ≡ false }
    ensures { Checks T.Looks watch.old watch.new script.now states all
        (W.written writer.old) (W.written writer.new) (W.has_failed writer.new)
        (E.written errors.old) (E.written errors.new) (E.has_failed errors.new) result }
{
    match answer(alloc, script, states, all, watch) {
        Ok(answered) => write_text(writer, answered.text.as_slice(), answered.status, errors),
        Err(error) => refuse_script(alloc, script, error, errors),
    }
}

/// Reads the script of the file that the arguments name, or of the reader, looks at all orders of its calls, and writes
/// the report. The arguments begin with the program's name. It gives the exit status, as `check_script` does, and 2
/// where the arguments are refused, which is reported to `errors`. The help and the version, where the arguments ask
/// for them, are written in place of a report, with status 0. `watch` is shown how far the search is.
pub fn program<F: Files + AllocGlobal, S: AsStr, R: ByteIn, W: ByteOut, E: ByteOut, T: Watch>(
    rt: &F,
    arguments: &[S],
    reader: &mut R,
    writer: &mut W,
    errors: &mut E,
    watch: &mut T,
) -> u8
    requires reader_sound { R.has_failed reader.old ≡ false }
    requires writer_sound { W.has_failed writer.old ≡ false }
    requires errors_sound { E.has_failed errors.old ≡ false }
    ensures { Runs T.Looks watch.old watch.new (map S.text arguments.now) (R.to_come reader.old) (R.to_come reader.new)
        (W.written writer.old) (W.written writer.new) (W.has_failed writer.new)
        (E.written errors.old) (E.written errors.new) (E.has_failed errors.new) result }
{
    let alloc = rt.alloc();
    let options = match read_arguments(alloc, arguments) {
        Ok(options) => options,
        Err(error) => return refuse_arguments(alloc, &error, writer, errors),
    };
    match read_script(rt, &options.file, reader, errors) {
        Ok(script) => {
            let (states, all) = (options.states, options.all);
            check_script(alloc, states, all, script.as_slice(), writer, errors, watch)
        }
        Err(status) => status,
    }
}
