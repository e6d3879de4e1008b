//! Jobs that are run.

use crate::options::Options;
use crate::session::Session;
use concrete_machine::Machine;
use program_files::write_pending;
use program_shell::{Failure, Host, Stream};
use run_facts::Cut;

/// Types lines of the input as long as jobs wait for characters and lines come. With `echo` each is added to the output.
/// Returns whether a line is wanted that has not come yet.
fn type_awaited<H: Host>(
    host: &mut H,
    session: &mut Session,
    machine: &mut Machine,
    echo: bool,
) -> Result<bool, Failure> {
    let (typing, jobs) = (&mut session.typing, session.jobs.as_slice());
    let recording = &mut session.recording;
    typing.type_on(machine, recording);
    for _ in 0..u64::MAX {
        if !typing.wants_line(machine, jobs) {
            break;
        }
        let has_come = host.next_text(&mut typing.text)?;
        typing.has_ended = host.has_ended();
        if !has_come {
            return Ok(!typing.has_ended);
        }
        if typing.begin(machine, jobs, recording).is_err() {
            return Err(Failure::Memory);
        }
        if echo {
            session.output.add(typing.text.as_slice());
        }
    }
    Ok(false)
}

/// So many steps are made where the options do not say how many.
const UNASKED_STEPS: u64 = 100_000_000;

/// To a person it is told behind each of so many steps how far the run is.
const TOLD_STEPS: u64 = 10_000_000;

/// Tells a person how far the run is, where that many steps are whole since it was told last.
fn tell_steps<H: Host>(host: &H, session: &mut Session, before: u64, made: u64) {
    if before / TOLD_STEPS < made / TOLD_STEPS && host.is_person() {
        let millions = made / TOLD_STEPS * 10;
        session
            .errors
            .say_number("ten: ", millions, " million steps\n");
    }
}

/// Makes at most as many steps as the options say, until no job goes on. Gives whether it made them all.
fn run<H: Host>(
    host: &mut H,
    session: &mut Session,
    machine: &mut Machine,
    options: &Options<'_>,
) -> Result<Cut, Failure> {
    let (most, mut cut) = match options.steps {
        Some(steps) => (steps, Cut::Asked),
        None => (UNASKED_STEPS, Cut::Unasked),
    };
    let mut made = 0u64;
    for _ in 0..most {
        if made >= most {
            break;
        }
        let is_wanted = type_awaited(host, session, machine, options.echo)?;
        let wanted = if is_wanted {
            1
        } else {
            most.saturating_sub(made).min(TOLD_STEPS)
        };
        let progress = session.advance(machine, wanted);
        let before = made;
        made = made.saturating_add(progress.made);
        write_pending(host, Stream::Output, &mut session.output)?;
        tell_steps(host, session, before, made);
        write_pending(host, Stream::Errors, &mut session.errors)?;
        if !progress.goes_on {
            cut = Cut::No;
            break;
        }
    }
    session.flush();
    write_pending(host, Stream::Output, &mut session.output).and(Ok(cut))
}

/// Runs the jobs of a session, reports how each ended, and gives the exit status. Where memory is refused, how many steps were
/// made may not be known, so nothing is reported of the jobs' ends.
pub fn run_jobs<H: Host>(
    host: &mut H,
    session: &mut Session,
    machine: &mut Machine,
    options: &Options<'_>,
) -> Result<u8, Failure> {
    let ran = run(host, session, machine, options);
    let cut = match ran {
        Ok(cut) => cut,
        Err(Failure::Memory) => return Err(Failure::Memory),
        Err(_) => Cut::No,
    };
    let status = session.report_ends(machine, options.names.as_slice(), cut);
    write_pending(host, Stream::Errors, &mut session.errors)?;
    ran.and(Ok(status))
}
