//! The whole program.

use crate::arguments::read_arguments;
use crate::options::Options;
use crate::running::run_jobs;
use crate::session::Session;
use concrete_machine::Machine;
use program_files::{ProgramFile, answer_refusal, read_all_files, write_kept, write_pending};
use program_shell::{FAILED, Failure, FailureLines, Host, REFUSED, Stream};
use std::alloc::Global;

/// The lines by which the program reports a failure.
pub const FAILURE_LINES: FailureLines = FailureLines {
    read: b"ten: the input cannot be read\n",
    write: b"ten: the output cannot be written\n",
    memory: b"ten: there is no memory\n",
};

/// Writes the picture of a run that had this status, if it is asked for, and gives the status, or `FAILED` where the picture
/// cannot be written.
fn write_picture<H: Host>(
    host: &mut H,
    session: &mut Session,
    machine: &Machine,
    file: Option<&str>,
    status: u8,
) -> Result<u8, Failure> {
    let Ok(svg) = session.take_svg(machine) else {
        return Err(Failure::Memory);
    };
    match (file, svg) {
        (Some(file), Some(svg)) => {
            let (head, errors) = ("ten: the picture cannot be written: ", &mut session.errors);
            write_kept(host, head, file, svg.as_str().as_bytes(), status, errors)
        }
        _ => Ok(status),
    }
}

/// Writes the script of a run that had this status, if it is asked for, and gives the status, or `FAILED` where the script
/// cannot be written.
fn write_script<H: Host>(
    host: &mut H,
    session: &mut Session,
    options: &Options<'_>,
    status: u8,
) -> Result<u8, Failure> {
    let Ok(script) = session
        .recording
        .script(session.errors.alloc, options.config)
    else {
        return Err(Failure::Memory);
    };
    match (options.record, script) {
        (Some(file), Some(script)) => {
            let (head, errors) = ("ten: the script cannot be written: ", &mut session.errors);
            write_kept(host, head, file, script.as_slice(), status, errors)
        }
        _ => Ok(status),
    }
}

/// Assembles sources, runs a job for each of them, writes the picture and the script of the run if they are asked for, and
/// gives the exit status.
fn serve_sources<H: Host>(
    host: &mut H,
    session: &mut Session,
    machine: &mut Machine,
    sources: &[ProgramFile<'_>],
    options: &Options<'_>,
) -> Result<u8, Failure> {
    let has_begun = session.begin(machine, sources, options);
    write_pending(host, Stream::Errors, &mut session.errors)?;
    if !has_begun {
        return Ok(REFUSED);
    }
    let status = run_jobs(host, session, machine, options)?;
    let drawn = write_picture(host, session, machine, options.picture, status)?;
    write_script(host, session, options, drawn)
}

/// Reads the sources that the options name, runs them, and gives the exit status.
fn serve<H: Host>(alloc: Global, options: &Options<'_>, host: &mut H) -> Result<u8, Failure> {
    let Ok(mut machine) = Machine::boot(alloc, options.config) else {
        return Err(Failure::Memory);
    };
    let mut session = Session::new(alloc, options);
    let mut sources = Vec::new(alloc);
    let (files, names) = (options.files.as_slice(), options.names.as_slice());
    let errors = &mut session.errors;
    let are_read = read_all_files(host, "ten: ", files, names, &mut sources, errors);
    let reported = write_pending(host, Stream::Errors, &mut session.errors);
    let served = match reported {
        Err(failure) => Err(failure),
        Ok(()) if are_read => serve_sources(
            host,
            &mut session,
            &mut machine,
            sources.as_slice(),
            options,
        ),
        Ok(()) => Ok(FAILED),
    };
    session.end(machine);
    served
}

/// Does what the arguments, which begin with the program's name, ask for, and gives the exit status: reads files,
/// assembles them and runs them. Input is read only when a job waits for it. A picture and a script that are asked
/// for are written behind the run. The help and the version go to the output, and then nothing is run.
pub fn ten<H: Host>(alloc: Global, arguments: &[String], host: &mut H) -> u8 {
    let served = match read_arguments(alloc, arguments) {
        Ok(options) => serve(alloc, &options, host),
        Err(refusal) => answer_refusal(alloc, refusal, host),
    };
    match served {
        Ok(status) => status,
        Err(failure) => {
            let _ = host.write(Stream::Errors, FAILURE_LINES.of(failure));
            FAILED
        }
    }
}
