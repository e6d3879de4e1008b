//! The whole program.
ghost use Rattle.std.specs.Prelude.{◌≡◌, ◌≢◌, false};

use crate::arguments::Arguments;
use crate::dialogue::serve_lines;
use crate::files::read_file;
use crate::host::write_report;
use crate::loading::begin;
use crate::options::read_arguments;
use crate::session::Session;
use crate::texts;
use ddt_moves::InputLines;
use ddt_timeline::Timeline;
use program_files::{ProgramFile, answer_refusal, read_files};
use program_shell::{Answers, FAILED, Failure, Host, PendingText, REFUSED, Stream, USAGE};
use script_io::ByteOut;
use std::alloc::{AllocError, Global};
use std::io::ErrorKind;

/// How a line begins that reports a file which cannot be read.
const ERROR_HEAD: &str = "ddt: ";

/// Reads all sources; false where one cannot be read, of which the first is reported.
fn read_sources<'a, H: Host>(
    host: &H,
    files: &[&'a str],
    report: &mut PendingText,
    sources: &mut Vec<ProgramFile<'a>>,
) -> bool {
    for file in files {
        let Some(read) = read_files(host, ERROR_HEAD, file, file, report) else {
            return false;
        };
        if sources.push(read).is_err() {
            report.fail();
        }
    }
    true
}

/// Reads the file of `--input`, if it is named; false where it cannot be read, which is reported.
fn read_input<H: Host>(host: &H, file: Option<&str>, session: &mut Session) -> bool {
    let Some(file) = file else {
        return true;
    };
    match read_file(host, ERROR_HEAD, file, &mut session.answer) {
        Some(text) => {
            session.input = InputLines::new(session.alloc, text);
            true
        }
        None => false,
    }
}

/// The line on what went wrong.
fn failure_line(alloc: Global, failure: Failure) -> Result<String, AllocError> {
    format!(in alloc; "ddt: {failure}\n")
}

/// Reads the files of the arguments, and logs a job in for each program; gives the exit status where that fails. The answer reports
/// what is wrong, and warnings, and has the banner for a person.
fn load<H: Host>(
    host: &H,
    arguments: &Arguments<'_>,
    session: &mut Session,
    timeline: &mut Timeline,
) -> Option<u8> {
    let mut sources = Vec::new(session.alloc);
    let files = arguments.files.as_slice();
    if !read_sources(host, files, &mut session.answer, &mut sources)
        || !read_input(host, arguments.input, session)
    {
        Some(FAILED)
    } else if begin(session, timeline, sources.as_slice(), arguments.from) {
        if host.is_person() {
            session.answer.say(texts::BANNER);
        }
        let jobs = session.jobs.as_slice();
        let head = &mut session.head;
        if head
            .begin(arguments.config, jobs, sources.as_slice())
            .is_err()
        {
            session.answer.fail();
        }
        None
    } else {
        Some(REFUSED)
    }
}

/// Runs a session, and gives the exit status. What is reported before the first line goes to the errors.
fn run_session<H: Host>(
    alloc: Global,
    arguments: &Arguments<'_>,
    host: &mut H,
) -> Result<u8, Failure> {
    let Ok(mut timeline) = Timeline::new(alloc, arguments.config) else {
        return Err(Failure::Memory);
    };
    let mut session = Session::new(alloc);
    let mut line = Vec::new(alloc);
    let ended = load(host, arguments, &mut session, &mut timeline);
    let reported = write_report(host, &mut session.answer);
    let served = match (reported, ended) {
        (Err(failure), _) => Err(failure),
        (Ok(()), Some(status)) => Ok(status),
        (Ok(()), None) => {
            let inputs = arguments.inputs.as_slice();
            serve_lines(host, inputs, &mut session, &mut timeline, &mut line)
        }
    };
    session.end(timeline);
    served
}

/// Runs the program on its arguments, which begin with its name, and gives the exit status: reads the files, assembles them, logs a
/// job in for each, and obeys lines until the session ends. Where the arguments ask for the help or the version, that is the
/// answer, and there is no session.
pub fn ddt<H: Host>(alloc: Global, arguments: &[String], host: &mut H) -> u8 {
    let served = match read_arguments(alloc, arguments) {
        Ok(arguments) => run_session(alloc, &arguments, host),
        Err(refusal) => answer_refusal(alloc, refusal, host),
    };
    match served {
        Ok(status) => status,
        Err(failure) => {
            if let Ok(text) = failure_line(alloc, failure) {
                let _ = host.write(Stream::Errors, text.as_str().as_bytes());
            }
            FAILED
        }
    }
}

/// Reports why the program cannot begin, and gives the exit status: an argument is no text (`InvalidData`), or there was no memory
/// (any other kind).
pub fn not_begun<E: ByteOut + Drop>(alloc: Global, kind: ErrorKind, errors: E) -> u8
    requires { E.has_failed errors ≡ false }
    ensures no_text { kind ≡ ErrorKind.InvalidData → result ≡ USAGE }
    ensures no_memory { kind ≢ ErrorKind.InvalidData → result ≡ FAILED }
{
    let mut errors = Answers::new(errors);
    if kind == ErrorKind::InvalidData {
        let text = b"error: invalid UTF-8 was detected in one or more arguments\n";
        let _ = errors.write(text);
        USAGE
    } else {
        if let Ok(text) = failure_line(alloc, Failure::Memory) {
            let _ = errors.write(text.as_str().as_bytes());
        }
        FAILED
    }
}
