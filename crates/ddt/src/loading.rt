//! The programs of sources and core images, and the jobs that are logged in for them.

use crate::session::{Session, SessionJob};
use ddt_show::ShownJob;
use ddt_timeline::{Entry, Timeline};
use image_files::Packing;
use monitor::{Answer, RefusedEvent};
use program_files::{ProgramFile, read_programs};
use program_shell::PendingText;
use run_notes::login_refusal_text;
use shown_bytes::push_shown;
use source_labels::{MOST_REPORTED, Program};

/// Adds a job that was logged in.
fn add_job(session: &mut Session, file: &str, shown: ShownJob, written: Option<Vec<u8>>) {
    let alloc = session.alloc;
    let mut job = SessionJob {
        shown,
        file: String::new(alloc),
        symbols: Vec::new(alloc),
        written,
    };
    let is_whole = push_shown(&mut job.file, file.as_bytes()).is_ok() && job.add_symbols().is_ok();
    if session.jobs.push(job).is_err() || !is_whole {
        session.answer.fail();
    }
}

/// Reports why a program is not logged in.
fn report_refusal(report: &mut PendingText, file: &str, refusal: RefusedEvent) {
    report.say(file);
    report.say(": ");
    report.say(login_refusal_text(refusal));
    report.end_line();
}

/// Logs a program in at the next line, and adds its job; false where it is refused, which is reported.
fn log_in(session: &mut Session, timeline: &mut Timeline, program: Program<'_>) -> bool {
    let line = session.lines();
    let Program {
        file,
        image,
        places,
        written,
        typed: _typed,
    } = program;
    match timeline.make(Entry::Login(line, image)) {
        Ok(Answer::JobNumber(number)) => {
            add_job(session, file, ShownJob { number, places }, written);
            true
        }
        Ok(Answer::Refused(refusal)) => {
            report_refusal(&mut session.answer, file, refusal);
            false
        }
        Ok(_) => {
            report_refusal(&mut session.answer, file, RefusedEvent::NoJobNumber);
            false
        }
        Err(_) => {
            session.answer.fail();
            false
        }
    }
}

/// Reads the programs of all files, of which core images have their words packed so, and logs them in at the lines from 0 on;
/// none is started. False where a file or a program is refused. The answer reports that, and warnings.
pub fn begin(
    session: &mut Session,
    timeline: &mut Timeline,
    sources: &[ProgramFile<'_>],
    from: Packing,
) -> bool {
    let Some(programs) = read_programs(sources, from, MOST_REPORTED, &mut session.answer) else {
        return false;
    };
    for program in programs {
        if !log_in(session, timeline, program) {
            return false;
        }
    }
    if let Some(view) = timeline.machine().job(1) {
        session.here = view.pc.number();
    }
    true
}
