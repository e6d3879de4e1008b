//! The program: assembles the sources that its arguments name, and runs them.
#![tactic(auto)]

mod arguments;
mod history;
mod jobs;
mod loading;
mod notes;
mod options;
mod picture;
mod program;
mod recording;
mod running;
mod session;
mod terminal;
mod texts;
mod typing;
mod waits;

use program::{FAILURE_LINES, ten};
use program_shell::{Answers, Failure, LineReader, Terminal, arguments_or_status, report_failure};
use script_io::{HostIn, HostOut};
use std::io::IsTerminal;
use std::process::ExitCode;

fn main(rt: HostRuntime) -> ExitCode {
    let alloc = rt.alloc();
    let mut errors = HostOut::new(rt.stderr());
    let arguments = match arguments_or_status(&rt, FAILURE_LINES.memory, &mut errors) {
        Ok(arguments) => arguments,
        Err(status) => return ExitCode::from(status),
    };
    let Ok(input) = LineReader::new(alloc, HostIn::new(rt.stdin())) else {
        let status = report_failure(&mut errors, &FAILURE_LINES, Failure::Memory);
        return ExitCode::from(status);
    };
    let mut terminal = Terminal {
        rt: &rt,
        is_person: rt.stderr().is_terminal(),
        input,
        output: Answers::new(HostOut::new(rt.stdout())),
        errors: Answers::new(errors),
    };
    ExitCode::from(ten(alloc, arguments.as_slice(), &mut terminal))
}
