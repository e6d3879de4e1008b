//! The debugger: a session on a machine, driven by lines in the manner of DDT, on the sources that its arguments name.
#![tactic(auto)]

mod arguments;
mod changes;
mod dialogue;
mod examining;
mod file_lines;
mod files;
mod going_back;
mod histories;
mod host;
mod loading;
mod obey;
mod options;
mod program;
mod recording;
mod run_ends;
mod runs;
mod searches;
mod session;
mod stop_commands;
mod tables;
mod texts;

use program::{ddt, not_begun};
use program_shell::{Answers, LineReader, Terminal, arguments_of};
use script_io::{HostIn, HostOut};
use std::io::{ErrorKind, IsTerminal};
use std::process::ExitCode;

fn main(rt: HostRuntime) -> ExitCode {
    let alloc = rt.alloc();
    let errors = HostOut::new(rt.stderr());
    let arguments = match arguments_of(&rt) {
        Ok(arguments) => arguments,
        Err(error) => return ExitCode::from(not_begun(alloc, error.kind(), errors)),
    };
    let Ok(input) = LineReader::new(alloc, HostIn::new(rt.stdin())) else {
        return ExitCode::from(not_begun(alloc, ErrorKind::OutOfMemory, errors));
    };
    let mut terminal = Terminal {
        rt: &rt,
        is_person: rt.stderr().is_terminal(),
        input,
        output: Answers::new(HostOut::new(rt.stdout())),
        errors: Answers::new(errors),
    };
    ExitCode::from(ddt(alloc, arguments.as_slice(), &mut terminal))
}
