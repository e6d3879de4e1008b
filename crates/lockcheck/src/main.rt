//! The program: reads a script from a file or standard input, writes a report on all orders of its calls to standard
//! output, and reports to standard error what is wrong with a line that is refused.
#![tactic(auto)]

use lockcheck_program::{FAILURE_LINES, program};
use program_shell::arguments_or_status;
use script_io::{HostIn, HostOut};
use search_progress::Progress;
use std::io::IsTerminal;
use std::process::ExitCode;

fn main(rt: HostRuntime) -> ExitCode {
    let mut errors = HostOut::new(rt.stderr());
    let arguments = match arguments_or_status(&rt, FAILURE_LINES.memory, &mut errors) {
        Ok(arguments) => arguments,
        Err(status) => return ExitCode::from(status),
    };
    let mut reader = HostIn::new(rt.stdin());
    let mut writer = HostOut::new(rt.stdout());
    let is_wanted = rt.stderr().is_terminal();
    let mut watch = Progress::new(HostOut::new(rt.stderr()), b"lockcheck: ", is_wanted);
    let status = program(
        &rt,
        arguments.as_slice(),
        &mut reader,
        &mut writer,
        &mut errors,
        &mut watch,
    );
    ExitCode::from(status)
}
