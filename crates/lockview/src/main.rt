//! The program: reads a script from a file or standard input, writes its picture, or with reasons its answers, to standard
//! output, and reports to standard error what is wrong with a line that is refused.
#![tactic(auto)]

mod arguments;
mod axis;
mod called;
mod run_course;
mod run_lines;
mod run_reasons;
mod serving;
mod text;

use program_shell::arguments_or_status;
use script_io::{HostIn, HostOut};
use serving::{FAILURE_LINES, program};
use std::process::ExitCode;

fn main(rt: HostRuntime) -> ExitCode {
    let mut errors = HostOut::new(rt.stderr());
    let arguments = match arguments_or_status(&rt, FAILURE_LINES.memory, &mut errors) {
        Ok(arguments) => arguments,
        Err(status) => return ExitCode::from(status),
    };
    let mut reader = HostIn::new(rt.stdin());
    let mut writer = HostOut::new(rt.stdout());
    let status = program(
        &rt,
        arguments.as_slice(),
        &mut reader,
        &mut writer,
        &mut errors,
    );
    ExitCode::from(status)
}
