//! The program `macro`: a source in MACRO-10 to a source of its words, with a listing and a cross-reference where they are
//! wanted.
#![tactic(auto)]

mod arguments;
mod serving;
mod survey;

use program_shell::arguments_or_status;
use script_io::{HostIn, HostOut};
use serving::{FAILURE_LINES, program};
use std::process::ExitCode;

fn main(rt: HostRuntime) -> ExitCode {
    let mut errors = HostOut::new(rt.stderr());
    let arguments = match arguments_or_status(&rt, FAILURE_LINES.memory, &mut errors) {
        Ok(arguments) => arguments,
        Err(status) => return ExitCode::from(status),
    };
    let mut reader = HostIn::new(rt.stdin());
    let mut writer = HostOut::new(rt.stdout());
    let status = program(
        &rt,
        arguments.as_slice(),
        &mut reader,
        &mut writer,
        &mut errors,
    );
    ExitCode::from(status)
}
