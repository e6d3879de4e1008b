//! The program: reads a script from standard input, writes its transcript to standard output, and reports to standard
//! error what is wrong with a line that is refused.
#![tactic(auto)]

use command_line::{KeptIn, language_of, program_reporting, unread_arguments};
use program_shell::arguments_of;
use script_io::{HostIn, HostOut};
use std::process::ExitCode;

fn main(rt: HostRuntime) -> ExitCode {
    let alloc = rt.alloc();
    let mut errors = HostOut::new(rt.stderr());
    let arguments = match arguments_of(&rt) {
        Ok(arguments) => arguments,
        Err(error) => return ExitCode::from(unread_arguments(error.kind(), &mut errors)),
    };
    let language = language_of(arguments.as_slice());
    let mut reader = KeptIn::new(alloc, language, HostIn::new(rt.stdin()));
    let mut writer = HostOut::new(rt.stdout());
    let mut reports = HostOut::new(rt.stderr());
    let mut notes = HostOut::new(rt.stderr());
    let status = program_reporting(
        alloc,
        arguments.as_slice(),
        &mut reader,
        &mut writer,
        &mut errors,
        &mut reports,
        &mut notes,
    );
    ExitCode::from(status)
}
