//! The program: runs the programs that its arguments name in every order in which their turns can come one after another, and
//! writes what holds of all.
#![tactic(auto)]

use orders_program::{FAILURE_LINES, orders};
use program_shell::{Answers, Failure, LineReader, Terminal, arguments_or_status, report_failure};
use script_io::{HostIn, HostOut};
use search_progress::Progress;
use std::io::IsTerminal;
use std::process::ExitCode;

fn main(rt: HostRuntime) -> ExitCode {
    let alloc = rt.alloc();
    let mut errors = HostOut::new(rt.stderr());
    let arguments = match arguments_or_status(&rt, FAILURE_LINES.memory, &mut errors) {
        Ok(arguments) => arguments,
        Err(status) => return ExitCode::from(status),
    };
    let Ok(input) = LineReader::new(alloc, HostIn::new(rt.stdin())) else {
        let status = report_failure(&mut errors, &FAILURE_LINES, Failure::Memory);
        return ExitCode::from(status);
    };
    let is_person = rt.stderr().is_terminal();
    let mut watch = Progress::new(HostOut::new(rt.stderr()), b"orders: ", is_person);
    let mut terminal = Terminal {
        rt: &rt,
        is_person,
        input,
        output: Answers::new(HostOut::new(rt.stdout())),
        errors: Answers::new(errors),
    };
    ExitCode::from(orders(alloc, arguments.as_slice(), &mut terminal, &mut watch))
}
