//! The program: an image or a source from a file or standard input, another form of it to standard output or a file,
//! and what is wrong with an input that is refused to standard error.
#![tactic(auto)]

ghost use Rattle.std.specs.Prelude.{◌≡◌, false};
ghost use Rattle.image.specs.Statuses.{status_for};

mod arguments;
mod reasons;
mod serving;

use arguments::read_arguments;
use image_service::{Ending, ImageCommand};
use program_shell::{
    DONE, FAILED, FailureLines, REFUSED, arguments_or_status, refuse_arguments, report_failure,
    report_to,
};
use reasons::reason_of;
use script_io::{ByteOut, HostOut};
use serving::{Carried, Stop, carry_out};
use std::alloc::Global;
use std::process::ExitCode;

/// The lines by which the program reports a failure.
const FAILURE_LINES: FailureLines = FailureLines {
    read: b"image: read\n",
    write: b"image: write\n",
    memory: b"image: memory\n",
};

/// Reports how a command ended, and gives the exit status.
fn status_of<E: ByteOut>(
    alloc: Global,
    command: ImageCommand,
    ended: Result<Carried, Stop>,
    errors: &mut E,
) -> u8
    requires { E.has_failed errors.old ≡ false }
    ensures { result ≡ status_for ended }
{
    match ended {
        Ok(carried) if carried.ending == Ending::Done => DONE,
        Ok(carried) => match reason_of(alloc, command, &carried) {
            Ok(text) => report_to(errors, text.as_slice(), REFUSED),
            Err(_) => REFUSED,
        },
        Err(Stop::Failed(failure)) => report_failure(errors, &FAILURE_LINES, failure),
        Err(Stop::File(line)) => report_to(errors, line.as_str().as_bytes(), FAILED),
    }
}

fn main(rt: HostRuntime) -> ExitCode {
    let alloc = rt.alloc();
    let mut errors = HostOut::new(rt.stderr());
    let arguments = match arguments_or_status(&rt, FAILURE_LINES.memory, &mut errors) {
        Ok(arguments) => arguments,
        Err(status) => return ExitCode::from(status),
    };
    let status = match read_arguments(alloc, arguments.as_slice()) {
        Ok(options) => status_of(
            alloc,
            options.command,
            carry_out(&rt, &options),
            &mut errors,
        ),
        Err(refusal) => {
            let mut writer = HostOut::new(rt.stdout());
            refuse_arguments(alloc, refusal, &FAILURE_LINES, &mut writer, &mut errors)
        }
    };
    ExitCode::from(status)
}
