//! The whole program.
ghost use Rattle.std.specs.Prelude.{IfOk, length};
ghost use Rattle.job_orders.specs.Reports.{IsLooked};
ghost use Rattle.orders_program.specs.Begun.{start_of};
ghost use Rattle.orders_program.specs.Answers.{IsAnswer, IsScriptFor};

use crate::arguments::read_arguments;
use crate::following::follow;
use crate::loading::{LoadError, QUANTUM, Work, name_at};
use crate::looking::{look_at, moves_recorded, told};
use crate::options::Options;
use crate::recording::script_of;
use crate::refusals::Refused;
use job_orders::Looked;
use monitor::Config;
use order_report::{found_text, status_of};
use program_files::{
    ProgramFile, answer_refusal, are_recordable, read_all_files, read_programs, write_kept,
    write_pending,
};
use program_shell::{FAILED, Failure, FailureLines, Host, PendingText, REFUSED, Stream, USAGE};
use source_labels::MOST_REPORTED;
use state_search::Watch;
use std::alloc::Global;

/// The lines by which the program reports a failure.
pub const FAILURE_LINES: FailureLines = FailureLines {
    read: b"orders: read\n",
    write: b"orders: write\n",
    memory: b"orders: memory\n",
};

/// Reports why something is refused.
fn report_refused(refused: Refused<'_>, errors: &mut PendingText) {
    let alloc = errors.alloc;
    errors.say_made(format!(in alloc; "{refused}\n"));
}

/// Reports why jobs cannot begin, and gives the exit status.
fn report_load_error<H: Host>(
    host: &mut H,
    work: &Work<'_>,
    error: LoadError,
    errors: &mut PendingText,
) -> Result<u8, Failure> {
    match error {
        LoadError::Memory => Err(Failure::Memory),
        LoadError::Refused(position, refusal) => {
            let file = name_at(work.names, position);
            report_refused(Refused::Login(file, refusal), errors);
            write_pending(host, Stream::Errors, errors).and(Ok(REFUSED))
        }
    }
}

/// The script of the order that is to be recorded, if there is one.
fn script_for(
    alloc: Global,
    options: &Options<'_>,
    work: &Work<'_>,
    files: &[ProgramFile<'_>],
    looked: &Looked,
) -> Result<Option<Vec<u8>>, LoadError>
    requires { IsLooked options.now.turns options.now.states (start_of work.now) looked.now }
    ensures { IfOk result (λ script. IsScriptFor options.now.turns options.now.end work.now files.now looked.now script) }
{
    let Some(moves) = moves_recorded(looked, options.end) else {
        return Ok(None);
    };
    let followed = follow(alloc, work, options.turns, moves)?;
    let script = script_of(alloc, work, files, &followed)?;
    Ok(Some(script))
}

/// Records an order, if that is asked for, and gives this status, or another one if that is refused or fails.
fn record<H: Host>(
    host: &mut H,
    options: &Options<'_>,
    work: &Work<'_>,
    files: &[ProgramFile<'_>],
    looked: &Looked,
    status: u8,
    errors: &mut PendingText,
) -> Result<u8, Failure>
    requires { IsLooked options.now.turns options.now.states (start_of work.now) looked.now }
{
    let Some(file) = options.record else {
        return Ok(status);
    };
    match script_for(errors.alloc, options, work, files, looked) {
        Ok(Some(script)) => {
            let head = "orders: the script cannot be written: ";
            write_kept(host, head, file, script.as_slice(), status, errors)
        }
        Ok(None) => {
            let refused = match options.end {
                Some(number) => Refused::NoEnd(number),
                None => Refused::NoOrder,
            };
            report_refused(refused, errors);
            write_pending(host, Stream::Errors, errors).and(Ok(USAGE))
        }
        Err(_) => Err(Failure::Memory),
    }
}

/// The report on a search, as text, and the status.
#[derive(Drop)]
pub struct Answer {
    /// The text.
    pub text: Vec<u8>,
    /// The exit status.
    pub status: u8,
}

/// The text on what was found, and the status for it.
fn answer_to(
    alloc: Global,
    options: &Options<'_>,
    work: &Work<'_>,
    looked: &Looked,
) -> Result<Answer, LoadError>
    requires { IsLooked options.now.turns options.now.states (start_of work.now) looked.now }
    ensures { IfOk result (IsAnswer options.now.ends (length work.now.programs.now) looked.now) }
{
    let found = told(alloc, work, options, looked)?;
    let text = found_text(alloc, &found, options.ends)?;
    let status = status_of(&found);
    Ok(Answer { text, status })
}

/// Looks at every order of some programs, writes what was found, and gives the exit status.
fn serve_work<H: Host, T: Watch>(
    host: &mut H,
    options: &Options<'_>,
    work: &Work<'_>,
    files: &[ProgramFile<'_>],
    errors: &mut PendingText,
    watch: &mut T,
) -> Result<u8, Failure> {
    let alloc = errors.alloc;
    let looked = match look_at(alloc, work, options, watch) {
        Ok(looked) => looked,
        Err(error) => return report_load_error(host, work, error, errors),
    };
    let Ok(answer) = answer_to(alloc, options, work, &looked) else {
        return Err(Failure::Memory);
    };
    host.write(Stream::Output, answer.text.as_slice())?;
    record(host, options, work, files, &looked, answer.status, errors)
}

/// Assembles sources, looks at every order of a job for each, and gives the exit status.
fn serve_files<H: Host, T: Watch>(
    host: &mut H,
    options: &Options<'_>,
    files: &[ProgramFile<'_>],
    errors: &mut PendingText,
    watch: &mut T,
) -> Result<u8, Failure> {
    let read = read_programs(files, options.from, MOST_REPORTED, errors);
    let Some(programs) = read else {
        return write_pending(host, Stream::Errors, errors).and(Ok(REFUSED));
    };
    let is_right = options.record.is_none() || are_recordable(files, programs.as_slice(), errors);
    write_pending(host, Stream::Errors, errors)?;
    if !is_right {
        return Ok(REFUSED);
    }
    let Some(config) = Config::new(options.blocks, QUANTUM) else {
        return Ok(USAGE);
    };
    let work = Work {
        programs: programs.as_slice(),
        names: options.names.as_slice(),
        config,
    };
    serve_work(host, options, &work, files, errors, watch)
}

/// Reads the files that the options name, looks at every order, and gives the exit status.
fn serve<H: Host, T: Watch>(
    alloc: Global,
    options: &Options<'_>,
    host: &mut H,
    watch: &mut T,
) -> Result<u8, Failure> {
    let mut errors = PendingText::new(alloc);
    let mut files = Vec::new(alloc);
    let (arguments, names) = (options.files.as_slice(), options.names.as_slice());
    if !read_all_files(host, "orders: ", arguments, names, &mut files, &mut errors) {
        return write_pending(host, Stream::Errors, &mut errors).and(Ok(FAILED));
    }
    serve_files(host, options, files.as_slice(), &mut errors, watch)
}

/// Does what the arguments, which begin with the program's name, ask for, and gives the exit status: reads files, assembles
/// them, looks at every order in which the turns of a job for each can come one after another, and writes what holds of all.
/// The help and the version go to the output, and then nothing is looked at. `watch` is shown how far the search is.
pub fn orders<H: Host, T: Watch>(
    alloc: Global,
    arguments: &[String],
    host: &mut H,
    watch: &mut T,
) -> u8 {
    let served = match read_arguments(alloc, arguments) {
        Ok(options) => serve(alloc, &options, host, watch),
        Err(refusal) => answer_refusal(alloc, refusal, host),
    };
    match served {
        Ok(status) => status,
        Err(failure) => {
            let _ = host.write(Stream::Errors, FAILURE_LINES.of(failure));
            FAILED
        }
    }
}
