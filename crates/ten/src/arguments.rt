//! The command line.
ghost use Rattle.std.specs.Prelude.{IfOk};
ghost use Rattle.ten.specs.Outputs.{HasOutputs};

use crate::options::Options;
use crate::texts;
use crate::typing::Return;
use clap::{Arg, ArgMatches, Command};
use machine::{Config, MOST_QUANTUM};
use program_files::{inputs_in, make_from, packing_in};
use program_shell::{
    NameEnd, Refusal, Wrong, files_in, make_command, make_flag, make_option, matches_of, number_of,
    output_in, refused, size_in, with_files,
};
use shown_bytes::shown_text;
use source_labels::MOST_REPORTED;
use std::alloc::{AllocError, Global};

/// The most steps that `--steps` takes.
const MOST_STEPS: u64 = 1_000_000_000_000;

/// The most steps that `--history` takes.
const MOST_HISTORY: u64 = 10_000;

/// The most faults of a source that `--max-errors` takes.
const MOST_FAULTS: u64 = 1000;

/// How the name of a picture ends, so that no source is written over by one that is named in its place.
const PICTURE_END: NameEnd = NameEnd::With(".svg");

/// How the name of a script ends, for the same reason.
const RECORD_END: NameEnd = NameEnd::With(".run");

/// What the arguments, which begin with the program's name, ask for.
pub fn read_arguments<'a>(alloc: Global, arguments: &'a [String]) -> Result<Options<'a>, Refusal>
    ensures { IfOk result HasOutputs }
{
    match ten_command(alloc) {
        Ok(mut command) => read_by(alloc, &mut command, arguments),
        Err(_) => Err(Refusal::Memory),
    }
}

/// What the arguments ask for by a command line.
fn read_by<'a>(
    alloc: Global,
    command: &mut Command<'a>,
    arguments: &'a [String],
) -> Result<Options<'a>, Refusal>
    ensures { IfOk result HasOutputs }
{
    let matches = matches_of(command, arguments)?;
    match options_in(alloc, &matches) {
        Ok(options) => Ok(options),
        Err(wrong) => Err(refused(alloc, command, wrong)),
    }
}

/// The command line of the program.
fn ten_command<'a>(alloc: Global) -> Result<Command<'a>, AllocError> {
    let top = make_command(alloc, "ten", texts::PROGRAM, texts::PROGRAM_END)?;
    let with_from = top.arg(make_from(alloc))?;
    let with_steps = with_from.arg(make_option(alloc, "steps", texts::STEPS))?;
    let with_trace = with_steps.arg(make_flag(alloc, "trace", texts::TRACE))?;
    let with_locks = with_trace.arg(make_flag(alloc, "locks", texts::LOCKS))?;
    let with_history = with_locks.arg(make_option(alloc, "history", texts::HISTORY))?;
    let with_waits = with_history.arg(make_option(alloc, "waits", texts::WAITS))?;
    let with_echo = with_waits.arg(make_flag(alloc, "echo", texts::ECHO))?;
    let with_return = with_echo.arg(
        Arg::new(alloc, "return")
            .long("return")
            .value_name("FORM")
            .help(texts::RETURN),
    )?;
    let with_faults = with_return.arg(make_option(alloc, "max-errors", texts::MAX_ERRORS))?;
    let with_picture = with_faults.arg(
        Arg::new(alloc, "picture")
            .long("picture")
            .value_name("FILE.svg")
            .help(texts::PICTURE),
    )?;
    let with_record = with_picture.arg(
        Arg::new(alloc, "record")
            .long("record")
            .value_name("FILE.run")
            .help(texts::RECORD),
    )?;
    with_files(alloc, with_record)
}

/// What is asked for by what `clap` took.
fn options_in<'a>(alloc: Global, matches: &ArgMatches<'a>) -> Result<Options<'a>, Wrong<'a>>
    ensures { IfOk result HasOutputs }
{
    let size = size_in(matches, MOST_QUANTUM)?;
    let steps = number_of(matches, "steps", MOST_STEPS)?;
    let history = number_of(matches, "history", MOST_HISTORY)?.unwrap_or(0);
    let waits = number_of(matches, "waits", MOST_STEPS)?;
    let faults = number_of(matches, "max-errors", MOST_FAULTS)?;
    let files = files_in(alloc, matches)?;
    let inputs = inputs_in(alloc, files.as_slice())?;
    Ok(Options {
        config: Config::new(size.blocks, size.quantum).unwrap(),
        from: packing_in(matches)?,
        steps,
        trace: matches.get_flag("trace"),
        locks: matches.get_flag("locks"),
        history: history as usize,
        waits,
        picture: output_in(matches, "picture", PICTURE_END, inputs.as_slice())?,
        record: output_in(matches, "record", RECORD_END, inputs.as_slice())?,
        echo: matches.get_flag("echo"),
        ending: return_in(matches)?,
        faults: faults.unwrap_or(MOST_REPORTED as u64) as usize,
        names: shown_names(alloc, files.as_slice())?,
        files,
        inputs,
    })
}

/// What ends a line that is typed.
fn return_in<'a>(matches: &ArgMatches<'a>) -> Result<Return, Wrong<'a>> {
    match matches.get_str("return") {
        None | Some("crlf") => Ok(Return::CrLf),
        Some("lf") => Ok(Return::Lf),
        Some(_) => Err(Wrong::Other("invalid value for '--return <FORM>': crlf or lf is wanted")),
    }
}

/// Names of files, as lines for a person show them.
fn shown_names(alloc: Global, files: &[&str]) -> Result<Vec<String>, AllocError> {
    let mut names = Vec::new(alloc);
    for file in files {
        names.push(shown_text(alloc, file.as_bytes())?)?;
    }
    Ok(names)
}
