//! The command line.

use crate::arguments::Arguments;
use crate::texts;
use clap::{Arg, ArgMatches, Command};
use machine::{Config, MOST_QUANTUM};
use program_files::{inputs_in, make_from, packing_in};
use program_shell::{
    Refusal, Wrong, files_in, make_command, matches_of, refused, size_in, with_files,
};
use std::alloc::{AllocError, Global};

/// Reads the arguments, which begin with the program's name. Arguments that are refused, and those that ask for the help or the
/// version, give a `Refusal`.
pub fn read_arguments<'a>(
    alloc: Global,
    arguments: &'a [String],
) -> Result<Arguments<'a>, Refusal> {
    match ddt_command(alloc) {
        Ok(mut command) => read_by(alloc, &mut command, arguments),
        Err(_) => Err(Refusal::Memory),
    }
}

/// Reads the arguments of a command line.
fn read_by<'a>(
    alloc: Global,
    command: &mut Command<'a>,
    arguments: &'a [String],
) -> Result<Arguments<'a>, Refusal> {
    let matches = matches_of(command, arguments)?;
    match read(alloc, &matches) {
        Ok(arguments) => Ok(arguments),
        Err(wrong) => Err(refused(alloc, command, wrong)),
    }
}

/// The command line of the program.
fn ddt_command<'a>(alloc: Global) -> Result<Command<'a>, AllocError> {
    let top = make_command(alloc, "ddt", texts::PROGRAM, texts::PROGRAM_END)?;
    let with_from = top.arg(make_from(alloc))?;
    let with_input = with_from.arg(
        Arg::new(alloc, "input")
            .long("input")
            .value_name("FILE")
            .help(texts::INPUT),
    )?;
    with_files(alloc, with_input)
}

/// Reads the arguments that were matched.
fn read<'a>(alloc: Global, matches: &ArgMatches<'a>) -> Result<Arguments<'a>, Wrong<'a>> {
    let size = size_in(matches, MOST_QUANTUM)?;
    let files = files_in(alloc, matches)?;
    let input = matches.get_str("input");
    let mut inputs = inputs_in(alloc, files.as_slice())?;
    inputs.extend_from_slice(input.as_slice())?;
    Ok(Arguments {
        config: Config::new(size.blocks, size.quantum).unwrap(),
        from: packing_in(matches)?,
        input,
        files,
        inputs,
    })
}
