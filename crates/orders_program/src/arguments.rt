//! The command line.

use crate::options::Options;
use crate::texts;
use clap::{Arg, ArgMatches, Command};
use program_files::{inputs_in, make_from, packing_in};
use program_shell::{
    NameEnd, Refusal, Wrong, files_in, make_option, make_top, matches_of, number_of, output_in,
    refused, with_files,
};
use shown_bytes::shown_text;
use std::alloc::{AllocError, Global};
use word36::MOST_BLOCKS;

/// The most states that `--states` takes.
const MOST_STATES: u64 = 1_000_000_000;

/// How many states are kept at most if no number is given.
const DEFAULT_STATES: u64 = 1_000_000;

/// The most turns that `--turns` takes.
const MOST_TURNS: u64 = 1_000_000_000;

/// How many turns a job may take if no number is given.
const DEFAULT_TURNS: u64 = 100_000;

/// The blocks of a machine if no number is given.
const DEFAULT_BLOCKS: u64 = 64;

/// How many ends are written if no number is given.
const DEFAULT_ENDS: u64 = 20;

/// How the name of a script ends, so that no source is written over by one that is named in its place.
const RECORD_END: NameEnd = NameEnd::With(".run");

/// The fault if an end is asked for, and no file for its order.
const WRONG_END: &str = "'--end' needs '--record': it says whose order is recorded";

/// What the arguments, which begin with the program's name, ask for.
pub fn read_arguments<'a>(alloc: Global, arguments: &'a [String]) -> Result<Options<'a>, Refusal> {
    match orders_command(alloc) {
        Ok(mut command) => read_by(alloc, &mut command, arguments),
        Err(_) => Err(Refusal::Memory),
    }
}

/// What the arguments ask for by a command line.
fn read_by<'a>(
    alloc: Global,
    command: &mut Command<'a>,
    arguments: &'a [String],
) -> Result<Options<'a>, Refusal> {
    let matches = matches_of(command, arguments)?;
    match options_in(alloc, &matches) {
        Ok(options) => Ok(options),
        Err(wrong) => Err(refused(alloc, command, wrong)),
    }
}

/// The command line of the program.
fn orders_command<'a>(alloc: Global) -> Result<Command<'a>, AllocError> {
    let top = make_top(alloc, "orders", texts::PROGRAM, texts::PROGRAM_END);
    let with_from = top.arg(make_from(alloc))?;
    let with_states = with_from.arg(make_option(alloc, "states", texts::STATES))?;
    let with_turns = with_states.arg(make_option(alloc, "turns", texts::TURNS))?;
    let with_blocks = with_turns.arg(make_option(alloc, "blocks", texts::BLOCKS))?;
    let with_ends = with_blocks.arg(make_option(alloc, "ends", texts::ENDS))?;
    let with_end = with_ends.arg(make_option(alloc, "end", texts::END))?;
    let with_record = with_end.arg(
        Arg::new(alloc, "record")
            .long("record")
            .value_name("FILE.run")
            .help(texts::RECORD),
    )?;
    with_files(alloc, with_record)
}

/// The options in the matches that `clap` found.
fn options_in<'a>(alloc: Global, matches: &ArgMatches<'a>) -> Result<Options<'a>, Wrong<'a>> {
    let states = number_of(matches, "states", MOST_STATES)?;
    let turns = number_of(matches, "turns", MOST_TURNS)?;
    let blocks = number_of(matches, "blocks", u64::from(MOST_BLOCKS))?;
    let ends = number_of(matches, "ends", MOST_STATES)?;
    let end = number_of(matches, "end", MOST_STATES)?;
    let files = files_in(alloc, matches)?;
    let inputs = inputs_in(alloc, files.as_slice())?;
    let record = output_in(matches, "record", RECORD_END, inputs.as_slice())?;
    if end.is_some() && record.is_none() {
        return Err(Wrong::Other(WRONG_END));
    }
    Ok(Options {
        from: packing_in(matches)?,
        states: states.unwrap_or(DEFAULT_STATES) as usize,
        turns: turns.unwrap_or(DEFAULT_TURNS) as u32,
        blocks: blocks.unwrap_or(DEFAULT_BLOCKS) as u32,
        ends: ends.unwrap_or(DEFAULT_ENDS) as usize,
        end: end.map(|end| end as usize),
        record,
        names: shown_names(alloc, files.as_slice())?,
        files,
    })
}

/// Names of files, as lines for a person show them.
fn shown_names(alloc: Global, files: &[&str]) -> Result<Vec<String>, AllocError> {
    let mut names = Vec::new(alloc);
    for file in files {
        names.push(shown_text(alloc, file.as_bytes())?)?;
    }
    Ok(names)
}
