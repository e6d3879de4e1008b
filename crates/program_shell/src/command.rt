//! The command line, as it is described to `clap`.

use clap::{Arg, ArgAction, Command};
use std::alloc::{AllocError, Global};

/// The version of the programs: what `--version` says behind a program's name.
pub const VERSION: &str = "0.1.0";

/// `--blocks`.
const BLOCKS: &str = "blocks of core of 1024 words that the jobs share, 1 to 256 [default: 64]";

/// `--quantum`.
const QUANTUM: &str =
    "ticks for which a job runs before the next has its turn, 1 to 60 [default: 1]";

/// The sources.
const FILES: &str = "sources, 1 to 63: job n runs the n-th of them, at terminal line n - 1";

/// An option with a number: `--NAME N`.
pub fn make_option<'a>(alloc: Global, name: &'a str, help: &'a str) -> Arg<'a> {
    Arg::new(alloc, name).long(name).value_name("N").help(help)
}

/// An option that is given or not: `--NAME`.
pub fn make_flag<'a>(alloc: Global, name: &'a str, help: &'a str) -> Arg<'a> {
    Arg::new(alloc, name)
        .long(name)
        .help(help)
        .action(ArgAction::SetTrue)
}

/// The command line of a program that has no options yet but those for its help and its version. `about` stands at
/// the beginning of the help, and `end` at its end.
pub fn make_top<'a>(alloc: Global, name: &'a str, about: &'a str, end: &'a str) -> Command<'a> {
    Command::new(alloc, name)
        .about(about)
        .after_help(end)
        .version(VERSION)
}

/// The command line of a program that runs a machine: `make_top` with the options for the size of the machine,
/// `--blocks` and `--quantum`.
pub fn make_command<'a>(
    alloc: Global,
    name: &'a str,
    about: &'a str,
    end: &'a str,
) -> Result<Command<'a>, AllocError> {
    let top = make_top(alloc, name, about, end);
    let with_blocks = top.arg(make_option(alloc, "blocks", BLOCKS))?;
    with_blocks.arg(make_option(alloc, "quantum", QUANTUM))
}

/// A command line that ends with the names of one source or several.
pub fn with_files<'a>(alloc: Global, command: Command<'a>) -> Result<Command<'a>, AllocError> {
    command.arg(
        Arg::new(alloc, "FILE")
            .help(FILES)
            .required(true)
            .num_args(1..)
            .action(ArgAction::Append),
    )
}
