//! The command line.

use clap::{Arg, ArgMatches, Command};
use machine::MOST_QUANTUM;
use op_script::Config;
use program_shell::{
    Refusal, Wrong, make_command, make_flag, make_option, matches_of, number_of, refused, size_in,
};
use std::alloc::{AllocError, Global};
use std::convert::AsStr;

/// The largest number of a line that `--at` takes.
const MOST_AT: u64 = 1_000_000;

/// What is written of a script.
#[derive(Clone, Copy, PartialEq, Eq)]
pub enum Form {
    /// The picture as SVG.
    Svg,
    /// The picture as text.
    Text,
    /// The script with its answers and their reasons.
    Explained,
}

/// What the arguments ask for.
#[derive(Drop)]
pub struct Options {
    /// The machine of a script of `lockmon run`; `None` if the script is one of `lockmon queue`.
    pub machine: Option<Config>,
    /// What is written of it.
    pub form: Form,
    /// The line after which the waits are drawn, if it is not the last.
    pub at: Option<usize>,
    /// The file of the script, if it is not standard input.
    pub file: Option<String>,
}

const ABOUT: &str =
    "Draws who holds which lock and who waits for whom along a script of `lockmon`.";

const END: &str = "Writes the picture to standard output, as in:\n\
    lockview examples/circle_of_waits.queue > circle.svg\n\
    Status: 0 all done, 1 the script was refused, 2 wrong words, 3 reading, writing or memory failed.";

const RUN: &str = "the script is one of `lockmon run`, and not of `lockmon queue`";

const TEXT: &str = "write the picture as text for a terminal, and not as SVG";

const AT: &str = "draw the waits after line N of the script, and not after its last";

const EXPLAIN: &str =
    "write the script with its answers and why a call is refused or waits, and no picture";

const FILE: &str = "the script, and not standard input";

const WRONG_EXPLAIN: &str =
    "'--explain' makes no picture: it stands with neither '--text' nor '--at'";

const WRONG_SIZE: &str =
    "'--blocks' and '--quantum' say on which machine a script of `lockmon run` is obeyed: they stand with '--run'";

const WRONG_AT: &str =
    "invalid value for '--at <N>': the number of a line of the script, 1 or more, is wanted";

/// The command line of the program.
fn make_all<'a>(alloc: Global) -> Result<Command<'a>, AllocError> {
    let top = make_command(alloc, "lockview", ABOUT, END)?;
    let with_run = top.arg(make_flag(alloc, "run", RUN))?;
    let with_text = with_run.arg(make_flag(alloc, "text", TEXT))?;
    let with_at = with_text.arg(make_option(alloc, "at", AT))?;
    let with_explain = with_at.arg(make_flag(alloc, "explain", EXPLAIN))?;
    with_explain.arg(Arg::new(alloc, "FILE").help(FILE))
}

/// The file that is named, if one is.
fn file_in(alloc: Global, matches: &ArgMatches<'_>) -> Result<Option<String>, AllocError> {
    match matches.get_str("FILE") {
        None => Ok(None),
        Some(name) => Ok(Some(String::from_str(alloc, name)?)),
    }
}

/// The line of `--at`, if it is given.
fn at_in<'a>(matches: &ArgMatches<'a>) -> Result<Option<usize>, Wrong<'a>> {
    match number_of(matches, "at", MOST_AT) {
        Ok(Some(line)) => Ok(Some(line as usize)),
        Ok(None) => Ok(None),
        Err(_) => Err(Wrong::Other(WRONG_AT)),
    }
}

/// The machine of a script of `lockmon run`, if it is one.
fn machine_in<'a>(matches: &ArgMatches<'a>) -> Result<Option<Config>, Wrong<'a>> {
    let size = size_in(matches, MOST_QUANTUM)?;
    if matches.get_flag("run") {
        return Ok(Some(Config::new(size.blocks, size.quantum).unwrap()));
    }
    if matches.get_str("blocks").is_some() || matches.get_str("quantum").is_some() {
        return Err(Wrong::Other(WRONG_SIZE));
    }
    Ok(None)
}

/// The options by what `clap` took.
fn options_in<'a>(alloc: Global, matches: &ArgMatches<'a>) -> Result<Options, Wrong<'a>> {
    let at = at_in(matches)?;
    let machine = match machine_in(matches) {
        Ok(machine) => machine,
        Err(wrong) => return Err(wrong),
    };
    let is_text = matches.get_flag("text");
    let is_explained = matches.get_flag("explain");
    if is_explained && (is_text || at.is_some()) {
        return Err(Wrong::Other(WRONG_EXPLAIN));
    }
    let form = if is_explained {
        Form::Explained
    } else if is_text {
        Form::Text
    } else {
        Form::Svg
    };
    Ok(Options {
        machine,
        form,
        at,
        file: file_in(alloc, matches)?,
    })
}

/// What the arguments, which begin with the program's name, ask for.
pub fn read_arguments<S: AsStr>(alloc: Global, arguments: &[S]) -> Result<Options, Refusal> {
    let Ok(mut command) = make_all(alloc) else {
        return Err(Refusal::Memory);
    };
    let matches = matches_of(&mut command, arguments)?;
    match options_in(alloc, &matches) {
        Ok(options) => Ok(options),
        Err(wrong) => Err(refused(alloc, &mut command, wrong)),
    }
}
