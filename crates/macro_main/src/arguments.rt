//! The command line.

ghost use Rattle.std.specs.Prelude.{IfOk};
ghost use Rattle.macro_main.specs.Outputs.{HasOutputs};

use clap::{Arg, ArgAction, ArgMatches, Command};
use joined_files::{NamesFault, push_names};
use program_shell::{NameEnd, Refusal, Wrong, make_flag, make_top, matches_of, output_in, refused};
use std::alloc::{AllocError, Global};
use std::convert::AsStr;

/// What the arguments ask for.
#[derive(Drop)]
pub struct Options<'a> {
    /// The file that gets the listing, if one is wanted.
    pub list: Option<&'a str>,
    /// The file that gets the cross-reference, if one is wanted.
    pub cross: Option<&'a str>,
    /// Whether what is not here is counted, and nothing is assembled.
    pub survey: bool,
    /// Whether operations and calls of other machines and other monitors are assembled.
    pub takes_others: bool,
    /// The arguments that name files, each with one name or several.
    pub arguments: Vec<&'a str>,
    /// The files that they name, which make the source, where it is not standard input.
    pub files: Vec<&'a str>,
}

/// How the name of a listing ends.
const LIST_END: NameEnd = NameEnd::With(".lst");

/// How the name of a cross-reference ends.
const CROSS_END: NameEnd = NameEnd::With(".crf");

const ABOUT: &str =
    "Assembles a source in MACRO-10, and writes its words as a source that the other programs take.";

const END: &str = "Writes that source to standard output, as in:\n\
    macro table.mac > words.mac; ten words.mac\n\
    and of a source that is refused what is wrong with it, a line for each error.\n\
    Status: 0 all done, 1 the source was refused, 2 wrong words, 3 reading, writing or memory failed.";

const LIST: &str =
    "write a listing to this file: each line with its places, its words and its errors";

const CROSS: &str = "write to this file where each name is defined and used";

const SURVEY: &str =
    "count what the sources have and this assembler has not, and write what to write instead";

const ALL_OPERATIONS: &str =
    "assemble operations and calls of DEC's manuals that are not here, too, with a warning for each";

const FILE: &str =
    "the source, and not standard input: several files, as in pre.mac prog.mac or pre.mac+prog.mac, are read as one";

/// What is wrong with outputs of a survey.
const SURVEY_ALONE: &str = "--survey writes no listing and no cross-reference";

/// An option that names a file, which is shown so.
fn make_file<'a>(alloc: Global, name: &'a str, shown: &'a str, help: &'a str) -> Arg<'a> {
    Arg::new(alloc, name)
        .long(name)
        .value_name(shown)
        .help(help)
}

/// The command line of the program.
fn make_command<'a>(alloc: Global) -> Result<Command<'a>, AllocError> {
    let top = make_top(alloc, "macro", ABOUT, END).bin_name("macro")?;
    let with_list = top.arg(make_file(alloc, "list", "FILE.lst", LIST))?;
    let with_cross = with_list.arg(make_file(alloc, "cross", "FILE.crf", CROSS))?;
    let with_survey = with_cross.arg(make_flag(alloc, "survey", SURVEY))?;
    let with_all = with_survey.arg(make_flag(alloc, "all-operations", ALL_OPERATIONS))?;
    with_all.arg(
        Arg::new(alloc, "FILE")
            .help(FILE)
            .num_args(1..)
            .action(ArgAction::Append),
    )
}

/// What is wrong with the names of an argument.
fn wrong_of<'a>(fault: NamesFault) -> Wrong<'a> {
    match fault {
        NamesFault::Memory => Wrong::Memory,
        NamesFault::NoName => Wrong::Other(fault.words()),
    }
}

/// The files that arguments name.
fn files_of<'a>(alloc: Global, arguments: &[&'a str]) -> Result<Vec<&'a str>, Wrong<'a>> {
    let mut files = Vec::new(alloc);
    for argument in arguments {
        if let Err(fault) = push_names(&mut files, argument) {
            return Err(wrong_of(fault));
        }
    }
    Ok(files)
}

/// What is asked for by what `clap` took.
fn options_in<'a>(alloc: Global, matches: &ArgMatches<'a>) -> Result<Options<'a>, Wrong<'a>>
    ensures { IfOk result HasOutputs }
{
    let mut arguments = Vec::new(alloc);
    arguments.extend_from_slice(matches.get_strs("FILE").unwrap_or(&[]))?;
    let files = files_of(alloc, arguments.as_slice())?;
    let list = output_in(matches, "list", LIST_END, files.as_slice())?;
    let cross = output_in(matches, "cross", CROSS_END, files.as_slice())?;
    let survey = matches.get_flag("survey");
    if survey && (list.is_some() || cross.is_some()) {
        return Err(Wrong::Other(SURVEY_ALONE));
    }
    Ok(Options {
        list,
        cross,
        survey,
        takes_others: matches.get_flag("all-operations"),
        arguments,
        files,
    })
}

/// What the arguments ask for by a command line.
fn read_by<'a, S: AsStr>(
    alloc: Global,
    command: &mut Command<'a>,
    arguments: &'a [S],
) -> Result<Options<'a>, Refusal>
    ensures { IfOk result HasOutputs }
{
    let matches = matches_of(command, arguments)?;
    match options_in(alloc, &matches) {
        Ok(options) => Ok(options),
        Err(wrong) => Err(refused(alloc, command, wrong)),
    }
}

/// What the arguments, which begin with the program's name, ask for. No file that it names for an output is one of the source's,
/// nor are two of them one.
pub fn read_arguments<'a, S: AsStr>(
    alloc: Global,
    arguments: &'a [S],
) -> Result<Options<'a>, Refusal>
    ensures { IfOk result HasOutputs }
{
    match make_command(alloc) {
        Ok(mut command) => read_by(alloc, &mut command, arguments),
        Err(_) => Err(Refusal::Memory),
    }
}
