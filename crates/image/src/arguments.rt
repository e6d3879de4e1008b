//! The command line.
ghost use Rattle.std.specs.Prelude.{◌≡◌, IfOk};
ghost use Rattle.image.specs.Outputs.{HasOutput, output_end};

use clap::{Arg, ArgMatches, Command};
use image_files::{Packing, packing_named};
use image_service::ImageCommand;
use mac_source::Shown;
use program_shell::{NameEnd, Refusal, Wrong, make_flag, make_top, matches_of, output_in, refused};
use std::alloc::{AllocError, Global};

/// What the arguments ask for.
#[derive(Clone, Copy)]
pub struct Options<'a> {
    /// What is done.
    pub command: ImageCommand,
    /// The file of the input, where it is not standard input.
    pub input: Option<&'a str>,
    /// The file of the output, where it is not standard output.
    pub output: Option<&'a str>,
}

const ABOUT: &str =
    "Reads and writes programs as files of 36-bit words: core images, packings, and sources.";

const END: &str =
    "Each command reads FILE or standard input, and writes standard output or the file of --output, as in:\n\
    image source --from core prog.sav --output prog.mac\n\
    Forms: core (core dump, 5 bytes a word), dense (9 bytes for 2 words), ascii (5 characters of 7\n\
    bits), simh (8 bytes a word), octal (text, a line a word).\n\
    Status: 0 all done, 1 the input was refused, 2 wrong words, 3 reading, writing or memory failed.";

const FROM: &str = "how the words of the input are packed: core, dense, ascii, simh or octal";

/// What is wrong with a form of another name.
const WRONG_FORM: &str =
    "invalid value for '--from <FORM>' or '--to <FORM>': core, dense, ascii, simh or octal is wanted";

const TO: &str = "how the words of the output are packed: core, dense, ascii, simh or octal";

const INPUT: &str = "the input, and not standard input";

const OUTPUT: &str =
    "write to FILE, in place of what is there, once all is done, and not to standard output";

/// An option that names a form.
fn make_form<'a>(alloc: Global, name: &'a str, help: &'a str) -> Arg<'a> {
    Arg::new(alloc, name)
        .long(name)
        .value_name("FORM")
        .help(help)
        .required(true)
}

/// A command with the files that it may name.
fn with_files<'a>(alloc: Global, command: Command<'a>) -> Result<Command<'a>, AllocError> {
    let with_output = command.arg(
        Arg::new(alloc, "output")
            .long("output")
            .value_name("FILE")
            .help(OUTPUT),
    )?;
    with_output.arg(Arg::new(alloc, "FILE").help(INPUT))
}

/// `image words`.
fn make_words<'a>(alloc: Global) -> Result<Command<'a>, AllocError> {
    let words = Command::new(alloc, "words").about("Writes the words of a file in another form");
    let with_from = words.arg(make_form(alloc, "from", FROM))?;
    with_files(alloc, with_from.arg(make_form(alloc, "to", TO))?)
}

/// The flags of `image source`, each with its help.
static SOURCE_FLAGS: [(&str, &str); 4] = [
    ("no-labels", "write each address as a number"),
    ("no-comments", "write no comments behind the words"),
    ("no-blocks", "write each word of 0 on a line of its own"),
    ("no-texts", "write texts as words"),
];

/// `image source`.
fn make_source<'a>(alloc: Global) -> Result<Command<'a>, AllocError> {
    let mut source = Command::new(alloc, "source")
        .about("Writes a core image as a source that assembles to exactly its words")
        .arg(make_form(alloc, "from", FROM))?;
    for (name, help) in &SOURCE_FLAGS {
        source = source.arg(make_flag(alloc, name, help))?;
    }
    with_files(alloc, source)
}

/// `image save`.
fn make_save<'a>(alloc: Global) -> Result<Command<'a>, AllocError> {
    let save = Command::new(alloc, "save").about("Assembles a source, and writes its core image");
    with_files(alloc, save.arg(make_form(alloc, "to", TO))?)
}

/// `image list`.
fn make_list<'a>(alloc: Global) -> Result<Command<'a>, AllocError> {
    let list = Command::new(alloc, "list").about(
        "Lists the words of a core image in octal, and which operations and calls in it are not here",
    );
    with_files(alloc, list.arg(make_form(alloc, "from", FROM))?)
}

/// Adds a command to the program's, if there was memory to make it.
fn with_command<'a>(
    top: Command<'a>,
    made: Result<Command<'a>, AllocError>,
) -> Result<Command<'a>, AllocError> {
    match made {
        Ok(command) => top.subcommand(command),
        Err(error) => Err(error),
    }
}

/// The command line of the program.
fn make_command<'a>(alloc: Global) -> Result<Command<'a>, AllocError> {
    let top = make_top(alloc, "image", ABOUT, END).subcommand_required(true);
    let with_words = with_command(top, make_words(alloc))?;
    let with_source = with_command(with_words, make_source(alloc))?;
    let with_save = with_command(with_source, make_save(alloc))?;
    with_command(with_save, make_list(alloc))
}

/// The packing that `--from` or `--to` names.
fn packing_of(given: &ArgMatches<'_>, option: &'static str) -> Option<Packing> {
    packing_named(given.get_str(option)?)
}

/// What a source shows, by the flags of `image source`.
fn shown_in(given: &ArgMatches<'_>) -> Shown {
    Shown {
        labels: !given.get_flag("no-labels"),
        comments: !given.get_flag("no-comments"),
        blocks: !given.get_flag("no-blocks"),
        texts: !given.get_flag("no-texts"),
    }
}

/// The command of this name with these options; none where a form has another name.
fn command_in(name: &str, given: &ArgMatches<'_>) -> Option<ImageCommand> {
    match name {
        "words" => {
            let from = packing_of(given, "from")?;
            let to = packing_of(given, "to")?;
            Some(ImageCommand::Words { from, to })
        }
        "source" => {
            let from = packing_of(given, "from")?;
            let shown = shown_in(given);
            Some(ImageCommand::Source { from, shown })
        }
        "save" => {
            let to = packing_of(given, "to")?;
            Some(ImageCommand::Save { to })
        }
        "list" => {
            let from = packing_of(given, "from")?;
            Some(ImageCommand::List { from })
        }
        _ => None,
    }
}

/// How the name of a command's output ends: as that of a source only where the output is one.
fn output_end(command: ImageCommand) -> NameEnd
    ensures { result ≡ output_end command }
{
    match command {
        ImageCommand::Source { .. } => NameEnd::NoScript,
        ImageCommand::Words { .. } | ImageCommand::Save { .. } | ImageCommand::List { .. } => {
            NameEnd::NoSource
        }
    }
}

/// What the matches ask for.
fn options_in<'a>(matches: &ArgMatches<'a>) -> Result<Options<'a>, Wrong<'a>>
    ensures { IfOk result HasOutput }
{
    let Some((name, given)) = matches.subcommand() else {
        return Err(Wrong::Other(WRONG_FORM));
    };
    let Some(command) = command_in(name, given) else {
        return Err(Wrong::Other(WRONG_FORM));
    };
    let input = given.get_str("FILE");
    let output = output_in(given, "output", output_end(command), input.as_slice())?;
    Ok(Options {
        command,
        input,
        output,
    })
}

/// What the arguments ask for by a command line.
fn read_by<'a>(
    alloc: Global,
    command: &mut Command<'a>,
    arguments: &'a [String],
) -> Result<Options<'a>, Refusal>
    ensures { IfOk result HasOutput }
{
    let matches = matches_of(command, arguments)?;
    match options_in(&matches) {
        Ok(options) => Ok(options),
        Err(wrong) => Err(refused(alloc, command, wrong)),
    }
}

/// What the arguments, which begin with the program's name, ask for. The file that they name for the output is not the input, and
/// its name is that of no source, but for that of a source.
pub fn read_arguments<'a>(alloc: Global, arguments: &'a [String]) -> Result<Options<'a>, Refusal>
    ensures { IfOk result HasOutput }
{
    match make_command(alloc) {
        Ok(mut command) => read_by(alloc, &mut command, arguments),
        Err(_) => Err(Refusal::Memory),
    }
}
