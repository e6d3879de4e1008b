//! The command line.
ghost use Rattle.std.specs.Prelude.{◌≡◌, None, false, IfErr, IfOk, IfSome, codes, map, option_map, string_bytes};
ghost use Rattle.clap.specs.Words.{app_of, first_value, found_of, kind_of, new_app, rule_of};
ghost use Rattle.clap.specs.declared.builder.command.Command.TheViews.{out-Command as fields_of};
ghost use Rattle.lockcheck_program.specs.Arguments.{AreOptions, AskFor, IsDue, all_rule, app, file_rule, is_noted, states_of, states_rule, versioned};

use clap::error::ErrorKind;
use clap::{Arg, ArgAction, ArgMatches, Command, Error};
use program_shell::VERSION;
use script_io::number;
use std::alloc::{AllocError, Global};
use std::convert::AsStr;

/// How many states are kept at most, if no number is given.
pub const DEFAULT_STATES: usize = 1_000_000;

/// The most states that `--states` takes.
const MOST_STATES: u64 = 1_000_000_000;

/// What the arguments ask for.
#[derive(Drop)]
pub struct Options {
    /// How many states are kept at most.
    pub states: usize,
    /// Whether the answers of all calls are written.
    pub all: bool,
    /// The file of the script, if it is not standard input.
    pub file: Option<String>,
}

const ABOUT: &str =
    "Looks at every order in which the jobs of a script of `lockmon queue` can make their calls:\n\
    whether they can wait in a circle, and whether one can be left waiting for ever.";

const END: &str =
    "A job's lines of ENQ, DEQ and FREE, in order, are its program; how the lines of different jobs\n\
    stand among each other says nothing. As in:\n\
    lockcheck examples/circle_of_waits.queue\n\
    Status: 0 no circle and all can end, 1 the script was refused, 2 wrong words, 3 more states than\n\
    that, or reading, writing or memory failed, 4 a circle, 5 jobs left waiting without one.";

const STATES: &str = "give up where more than N states have to be kept (1000000)";

const ALL: &str = "write for each line the answers that some order gives it";

const FILE: &str = "the script, and not standard input";

const WRONG_STATES: &str =
    "invalid value for '--states <N>': a number of states, 1 or more, is wanted";

/// The command line without its arguments.
fn make_top<'a>(alloc: Global) -> Command<'a>
    ensures shape { app_of result ≡ versioned (new_app (codes "lockcheck")) }
    ensures local { (fields_of result).has_globals ≡ false }
{
    Command::new(alloc, "lockcheck")
        .about(ABOUT)
        .after_help(END)
        .version(VERSION)
}

/// `--states N`.
fn make_states<'a>(alloc: Global) -> Arg<'a>
    ensures rule { rule_of result ≡ states_rule }
    ensures local { result.global ≡ false }
{
    Arg::new(alloc, "states")
        .long("states")
        .value_name("N")
        .help(STATES)
}

/// `--all`.
fn make_all<'a>(alloc: Global) -> Arg<'a>
    ensures rule { rule_of result ≡ all_rule }
    ensures local { result.global ≡ false }
{
    Arg::new(alloc, "all")
        .long("all")
        .help(ALL)
        .action(ArgAction::SetTrue)
}

/// The file.
fn make_file<'a>(alloc: Global) -> Arg<'a>
    ensures rule { rule_of result ≡ file_rule }
    ensures local { result.global ≡ false }
{
    Arg::new(alloc, "FILE").help(FILE)
}

/// The command line of the program.
fn make_command<'a>(alloc: Global) -> Result<Command<'a>, AllocError>
    ensures { IfOk result (λ c. app_of c ≡ app) }
{
    let top = make_top(alloc);
    let states = make_states(alloc);
    let with_states = top.arg(states)?;
    let all = make_all(alloc);
    let with_all = with_states.arg(all)?;
    let file = make_file(alloc);
    with_all.arg(file)
}

/// How many states are kept at most, if the number is in range.
fn states_of(matches: &ArgMatches<'_>) -> Option<usize>
    ensures { result ≡ states_of (first_value (found_of matches.now) (codes "states")) }
{
    match matches.get_str("states") {
        None => Some(DEFAULT_STATES),
        Some(written) => match number(10, MOST_STATES, written.as_bytes()) {
            None => None,
            Some(states) => {
                if states == 0 {
                    None
                } else {
                    Some(states as usize)
                }
            }
        },
    }
}

/// Whether `--all` is given, which `clap` notes by the word `true`.
fn is_all(matches: &ArgMatches<'_>) -> bool
    ensures { result ≡ is_noted (first_value (found_of matches.now) (codes "all")) }
{
    match matches.get_str("all") {
        None => false,
        Some(word) => word == "true",
    }
}

/// The file that is named, if one is.
fn file_in(alloc: Global, matches: &ArgMatches<'_>) -> Result<Option<String>, AllocError>
    ensures { IfOk result (λ file. option_map string_bytes file ≡ first_value (found_of matches.now) (codes "FILE")) }
{
    match matches.get_str("FILE") {
        None => Ok(None),
        Some(name) => {
            let file = String::from_str(alloc, name)?;
            Ok(Some(file))
        }
    }
}

/// The options that `clap` took, if the number is in range.
fn options_in(alloc: Global, matches: &ArgMatches<'_>) -> Result<Option<Options>, AllocError>
    ensures asked { IfOk result (λ o. IfSome o (AreOptions (first_value (found_of matches.now)))) }
    ensures wrong { IfOk result (λ o. o ≡ None → states_of (first_value (found_of matches.now) (codes "states")) ≡ None) }
{
    let Some(states) = states_of(matches) else {
        return Ok(None);
    };
    let all = is_all(matches);
    let file = file_in(alloc, matches)?;
    Ok(Some(Options { states, all, file }))
}

/// What the arguments, which begin with the program's name, ask for. The error says why they are refused, or that they
/// ask for the help or the version.
pub fn read_arguments<S: AsStr>(alloc: Global, arguments: &[S]) -> Result<Options, Error>
    ensures asked { IfOk result (AskFor (map S.text arguments.now)) }
    ensures due { IfErr result (λ e. IsDue (map S.text arguments.now) (kind_of e)) }
{
    let mut command = make_command(alloc)?;
    let matches = command.try_get_matches_from_mut(arguments)?;
    match options_in(alloc, &matches)? {
        Some(options) => Ok(options),
        None => {
            let error = command.error(ErrorKind::ValueValidation, WRONG_STATES)?;
            Err(error)
        }
    }
}
