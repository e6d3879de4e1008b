//! The command line.
ghost use Rattle.std.specs.Prelude.{◌≡◌, ◌<◌, ◌≤◌, ◌^◌, false, Some, IfOk, IfErr, IfSome, codes, map};
ghost use Rattle.clap.specs.Words.{app_of, first_of, found_of, new_app, rows_of, rule_of, subcommand_of, subcommand_rows_of};
ghost use Rattle.clap.specs.declared.builder.command.Command.TheViews.{out-Command as fields_of};
ghost use Rattle.command_line.specs.Arguments.{IsDue, IsRight, app, run_app, choice_of, number_in, option_rule, versioned};

use crate::commands::Choice;
use crate::texts;
use clap::{Arg, ArgMatches, Command};
use machine::MOST_QUANTUM;
use program_shell::{Refusal, VERSION, Wrong, refusal_of, refused};
use script_io::number;
use std::alloc::{AllocError, Global};
use std::convert::AsStr;
use word36::MOST_BLOCKS;

/// What the arguments, which begin with the program's name, ask for. They are refused for another cause than memory
/// only where they are not in the form that the command line takes, or ask for a number out of range, for the help or
/// for the version.
pub fn choice<'a, S: AsStr>(alloc: Global, arguments: &'a [S]) -> Result<Choice, Refusal>
    ensures chosen { IfOk result (λ c. choice_of (subcommand_of app (map S.text arguments.now)) ≡ Some c) }
    ensures range { IfOk result IsRight }
    ensures due { IfErr result (λ e. IsDue e (map S.text arguments.now)) }
{
    let mut command = match make_command(alloc) {
        Ok(command) => command,
        Err(_) => return Err(Refusal::Memory),
    };
    let matches = match command.try_get_matches_from_mut(arguments) {
        Ok(matches) => matches,
        Err(e) => return Err(refusal_of(e)),
    };
    match chosen(&matches) {
        Some(choice) => Ok(choice),
        None => Err(out_of_range(alloc, &mut command, &matches)),
    }
}

/// The refusal that names the option whose number is out of range, what was written for it, and its range.
fn out_of_range(alloc: Global, command: &mut Command<'_>, matches: &ArgMatches<'_>) -> Refusal {
    let wrong = match wrong_number(matches) {
        Some(wrong) => wrong,
        None => Wrong::Other("a number is out of range"),
    };
    refused(alloc, command, wrong)
}

/// The command line of the program.
fn make_command<'a>(alloc: Global) -> Result<Command<'a>, AllocError>
    ensures { IfOk result (λ c. app_of c ≡ app) }
{
    let run = make_run(alloc)?;
    let top = make_top(alloc).subcommand_required(true);
    let with_run = top.subcommand(run)?;
    let queue = described(alloc, "queue", texts::QUEUE, texts::QUEUE_END);
    let with_queue = with_run.subcommand(queue)?;
    let asm = described(alloc, "asm", texts::ASM, texts::ASM_END);
    with_queue.subcommand(asm)
}

/// The program without its commands.
fn make_top<'a>(alloc: Global) -> Command<'a>
    ensures shape { app_of result ≡ versioned (new_app (codes "lockmon")) }
    ensures local { (fields_of result).has_globals ≡ false }
{
    let top = described(alloc, "lockmon", texts::PROGRAM, texts::PROGRAM_END);
    with_version(top)
}

/// A command with the version added.
fn with_version<'a>(command: Command<'a>) -> Command<'a>
    ensures shape { app_of result ≡ versioned (app_of command.entry) }
    ensures local { (fields_of result).has_globals ≡ (fields_of command.entry).has_globals }
{
    command.version(VERSION)
}

/// A command with the texts at the top and at the end of its help.
fn described<'a>(alloc: Global, name: &'a str, about: &'a str, end: &'a str) -> Command<'a>
    ensures app { app_of result ≡ new_app name.now }
    ensures local { (fields_of result).has_globals ≡ false }
{
    with_texts(Command::new(alloc, name), about, end)
}

/// A command with these texts added.
fn with_texts<'a>(command: Command<'a>, about: &'a str, end: &'a str) -> Command<'a>
    ensures shape { app_of result ≡ app_of command.entry }
    ensures globals { (fields_of result).has_globals ≡ (fields_of command.entry).has_globals }
{
    command.about(about).after_help(end)
}

/// An option with a number and its default.
fn make_option<'a>(alloc: Global, name: &'a str, value: &'a str, help: &'a str) -> Arg<'a>
    ensures rule { rule_of result ≡ option_rule name.now value.now }
    ensures local { result.global ≡ false }
{
    Arg::new(alloc, name)
        .long(name)
        .value_name("N")
        .help(help)
        .default_value(value)
}

/// The command `run` with its options.
fn make_run<'a>(alloc: Global) -> Result<Command<'a>, AllocError>
    ensures shape { IfOk result (λ c. app_of c ≡ run_app) }
    ensures local { IfOk result (λ c. (fields_of c).has_globals ≡ false) }
{
    let run = described(alloc, "run", texts::RUN, texts::RUN_END);
    let blocks = make_option(alloc, "blocks", "64", texts::BLOCKS);
    let with_blocks = run.arg(blocks)?;
    let quantum = make_option(alloc, "quantum", "1", texts::QUANTUM);
    with_blocks.arg(quantum)
}

/// The command that was taken, where its numbers are in range.
fn chosen(matches: &ArgMatches<'_>) -> Option<Choice>
    ensures value { result ≡ choice_of (subcommand_rows_of matches.now) }
    ensures range { IfSome result IsRight }
{
    let (name, given) = matches.subcommand()?;
    if name == "run" {
        let blocks = number_of(given, "blocks", MOST_BLOCKS)?;
        let quantum = number_of(given, "quantum", u32::from(MOST_QUANTUM))?;
        Some(Choice::Run { blocks, quantum })
    } else if name == "queue" {
        Some(Choice::Queue)
    } else if name == "asm" {
        Some(Choice::Asm)
    } else {
        None
    }
}

/// The number of an option, from 1 to `most`.
fn number_of(given: &ArgMatches<'_>, id: &str, most: u32) -> Option<u32>
    requires { most < 2 ^ 28 }
    ensures value { result ≡ number_in most (first_of id.now (rows_of (found_of given.now))) }
    ensures range { IfSome result (λ n. (1 ≤ n) × (n ≤ most)) }
{
    match given.get_str(id) {
        None => None,
        Some(text) => number_from_one(text.as_bytes(), most),
    }
}

/// The number that is written, from 1 to `most`.
fn number_from_one(text: &[u8], most: u32) -> Option<u32>
    requires { most < 2 ^ 28 }
    ensures value { result ≡ number_in most (Some text.now) }
    ensures range { IfSome result (λ n. (1 ≤ n) × (n ≤ most)) }
{
    match number(10, most as u64, text) {
        None => None,
        Some(n) => { if n == 0 { None } else { Some(n as u32) } }
    }
}

/// The first option whose number is out of range.
fn wrong_number<'a>(matches: &ArgMatches<'a>) -> Option<Wrong<'a>> {
    let (_, given) = matches.subcommand()?;
    for (option, most) in [
        ("blocks", MOST_BLOCKS),
        ("quantum", u32::from(MOST_QUANTUM)),
    ] {
        let written = given.get_str(option)?;
        if number_from_one(written.as_bytes(), most).is_none() {
            return Some(Wrong::Number(option, written, u64::from(most)));
        }
    }
    None
}
