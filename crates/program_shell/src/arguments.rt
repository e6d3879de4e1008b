//! The arguments of a command line, and what they give.
ghost use Rattle.std.specs.Prelude.{◌<◌, ◌≤◌, ◌^◌, IfOk, IfSome};
ghost use Rattle.program_shell.specs.Outputs.{IsOutput};
ghost use Rattle.word36.specs.declared.sizes.TheConstants.{MOST_BLOCKS};

use crate::outputs::{NameEnd, output_fault};
use crate::refusal::{Refusal, Wrong, refusal_of};
use clap::{ArgMatches, Command};
use script_io::number;
use std::alloc::Global;
use std::convert::AsStr;
use std::env::{self, Env};
use std::io;
use word36::{JOBS, MOST_BLOCKS};

/// The blocks of a machine where no number is given.
const DEFAULT_BLOCKS: u64 = 64;

/// The arguments of the process, which begin with the program's name. The kind of the error is `InvalidData` where
/// one of them is not UTF-8, and another where there is no memory.
pub fn arguments_of<H: Env + AllocGlobal>(rt: &H) -> io::Result<Vec<String>> {
    let arguments = env::args(rt)?.collect::<Vec<String>>(rt.alloc())?;
    Ok(arguments)
}

/// The arguments, which begin with the program's name, as the command line takes them.
pub fn matches_of<'a, S: AsStr>(
    command: &mut Command<'a>,
    arguments: &'a [S],
) -> Result<ArgMatches<'a>, Refusal> {
    match command.try_get_matches_from_mut(arguments) {
        Ok(matches) => Ok(matches),
        Err(error) => Err(refusal_of(error)),
    }
}

/// The number of an option, from 1 to `most`, if it is given.
pub fn number_of<'a>(
    matches: &ArgMatches<'a>,
    option: &'static str,
    most: u64,
) -> Result<Option<u64>, Wrong<'a>>
    requires { most < 2 ^ 56 }
    ensures { IfOk result (λ given. IfSome given (λ n. (1 ≤ n) × (n ≤ most))) }
{
    let Some(written) = matches.get_str(option) else {
        return Ok(None);
    };
    match number(10, most, written.as_bytes()) {
        Some(number) if number > 0 => Ok(Some(number)),
        _ => Err(Wrong::Number(option, written, most)),
    }
}

/// The file that an option names for an output, if it is given: its name ends as it has to, and is that of no input.
pub fn output_in<'a>(
    matches: &ArgMatches<'a>,
    option: &'static str,
    end: NameEnd,
    inputs: &[&str],
) -> Result<Option<&'a str>, Wrong<'a>>
    ensures { IfOk result (λ given. IsOutput end given inputs.now) }
{
    let Some(file) = matches.get_str(option) else {
        return Ok(None);
    };
    match output_fault(end, file, inputs) {
        Some(fault) => Err(Wrong::Output(option, file, end, fault)),
        None => Ok(Some(file)),
    }
}

/// The size of a machine, as arguments give it.
#[derive(Clone, Copy)]
pub struct MachineSize {
    /// The blocks of core of 1024 words that its jobs share, 1 to 256.
    pub blocks: u32,
    /// The ticks for which a job runs before the next has its turn, at least 1.
    pub quantum: u8,
}

/// The size of the machine: 64 blocks and a quantum of one tick, where the arguments give no other. The greatest
/// quantum is `most_quantum`.
pub fn size_in<'a>(matches: &ArgMatches<'a>, most_quantum: u8) -> Result<MachineSize, Wrong<'a>>
    requires { 1 ≤ most_quantum }
    ensures blocks { IfOk result (λ size. (1 ≤ size.blocks) × (size.blocks ≤ MOST_BLOCKS)) }
    ensures quantum { IfOk result (λ size. (1 ≤ size.quantum) × (size.quantum ≤ most_quantum)) }
{
    let blocks = number_of(matches, "blocks", u64::from(MOST_BLOCKS))?.unwrap_or(DEFAULT_BLOCKS);
    let quantum = number_of(matches, "quantum", u64::from(most_quantum))?.unwrap_or(1);
    Ok(MachineSize {
        blocks: blocks as u32,
        quantum: quantum as u8,
    })
}

/// The names of the sources, of which there are at most as many as jobs.
pub fn files_in<'a>(alloc: Global, matches: &ArgMatches<'a>) -> Result<Vec<&'a str>, Wrong<'a>> {
    let given = matches.get_strs("FILE").unwrap_or(&[]);
    if given.len() > usize::from(JOBS) {
        return Err(Wrong::Files);
    }
    let mut files = Vec::new(alloc);
    files.extend_from_slice(given)?;
    Ok(files)
}
