//! Why arguments are refused.
ghost use Rattle.clap.specs.Words.{kind_of};
ghost use Rattle.program_shell.specs.Refusals.{IsKind};

use crate::outputs::{NameEnd, OutputFault};
use clap::error::ErrorKind;
use clap::{Command, Error};
use shown_bytes::shown_lines;
use std::alloc::{AllocError, Global};
use word36::JOBS;

/// Why the arguments were refused.
#[derive(Debug, Drop)]
pub enum Refusal {
    /// There was no memory.
    Memory,
    /// They are not in the form that the command line takes, or ask for the help or the version.
    Usage(Error),
}

/// What is wrong with an argument.
#[derive(Drop)]
pub enum Wrong<'a> {
    /// There was no memory.
    Memory,
    /// The number of an option, as it is written, is not in its range, which ends with this one.
    Number(&'static str, &'a str, u64),
    /// The file of an option, whose name is written so and has to end so, is none that the program may write.
    Output(&'static str, &'a str, NameEnd, OutputFault),
    /// There are more files than jobs.
    Files,
    /// What these words say.
    Other(&'static str),
}

impl From<AllocError> for Wrong<'_> {
    fn from(_error: AllocError) -> Self {
        Wrong::Memory
    }
}

/// The refusal for an error of the command line.
pub fn refusal_of(error: Error) -> Refusal
    ensures { IsKind result (kind_of error) }
{
    if error.kind() == ErrorKind::OutOfMemory {
        Refusal::Memory
    } else {
        Refusal::Usage(error)
    }
}

/// What is wrong, in words.
fn wrong_text(alloc: Global, wrong: Wrong<'_>) -> Result<String, AllocError> {
    match wrong {
        Wrong::Memory => Err(AllocError),
        Wrong::Number(option, written, most) => {
            format!(in alloc;
                "invalid value '{written}' for '--{option} <N>': a number from 1 to {most} is wanted"
            )
        }
        Wrong::Output(option, written, end, fault) => {
            let end = end.characters();
            format!(in alloc; "invalid value '{written}' for '--{option} <FILE{end}>': {fault}")
        }
        Wrong::Files => format!(in alloc;
            "a machine has at most {JOBS} jobs, and there are more files"
        ),
        Wrong::Other(text) => String::from_str(alloc, text),
    }
}

/// The refusal that says what is wrong, in the form of the command line's own errors.
pub fn refused(alloc: Global, command: &mut Command<'_>, wrong: Wrong<'_>) -> Refusal {
    let Ok(text) = wrong_text(alloc, wrong) else {
        return Refusal::Memory;
    };
    match command.error(ErrorKind::ValueValidation, text.as_str()) {
        Ok(error) => Refusal::Usage(error),
        Err(_) => Refusal::Memory,
    }
}

/// What is said where arguments are refused.
#[derive(Drop)]
pub struct RefusalText {
    /// The text, in whole lines.
    pub text: String,
    /// Whether it is the help or the version, which was asked for.
    pub is_asked_for: bool,
}

/// What an error of the command line says. Bytes of arguments that do not print are shown in octal.
pub fn usage_text(alloc: Global, error: &Error) -> Result<String, AllocError> {
    let text = error.to_string(alloc)?;
    shown_lines(alloc, text.as_str().as_bytes())
}

/// What is said of a refusal, or an error where there is no memory for it.
pub fn refusal_text(alloc: Global, refusal: Refusal) -> Result<RefusalText, AllocError> {
    match refusal {
        Refusal::Memory => Err(AllocError),
        Refusal::Usage(error) => Ok(RefusalText {
            text: usage_text(alloc, &error)?,
            is_asked_for: !error.use_stderr(),
        }),
    }
}
