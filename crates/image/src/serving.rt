//! Commands that are carried out, on a file or standard input, to a file or standard output.

use crate::arguments::Options;
use image_service::{Ending, answer_to};
use program_shell::{Failure, file_error_text, read_whole, write_whole};
use script_io::{HostIn, HostOut, write_all};
use std::alloc::{AllocError, Global};
use std::{fs, io};

/// Why a command is not carried out, or what came of it not written.
#[derive(Drop)]
pub enum Stop {
    /// The input, the output or memory failed.
    Failed(Failure),
    /// A file cannot be read or written: the line that says so.
    File(String),
}

impl From<AllocError> for Stop {
    fn from(_error: AllocError) -> Stop {
        Stop::Failed(Failure::Memory)
    }
}

/// That a file cannot be read or written, for this reason.
fn stop_at(alloc: Global, file: &str, error: io::Error) -> Stop {
    match file_error_text(alloc, "image: ", file, error) {
        Ok(line) => Stop::File(line),
        Err(_) => Stop::Failed(Failure::Memory),
    }
}

/// How a command ended, and the bytes that it read.
#[derive(Drop)]
pub struct Carried {
    /// How it ended.
    pub ending: Ending,
    /// What it read.
    pub input: Vec<u8>,
}

/// The bytes of the file that is named, or of standard input.
fn input_of(rt: &HostRuntime, options: &Options<'_>) -> Result<Vec<u8>, Stop> {
    let Some(file) = options.input else {
        return match read_whole(rt.alloc(), &mut HostIn::new(rt.stdin()), usize::MAX) {
            Ok(bytes) => Ok(bytes),
            Err(failure) => Err(Stop::Failed(failure)),
        };
    };
    match fs::read(rt, file) {
        Ok(bytes) => Ok(bytes),
        Err(error) => Err(stop_at(rt.alloc(), file, error)),
    }
}

/// Writes what was kept to the file that is named for the output, or to standard output.
fn write_kept(rt: &HostRuntime, output: Option<&str>, kept: &[u8]) -> Result<(), Stop> {
    let Some(file) = output else {
        return match write_all(&mut HostOut::new(rt.stdout()), kept) {
            Ok(()) => Ok(()),
            Err(_) => Err(Stop::Failed(Failure::Write)),
        };
    };
    match write_whole(rt, file, kept) {
        Ok(()) => Ok(()),
        Err(error) => Err(stop_at(rt.alloc(), file, error)),
    }
}

/// Carries a command out, and writes what comes of it once all of that is there. What is said of an input that is refused goes
/// to standard output, so that the file of `--output` stays as it is.
pub fn carry_out(rt: &HostRuntime, options: &Options<'_>) -> Result<Carried, Stop> {
    let input = input_of(rt, options)?;
    let answer = answer_to(rt.alloc(), options.command, input.as_slice())?;
    let ending = answer.ending;
    let output = match ending {
        Ending::Done => options.output,
        _ => None,
    };
    write_kept(rt, output, answer.text.as_slice())?;
    Ok(Carried { ending, input })
}
