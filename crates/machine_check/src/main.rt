//! A small program of the gate, which runs machines whose programs mean harm.
//!
//! `words N`: sixteen jobs execute words drawn at random for N rounds, on two machines with different tables
//! of locks and stores of core. `events N SEED`: N events as an operator and users at all lines might make
//! them, with a look at the whole state every 10,000. `bench LOAD COUNT JOBS QUANTUM`: a loop, for
//! measuring. Without words, each of these at a size of its own.
#![tactic(auto)]

mod asked;
mod events;
mod generator;
mod machines;
mod measured;
mod plain_check;
mod random_words;
mod safe;
mod user_programs;
mod users;

use asked::{ALL, run_of};
use machines::on_machines;
use std::process::ExitCode;
use std::rt::Env;
use std::{env, io};

/// The status where something does not hold.
const WRONG: u8 = 1;

/// The status where the words ask for nothing.
const USAGE: u8 = 2;

/// The status where memory was refused.
const REFUSED: u8 = 3;

/// The words of the command line, which begin with the program's name.
fn words_given<R: Env + AllocGlobal>(rt: &R) -> io::Result<Vec<String>> {
    Ok(env::args(rt)?.collect(rt.alloc())?)
}

fn main(rt: HostRuntime) -> io::Result<ExitCode> {
    let Ok(words) = words_given(&rt) else {
        return Ok(ExitCode::from(REFUSED));
    };
    let mut holds = true;
    if words.len() > 1 {
        match run_of(words.as_slice()) {
            Some(run) => holds = on_machines(&rt, run)?,
            None => return Ok(ExitCode::from(USAGE)),
        }
    } else {
        for run in ALL.iter() {
            holds = on_machines(&rt, *run)? && holds;
        }
    }
    Ok(ExitCode::from(if holds { 0 } else { WRONG }))
}
