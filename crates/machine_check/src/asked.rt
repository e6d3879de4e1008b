//! What the words of the command line ask for.

use crate::events::many_events;
use crate::machines::Machine;
use crate::measured::{Load, Measured};
use crate::random_words::random_words;
use monitor::Config;
use std::io;

/// The blocks of core where programs mean harm, and the ticks of a quantum.
const BLOCKS: u32 = 256;

const QUANTUM: u8 = 6;

/// The blocks of core where the machine is measured.
const MEASURED_BLOCKS: u32 = 64;

/// A run on machines.
#[derive(Clone, Copy)]
pub enum Run {
    /// So many rounds of words drawn at random.
    Words(u32),
    /// So many events, drawn from a seed.
    Events(u32, u32),
    /// A loop, for measuring.
    Measured(Measured),
}

/// The runs that are made where no words ask for one.
pub static ALL: [Run; 3] = [
    Run::Words(20_000),
    Run::Events(100_000, 1),
    Run::Measured(Measured {
        load: Load::Ticked,
        count: 1000,
        jobs: 2,
        quantum: 1,
    }),
];

impl Run {
    /// The machine that it is made on; `None` where there is none of that quantum.
    pub fn config(self) -> Option<Config> {
        match self {
            Run::Words(_) | Run::Events(..) => Config::new(BLOCKS, QUANTUM),
            Run::Measured(measured) => Config::new(MEASURED_BLOCKS, measured.quantum),
        }
    }

    /// Makes it, on one of two machines or on both, writes what was found, and says whether all holds.
    pub fn make<R, A, B>(self, rt: &R, plain: A, fast: B) -> io::Result<bool>
    where
        R: Print + AllocGlobal,
        A: Machine,
        B: Machine,
    {
        match self {
            Run::Words(rounds) => {
                let found = random_words(rt.alloc(), plain, fast, rounds)?;
                rt.println(format_args!("ROUNDS {rounds} {found}"))?;
                Ok(found.is_nothing())
            }
            Run::Events(count, seed) => many_events(rt, fast, count, seed),
            Run::Measured(measured) => match measured.count_on(rt.alloc(), plain)? {
                Some(count) => {
                    rt.println(format_args!("{count}"))?;
                    Ok(true)
                }
                None => Ok(false),
            },
        }
    }
}

/// The number that a word is.
fn number(words: &[String], i: usize) -> Option<u32> {
    words.get(i)?.parse::<u32>().ok()
}

/// What is measured by words `bench LOAD COUNT JOBS QUANTUM`.
fn measured(words: &[String]) -> Option<Measured> {
    Some(Measured {
        load: Load::of(words.get(2)?.as_str())?,
        count: number(words, 3)?,
        jobs: u8::try_from(number(words, 4)?).ok()?,
        quantum: u8::try_from(number(words, 5)?).ok()?,
    })
}

/// The run that the words behind the program's name ask for.
pub fn run_of(words: &[String]) -> Option<Run> {
    match words.get(1)?.as_str() {
        "words" => Some(Run::Words(number(words, 2)?)),
        "events" => Some(Run::Events(number(words, 2)?, number(words, 3)?)),
        "bench" => Some(Run::Measured(measured(words)?)),
        _ => None,
    }
}
