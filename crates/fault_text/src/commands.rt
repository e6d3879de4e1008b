//! The commands of a script of `lockmon run`.

use queue_faults::{Param, Range, Shape};
use run_commands::{MOST_ADDRESS, MOST_EVENTS, MOST_NUMBER, NAME_LENGTH};
use word36::DATA_WORDS;

const JOB: Param = Param::Number(Range {
    name: "a job",
    radix: 10,
    least: 0,
    most: MOST_NUMBER,
});

/// A terminal line.
pub const LINE: Param = Param::Number(Range {
    name: "a terminal line",
    radix: 10,
    least: 0,
    most: MOST_NUMBER,
});

/// How many steps or ticks.
const COUNT: Param = Param::Number(Range {
    name: "a number",
    radix: 10,
    least: 0,
    most: MOST_EVENTS,
});

const ADDRESS: Param = Param::Number(Range {
    name: "an address",
    radix: 8,
    least: 0,
    most: MOST_ADDRESS,
});

/// The number of a word that all jobs share.
const DATA_WORD: Param = Param::Number(Range {
    name: "a data word",
    radix: 10,
    least: 0,
    most: DATA_WORDS as u64 - 1,
});

const IMAGE: Param = Param::Name(
    NAME_LENGTH,
    "the name of an image, 1 to 6 letters and digits",
);

/// What SHOW shows.
const SHOWN: Param = Param::OneOf(&["JOBS", "LOCKS", "WAITS"], "JOBS, LOCKS or WAITS");

/// The commands but TYPE, whose text is no list of items.
pub static COMMANDS: [Shape; 15] = [
    ("ASSEMBLE", &[IMAGE]),
    ("LOGIN", &[LINE, IMAGE]),
    ("STEP", &[COUNT]),
    ("RUN", &[COUNT]),
    ("TICK", &[COUNT]),
    ("TYPE", &[LINE]),
    ("TAKE", &[LINE]),
    ("START", &[JOB]),
    ("CONTINUE", &[JOB]),
    ("KILL", &[JOB]),
    ("RESTART", &[]),
    ("SHOW", &[SHOWN]),
    ("EXAMINE", &[JOB, ADDRESS]),
    ("DATA", &[DATA_WORD]),
    ("QUIT", &[]),
];

/// The names of all commands.
pub const NAMES: &str =
    "ASSEMBLE, LOGIN, START, CONTINUE, KILL, RESTART, STEP, RUN, TICK, TYPE, TAKE, SHOW, EXAMINE, DATA and QUIT are";
