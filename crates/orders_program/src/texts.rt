//! What `--help` and `--version` say.

/// The program.
pub const PROGRAM: &str =
    "Runs programs in MACRO-10, a job each, in every order in which their turns can come one after\n\
    another, and says how that can end.";

/// How the program is called.
pub const PROGRAM_END: &str = "As in:  orders examples/a_then_b.mac examples/b_then_a.mac\n\
    An order is written as the steps of each job, with the calls among them that other jobs can notice.\n\
    Status: 2 wrong words; 1 a source was refused, or cannot be recorded; 4 some order leads to a\n\
    circle; 6 in some order the processor stops a job; 5 in some order a job is left waiting; 3 it gave\n\
    up, or reading, writing or memory failed; 7 there are two ends or more, or none; 0 there is one\n\
    end, at which all jobs ended by EXIT, LOGOUT or HALT. The first of these that holds.";

/// `--states`.
pub const STATES: &str = "gives up where more than N states have to be kept [default: 1000000]";

/// `--turns`.
pub const TURNS: &str =
    "gives up where a job takes more than N turns that others cannot notice [default: 100000]";

/// `--blocks`.
pub const BLOCKS: &str = "blocks of core of 1024 words that the jobs share, 1 to 256 [default: 64]";

/// `--ends`.
pub const ENDS: &str = "writes N ends, and how many more there are [default: 20]";

/// `--end`.
pub const END: &str = "the number of the end whose order is recorded";

/// `--record`.
pub const RECORD: &str =
    "writes an order as a script of `lockmon run`: to the end of --end, else to the circle, else to end 1";
