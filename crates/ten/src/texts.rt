//! What `--help` and `--version` say.

/// The program.
pub const PROGRAM: &str =
    "Assembles programs in MACRO-10 and runs them on a DECsystem-10 (KA10), a job each.";

/// How the program is called.
pub const PROGRAM_END: &str = "As in:  ten examples/counter.mac\n\
    A program of several files has all their names, as in pre.mac+prog.mac.\n\
    Lines of standard input are typed at line 0; with several files, those that begin with n: at line n.\n\
    What jobs type out goes to standard output, how each ended to standard error.\n\
    Jobs, ticks, steps, levels, groups and amounts are in decimal, ids of requests too, with a\n\
    point behind (27. is 33 in a source); addresses, words, registers and user codes are in octal.\n\
    Status: 0 all jobs ended by EXIT, LOGOUT or HALT; 1 a source was refused, or a job was left waiting\n\
    or stopped by CTRL-C; 2 wrong words; 3 reading, writing or memory failed; 4 jobs wait for each\n\
    other in a circle; 5 the run ended by --steps; 6 the processor stopped a job at a fault;\n\
    7 the run ended after a hundred million steps, and --steps was not there.";

/// `--steps`.
pub const STEPS: &str = "ends the run after so many steps [default: 100000000]";

/// `--trace`.
pub const TRACE: &str =
    "writes each step to standard error: tick, job, address, instruction, what changed";

/// `--locks`.
pub const LOCKS: &str =
    "writes each ENQ., DEQ., ENQC., grant and limit that ends to standard error";

/// `--history`.
pub const HISTORY: &str =
    "writes the last N steps of each job that did not end by EXIT, LOGOUT or HALT, 1 to 10000";

/// `--waits`.
pub const WAITS: &str =
    "reports waits for locks of more than N ticks, how long each grant took, and a table by lock";

/// `--echo`.
pub const ECHO: &str = "writes what is typed to standard output too, before what the jobs answer";

/// `--return`.
pub const RETURN: &str =
    "what each line of the input ends with where it is typed: crlf, as a RETURN does, or lf [default: crlf]";

/// `--max-errors`.
pub const MAX_ERRORS: &str =
    "reports so many errors of a source, 1 to 1000, and counts the others [default: 20]";

/// `--record`.
pub const RECORD: &str =
    "writes the run as a script of `lockmon run`, in which the same happens again";

/// `--picture`.
pub const PICTURE: &str =
    "writes a picture of the run: who has which lock at which tick, and who waits for whom";
