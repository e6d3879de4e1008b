//! What `--help` says.

/// The program.
pub const PROGRAM: &str =
    "A DECsystem-10 (KA10) with the lock calls ENQ., DEQ. and ENQC. of TOPS-10.";

/// How the program is called.
pub const PROGRAM_END: &str =
    "Each command reads standard input, as in:  lockmon run < examples/hello.run\n\
    Status: 0 all done, 1 the input was refused, 2 wrong words, 3 reading, writing or memory failed.";

/// `lockmon run`.
pub const RUN: &str =
    "Runs a script on a machine: assembles programs, logs jobs in, lets them run, shows them";

/// How `lockmon run` is called.
pub const RUN_END: &str =
    "Reads standard input, a command a line, as in:  lockmon run < examples/hello.run";

/// `--blocks`.
pub const BLOCKS: &str = "blocks of core of 1024 words that the jobs share, 1 to 256";

/// `--quantum`.
pub const QUANTUM: &str = "ticks for which a job runs before the next has its turn, 1 to 60";

/// `lockmon queue`.
pub const QUEUE: &str =
    "Runs a script of lock commands: who asks for which locks, and who gets them";

/// How `lockmon queue` is called.
pub const QUEUE_END: &str =
    "Reads standard input, a command a line, as in:  lockmon queue < examples/first.queue";

/// `lockmon asm`.
pub const ASM: &str = "Assembles a source in a subset of MACRO-10, and lists its words";

/// How `lockmon asm` is called.
pub const ASM_END: &str = "Reads standard input, as in:  lockmon asm < examples/counter.mac";
