//! The texts of `--help` and `--version`, the banner and the prompt.

/// What the program is.
pub const PROGRAM: &str = "A debugger in the manner of DDT for programs in MACRO-10 on a \
    DECsystem-10 (KA10): it goes back as well as on.";

/// How the program is called.
pub const PROGRAM_END: &str = "As in:  ddt examples/counter.mac\n\
    A program of several files has all their names, as in pre.mac+prog.mac.\n\
    Commands are lines of standard input, answers go to standard output; .HELP lists the commands.\n\
    ESC is typed as $. Numbers are octal, and decimal with a point behind them; those of commands that\n\
    begin with a point are decimal.\n\
    Status: 0 the session ended by .QUIT or the end of the input; 1 a source was refused; 2 wrong words;\n\
    3 reading, writing or memory failed.";

/// `--input`.
pub const INPUT: &str =
    "lines that are typed where a job waits for characters, at line 0, or at line n those behind n:";

/// The prompt, for a person.
pub const PROMPT: &str = "ddt> ";

/// The banner, for a person.
pub const BANNER: &str = "ddt 0.1.0: .HELP lists the commands, .QUIT ends the session\n";
