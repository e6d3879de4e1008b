//! The numbers of scripts, of sources and of the program.
ghost use Rattle.std.specs.Prelude.{◌≡◌, ◌^◌, ◌-◌, ◌<◌, ℕ, List, All, Some};
ghost use Rattle.program_shell.specs.declared.statuses.TheConstants.{DONE, FAILED, REFUSED, USAGE};
ghost use Rattle.mac_layout.specs.declared.addresses.TheConstants.{FIRST, MEMORY_SIZE};
ghost use Rattle.mac_text.specs.declared.symbol.TheConstants.{NAME_CHARACTERS};
ghost use Rattle.run_commands.specs.Texts.{characters_of};
ghost use Rattle.run_commands.specs.declared.commands.TheConstants.{MOST_ADDRESS, MOST_EVENTS};
ghost use Rattle.run_commands.specs.declared.names.TheConstants.{NAME_LENGTH};
ghost use Rattle.queue_script.specs.declared.call_room.TheConstants.{QUOTA};
ghost use Rattle.queue_script.specs.declared.locks.TheConstants.{CODE_DIGITS, MOST_CODE};
ghost use Rattle.queue_script.specs.declared.options.TheConstants.{MOST_HALF, MOST_LEVEL};
ghost use Rattle.script_io.specs.Printing.{printed};
ghost use Rattle.script_io.specs.declared.line_sessions.TheConstants.{LINE_LENGTH};
ghost use Rattle.script_laws.specs.ReadBack.{OthersReadBack, ReadsBack};
ghost use Rattle.script_laws.specs.Taking.{TakeTakesAll};

/// The lines of a script: their length, the most steps and ticks, the greatest address, and the name of
/// an image.
pub fn numbers_of_lines()
    ensures line { LINE_LENGTH ≡ 256 }
    ensures events { MOST_EVENTS ≡ 1000000 }
    ensures address { MOST_ADDRESS ≡ 2 ^ 18 - 1 }
    ensures image { NAME_LENGTH ≡ 6 }
{}

/// Each text of 7-bit characters, printed as TAKE prints it, is read by TYPE as the same text.
pub fn printed_texts_are_read()
    ensures { (text : List ℕ) → All (λ c. c < 128) text → characters_of (printed text) ≡ Some text }
{}

/// `lockmon run` reads the lines of a piece of a recorded run as the commands of that piece, a remark as no command, and the lines
/// before and after the pieces as ASSEMBLE with the program's name, and as SHOW.
pub fn lines_are_read_back()
    ensures pieces { ReadsBack }
    ensures others { OthersReadBack }
{}

/// TAKE writes all output of a line, and leaves none of it: `MOST_TAKES` events of 64 characters are enough.
pub fn takes_take_all()
    ensures { TakeTakesAll }
{}

/// The locks of a script: the greatest id, function, group and number of a pool, the greatest level, and a user code, of 11
/// octal digits and 33 bits at most. No call of a script on the lock queue is over its quota.
pub fn numbers_of_locks()
    ensures half { MOST_HALF ≡ 262143 }
    ensures level { MOST_LEVEL ≡ 511 }
    ensures digits { CODE_DIGITS ≡ 11 }
    ensures code { MOST_CODE ≡ 2 ^ 33 - 1 }
    ensures quota { QUOTA ≡ 1025 }
{}

/// The assembler's sources: the characters of a name that count, the first address, and the number of addresses.
pub fn numbers_of_sources()
    ensures name { NAME_CHARACTERS ≡ 6 }
    ensures first { FIRST ≡ 96 }
    ensures memory { MEMORY_SIZE ≡ 2 ^ 18 }
{}

/// The program's exit statuses: all done; a script or a source refused; the arguments refused; the reader, the writer or
/// memory failed.
pub fn exit_statuses()
    ensures done { DONE ≡ 0 }
    ensures refused { REFUSED ≡ 1 }
    ensures usage { USAGE ≡ 2 }
    ensures failed { FAILED ≡ 3 }
{}
