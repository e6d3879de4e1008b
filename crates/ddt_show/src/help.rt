//! The help.

use program_shell::PendingText;

/// A line on each command, which stands in the first 16 characters.
static COMMANDS: [&str; 52] = [
    "a/               opens a place and shows its word",
    "(empty)          the next place; ^ the one before; TAB the one that the last word addresses",
    "value            puts the value in the place that is open",
    "a[ a] a!         the same, shown in octal, as an instruction, not at all; a/ value puts the value there",
    "$S $C $T $H $nR  shows words as instructions, in octal, as text, halves, in radix n, 2 to 16 (decimal)",
    "$D $6T $7T       .. in decimal, as SIXBIT, as ASCII; $O and $F are $C",
    "$A $R            shows addresses as numbers, with labels",
    "= _ ;            the last quantity in octal, as an instruction, as text",
    "expr=            a value in octal; expr_ as an instruction, expr; as text",
    "values           octal, 12. and ^D12, labels, . and $Q, + - * and ' (divides), 1,,LABEL, @5(3), MOVE 1,LABEL",
    "\"/ABCDE/ \"A\"     texts as values: ASCII from the left, one character; $\"/ABCDEF/ SIXBIT",
    "a$B              sets a breakpoint of the open job at a; a$nB that of number n, 1 to 8",
    "a$B IF b=v       .. that stops only where the word at b is v; <> < > <= >= compare signed numbers",
    "a$B TIMES n      .. that stops from the n-th time on (octal); a$B IF b=v TIMES n: only those times count",
    "0$nB             takes breakpoint n away",
    "$nB/             shows breakpoint n",
    "$B               the breakpoints, and what else runs stop at",
    "$G               starts the jobs that were not started, or the open one again, and runs",
    "a$G              starts the open job at a, and runs; CTRL-C stops it before",
    "n$P              goes on until the n-th breakpoint; n is octal: 20$P is sixteen, 20.$P twenty",
    "$$P              goes on past each breakpoint, which is shown, up to 4096 of them",
    "n$X              shows n instructions of the open job; n is octal: 20$X is sixteen, 20.$X twenty",
    "MOVEI 1,5$X      executes an instruction for the open job, which goes on where it was; a call runs till it returns",
    "$$X              up to the place behind the instruction, or the one behind that: a call returns there",
    "v<mask>$W        words of the open job that are v under the mask; $N that are not; v$E with the effective address v",
    "a<b>v$W          .. from a to b, under the mask that $M/ shows; so with $N and $E",
    "$M/              shows the mask of searches, and a value then goes there; $M/ value at once",
    ".JOB n           opens job n; numbers behind commands with a point are decimal",
    ".JOBS            how all jobs stand",
    ".LOCKS           the requests for locks, in order of arrival",
    ".WAITS           who waits for whom, and circles",
    ".REGS            the PC, the flags and the accumulators of the open job",
    ".HISTORY n       the last n turns of the open job; n is decimal, 1 to 1000",
    ".WATCH a         runs stop where the word at a changes, or no longer",
    ".BREAK LOCK A    runs stop before calls on the lock A (#17 by its code), or no longer",
    ".BREAK GRANT     runs stop where a request that waited is granted, or no longer",
    ".BREAK CIRCLE    runs stop where jobs wait for each other in a circle, or no longer",
    ".BREAK a         as a$B, also with IF and TIMES",
    ".STEP n          n steps of the machine; n is decimal",
    ".RUN n           goes on as $P, for n steps at most; n is decimal; $G, $P and $X go on for 10000000",
    ".TICK n          n ticks go by; n is decimal, 1 to 6000",
    ".TYPE l text     types a text and RETURN at terminal line l; \\r \\n \\e \\\\ and \\ooo (octal) are characters",
    ".TAKE            what jobs have typed out",
    ".EX a-b          shows the words from a to b",
    ".BACK n          n steps back; n is decimal: .BACK 20 is twenty",
    ".BACK TO a       to before the last step for which the open job stood at a",
    ".BACK WRITE a    to before the step that last changed the word at a",
    ".FORWARD         to the end of all that has happened",
    ".SAVE file.ddt   writes the lines so far, as a script; .DO file obeys the lines of a file",
    ".RECORD file.run writes what has happened as a script of `lockmon run`, where nothing was changed by hand",
    "; text           a remark",
    ".QUIT            ends the session; .HELP word tells of one command",
];

/// How many characters of a line its command has.
const COLUMN: usize = 16;

/// Whether a word, which may be empty, stands in the command of a line, in upper or lower case.
fn is_on(line: &str, word: &[u8]) -> bool {
    let bytes = line.as_bytes();
    for start in 0..COLUMN {
        let end = start.saturating_add(word.len());
        match bytes.get(start..end) {
            Some(part) if end <= COLUMN && part.eq_ignore_ascii_case(word) => return true,
            _ => {}
        }
    }
    false
}

/// Adds a line on each command in which a word stands, in upper or lower case, and on each command for an empty word; false
/// where there is none.
pub fn add_help(answer: &mut PendingText, word: &[u8]) -> bool {
    let mut is_any = false;
    for line in &COMMANDS {
        if is_on(line, word) {
            answer.say(line);
            answer.end_line();
            is_any = true;
        }
    }
    is_any
}
