//! What jobs read from their lines and put out there.

use crate::rows::Act::{Continue, Step, Take, Typed};
use crate::rows::Reply::{Done, Idle, Ran, Refused, Text};
use crate::rows::Row::{Begins, Happens, Job, Repeats, Steps, Word};
use crate::rows::{CTRL_C, Table, walk, walk_all};
use job_sched::{Stop, Wait};
use monitor::RefusedEvent::{Full, NoLine};
use word36::LINES;

/// 051140,,000143 is OUTSTR 143, and 442220,,000000 the characters HI and a zero.
const HI: &str = " 51140,,143\n INCHRW 150\n LOC 143\n 442220,,0\n END\n";

/// A text goes out once. CTRL-C is not stored: it stops the line's job, and does nothing where there is none.
/// 051140,,000143 is OUTSTR 143, and 442220,,000000 the characters HI and a zero.
static TERMINAL: Table = Table {
    name: "terminal",
    blocks: 64,
    quantum: 1,
    rows: &[
        Happens(Typed(0, CTRL_C), Done),
        Begins(0, HI, 1),
        Steps(1, 1),
        Happens(Take(0, 64), Text(b"HI")),
        Happens(Take(0, 64), Text(b"")),
        Happens(Take(LINES, 64), Refused(NoLine)),
        Happens(Typed(1, CTRL_C), Done),
        Job(1, 0o141, None, Wait::None),
        Happens(Typed(0, CTRL_C), Done),
        Job(1, 0o141, Some(Stop::Typed), Wait::None),
        Happens(Continue(1), Done),
        Happens(Step, Ran(1)),
        Job(1, 0o141, None, Wait::Char),
    ],
};

#[test]
fn terminal(rt: HostRuntime) {
    walk(&rt, rt.alloc(), &TERMINAL);
}

/// The most characters that one take gives.
const FULL_TAKE: &[u8] = b"AAAAAAAAAAAAAAAAAAAAAAAAAAAAAAAAAAAAAAAAAAAAAAAAAAAAAAAAAAAAAAAA";

/// 511 characters, and then a text of two.
const TALKER: &str =
    " MOVEI 5,^D511\nL: OUTCHR [101]\n SOJG 5,L\n OUTSTR [ASCIZ /HI/]\n JRST .\n END\n";

/// Reads a character.
const READER: &str = " INCHRW 150\n JRST .\n END\n";

/// Reads three characters of a line.
const LINE_READER: &str = " INCHWL 150\n INCHWL 151\n INCHWL 152\n JRST .\n END\n";

/// The tables that are walked on a new machine each.
static TABLES: [Table; 4] = [
    // 511 characters, and then a text of two: it is put out as a whole, or not yet.
    Table {
        name: "a_text_waits_for_room",
        blocks: 64,
        quantum: 1,
        rows: &[
            Begins(0, TALKER, 1),
            Steps(1023, 1023),
            Happens(Step, Ran(1)),
            Job(1, 0o143, None, Wait::Room(2)),
            Happens(Step, Idle),
            Happens(Take(0, 1), Text(b"A")),
            Happens(Step, Ran(1)),
            Job(1, 0o144, None, Wait::None),
            Happens(Take(0, 500), Text(FULL_TAKE)),
            Happens(Take(0, 3), Text(b"AAA")),
            Happens(Take(0, 0), Text(b"")),
        ],
    },
    Table {
        name: "a_character_is_awaited",
        blocks: 64,
        quantum: 1,
        rows: &[
            Begins(2, READER, 1),
            Happens(Step, Ran(1)),
            Job(1, 0o140, None, Wait::Char),
            Happens(Step, Idle),
            Happens(Typed(1, b'B'), Done),
            Happens(Step, Idle),
            Happens(Typed(2, b'A'), Done),
            Job(1, 0o140, None, Wait::None),
            Happens(Step, Ran(1)),
            Job(1, 0o141, None, Wait::None),
            Word(1, 0o150, Some(0o101)),
        ],
    },
    Table {
        name: "a_line_is_awaited",
        blocks: 64,
        quantum: 1,
        rows: &[
            Begins(0, LINE_READER, 1),
            Happens(Step, Ran(1)),
            Job(1, 0o140, None, Wait::Line),
            Happens(Typed(0, b'A'), Done),
            Happens(Typed(0, b'B'), Done),
            Happens(Step, Idle),
            // A break character may stand behind others.
            Happens(Typed(0, b'\n'), Done),
            Steps(4, 4),
            Job(1, 0o143, None, Wait::None),
            Word(1, 0o150, Some(0o101)),
            Word(1, 0o151, Some(0o102)),
            Word(1, 0o152, Some(0o12)),
        ],
    },
    Table {
        name: "a_full_line",
        blocks: 64,
        quantum: 1,
        rows: &[
            Begins(0, " INCHWL 150\n JRST .\n END\n", 1),
            Repeats(127, Typed(0, b'x'), Done),
            Happens(Step, Ran(1)),
            Job(1, 0o140, None, Wait::Line),
            Happens(Typed(0, b'y'), Done),
            Happens(Typed(0, b'A'), Refused(Full)),
            // No room is left for a break: the line counts as typed. CTRL-C is never stored.
            Happens(Typed(0, CTRL_C), Done),
            Job(1, 0o140, Some(Stop::Typed), Wait::None),
            Happens(Continue(1), Done),
            Happens(Step, Ran(1)),
            Word(1, 0o150, Some(0o170)),
            Happens(Typed(0, b'A'), Done),
            Happens(Typed(0, b'A'), Refused(Full)),
        ],
    },
];

#[test]
fn tables_hold(rt: HostRuntime) {
    walk_all(&rt, rt.alloc(), &TABLES);
}
