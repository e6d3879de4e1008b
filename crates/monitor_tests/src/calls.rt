//! CORE, the shared words, and calls that are not listed.

use crate::rows::Act::{Kill, Typed};
use crate::rows::Reply::{Done, JobNumber, Refused};
use crate::rows::Row::{Begins, Happens, Job, Loads, NoJob, Shared, Steps, Word};
use crate::rows::{Table, Words, walk, walk_all};
use job_sched::{Stop, Wait};
use ka_state::StopReason::{IllegalAddress, IllegalInstruction};
use monitor::RefusedEvent::NoCore;

/// CORE of two blocks; refused, it goes on at 142 octal.
const GROWER: &str = " MOVE 1,[3777]\n CORE 1,\n JRST .\n JRST .\n END\n";

/// The rows of `core_call`.
static CORE_CALL: Table = Table {
    name: "core_call",
    blocks: 64,
    quantum: 1,
    rows: &[
        Begins(0, GROWER, 1),
        Steps(2, 2),
        Job(1, 0o143, None, Wait::None),
        Word(1, 1, Some(0o76)),
        Word(1, 0o44, Some(0o3777)),
        Word(1, 0o2000, Some(0)),
        Word(1, 0o3777, Some(0)),
        Word(1, 0o4000, None),
    ],
};

#[test]
fn core_call(rt: HostRuntime) {
    walk(&rt, rt.alloc(), &CORE_CALL);
}

/// Two blocks, with a word at the end of each.
const FILLED: Words = &[(0o140, 0o777777_777777), (0o1777, 5), (0o3777, 7)];

/// Two blocks, with no word at the end of either.
const TWO_BLOCKS: Words = &[(0o140, 1), (0o3776, 2)];

/// Writes the shared word 2000 octal, which there is not; writes the word 5 and reads it.
const WRITER: &str =
    " MOVEI 1,2000\n DATWR. 1,\n MOVEI 1,5\n MOVEI 2,77\n DATWR. 1,\n HALT\n DATRD. 1,\n HALT\n\
    JRST .\n END\n";

/// The rows of `data_words`.
static DATA_WORDS: Table = Table {
    name: "data_words",
    blocks: 64,
    quantum: 1,
    rows: &[
        Begins(0, WRITER, 1),
        Steps(2, 2),
        Job(1, 0o142, None, Wait::None),
        Word(1, 1, Some(1)),
        Steps(4, 4),
        Job(1, 0o150, None, Wait::None),
        Word(1, 1, Some(0o77)),
        Shared(5, Some(0o77)),
        Shared(4, Some(0)),
        Shared(1023, Some(0)),
        Shared(1024, None),
    ],
};

#[test]
fn data_words(rt: HostRuntime) {
    walk(&rt, rt.alloc(), &DATA_WORDS);
}

const UNLISTED: Option<Stop> = Some(Stop::Fault(IllegalInstruction));

const ILLEGAL: Option<Stop> = Some(Stop::Fault(IllegalAddress));

/// The tables that are walked on a new machine each.
static TABLES: [Table; 3] = [
    Table {
        name: "core_is_refused",
        blocks: 1,
        quantum: 1,
        rows: &[
            Begins(0, GROWER, 1),
            Steps(2, 2),
            Job(1, 0o142, None, Wait::None),
            Word(1, 1, Some(0)),
            Word(1, 0o44, Some(0o1777)),
            Word(1, 0o1777, Some(0)),
            Word(1, 0o2000, None),
        ],
    },
    // A job fills its two blocks and goes; another takes the same blocks, and a third grows into one.
    Table {
        name: "new_core_is_zero",
        blocks: 3,
        quantum: 1,
        rows: &[
            Loads(0, FILLED, JobNumber(1)),
            Loads(1, TWO_BLOCKS, Refused(NoCore)),
            Happens(Kill(1), Done),
            NoJob(1),
            Loads(1, TWO_BLOCKS, JobNumber(1)),
            Word(1, 0o140, Some(1)),
            Word(1, 0o1777, Some(0)),
            Word(1, 0o3777, Some(0)),
            Happens(Kill(1), Done),
            Loads(1, FILLED, JobNumber(1)),
            Happens(Kill(1), Done),
            Begins(0, GROWER, 1),
            Steps(2, 2),
            Word(1, 1, Some(1)),
            Word(1, 0o1777, Some(0)),
            Word(1, 0o3777, Some(0)),
        ],
    },
    // The PC is back at the instruction, and at the XCT where that executed it.
    Table {
        name: "calls_that_stop",
        blocks: 64,
        quantum: 1,
        rows: &[
            Begins(0, " CALLI 1,777\n END\n", 1),
            Steps(2, 1),
            Job(1, 0o140, UNLISTED, Wait::None),
            Begins(1, " XCT [CALLI 2,12]\n END\n", 2),
            Steps(2, 1),
            Job(2, 0o140, UNLISTED, Wait::None),
            Begins(2, " OUTSTR 2000\n END\n", 3),
            Steps(2, 1),
            Job(3, 0o140, ILLEGAL, Wait::None),
            Begins(3, " INCHRW 2000\n END\n", 4),
            Happens(Typed(3, b'A'), Done),
            Steps(2, 1),
            Job(4, 0o140, ILLEGAL, Wait::None),
            // The character is still there.
            Happens(Kill(4), Done),
            Begins(3, " INCHRW 7\n END\n", 4),
            Steps(1, 1),
            Word(4, 7, Some(0o101)),
        ],
    },
];

#[test]
fn tables_hold(rt: HostRuntime) {
    walk_all(&rt, rt.alloc(), &TABLES);
}
