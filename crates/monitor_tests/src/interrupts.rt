//! Requests that interrupt.

use crate::rows::Act::{Continue, Kill, Step, Typed};
use crate::rows::Reply::{Done, Idle};
use crate::rows::Row::{Begins, Happens, Job, Locks, Rounds, Steps, Turns, Word};
use crate::rows::{Table, walk, walk_all};
use job_sched::{Stop, Wait};
use ka_state::StopReason::IllegalAddress;
use lock_queue::EnqueueKind::{AtOnce, Interrupt};

/// Owns two locks, waits for a character, and gives both up by one DEQ.
const OWNER: &str =
    " MOVE 1,[1,,BLK]\n ENQ. 1,\n HALT\n INCHRW 7\n MOVE 1,[BLK]\n DEQ. 1,\n HALT\n JRST .\n\
    BLK: 2,,10\n 0,,1\n 200000,,777777\n 500000,,1\n 0\n 200000,,777777\n 500000,,2\n 0\n END\n";

/// Sets a vector at 200 octal, asks for both locks by requests of the ids 7 and 10, each of which
/// interrupts, and waits for a character at 152.
const ASKER: &str =
    " MOVEI 1,200\n PIINI. 1,\n HALT\n MOVEI 1,1\n PISYS. 1,\n HALT\n MOVE 1,[2,,ONE]\n ENQ. 1,\n \
    MOVE 1,[2,,TWO]\n ENQ. 1,\n INCHRW 7\n JRST .\n\
    ONE: 1,,5\n 0,,7\n 200000,,777777\n 500000,,1\n 0\n\
    TWO: 1,,5\n 0,,10\n 200000,,777777\n 500000,,2\n 0\n LOC 174\n DEBRK.\n JRST .\n\
    LOC 200\n 174\n BLOCK 3\n END\n";

/// The flags and the PC of the asker at 152 octal.
const AT_152: Option<u64> = Some(0o010000_000152);

/// Owns the lock 1, and gives it up when a character is typed.
const HOLDER: &str =
    " MOVE 1,[1,,BLK]\n ENQ. 1,\n HALT\n INCHRW 7\n MOVE 1,[BLK]\n DEQ. 1,\n HALT\n JRST .\n\
    BLK: 1,,5\n 0,,1\n 777777\n 500000,,1\n 0\n END\n";

/// Asks for the lock 1 by a request of id 7 that interrupts, with a vector at 200 octal, and loops at 151.
const WATCHER: &str =
    " MOVEI 1,200\n PIINI. 1,\n HALT\n MOVEI 1,1\n PISYS. 1,\n HALT\n MOVE 1,[2,,BLK]\n ENQ. 1,\n JFCL\n \
    JRST .\n JRST .\nBLK: 1,,5\n 0,,7\n 777777\n 500000,,1\n 0\n LOC 174\n DEBRK.\n LOC 200\n 174\n BLOCK 3\n END\n";

/// A grant stores the flags, the PC and the id of its request, and the job goes on at its vector.
static INTERRUPTS: Table = Table {
    name: "interrupts",
    blocks: 64,
    quantum: 1,
    rows: &[
        Begins(0, HOLDER, 1),
        Rounds(3, 3),
        Begins(1, WATCHER, 2),
        Rounds(9, 9),
        Job(2, 0o151, None, Wait::None),
        Word(2, 1, Some(1)),
        Happens(Typed(0, b'A'), Done),
        Turns(&[1, 2, 1, 2, 1, 2]),
        Word(2, 0o201, Some(0o010000_000151)),
        Word(2, 0o203, Some(7)),
        Job(2, 0o174, None, Wait::None),
        Turns(&[1, 2]),
        Job(2, 0o151, None, Wait::None),
        Turns(&[1, 2]),
        Job(2, 0o151, None, Wait::None),
    ],
};

#[test]
fn interrupts(rt: HostRuntime) {
    walk(&rt, rt.alloc(), &INTERRUPTS);
}

/// Asks for the lock 1 by a request that interrupts, and has set no vector.
const NO_VECTOR: &str = " MOVE 1,[2,,BLK]\n ENQ. 1,\n JRST .\n JRST .\n\
    BLK: 1,,5\n 0,,7\n 777777\n 500000,,1\n 0\n END\n";

/// As the watcher, with a vector at 3000 octal in a second block, which it gives back afterwards.
const SHRINKER: &str =
    " MOVE 1,[3777]\n CORE 1,\n HALT\n MOVEI 1,3000\n PIINI. 1,\n HALT\n MOVEI 1,1\n PISYS. 1,\n HALT\n \
    MOVE 1,[2,,BLK]\n ENQ. 1,\n JFCL\n MOVEI 1,1777\n CORE 1,\n HALT\n JRST .\n\
    BLK: 1,,5\n 0,,7\n 777777\n 500000,,1\n 0\n END\n";

const STOPPED: Option<Stop> = Some(Stop::Fault(IllegalAddress));

/// As the watcher, but its interrupts are off until a character is typed.
const LATE: &str =
    " MOVEI 1,200\n PIINI. 1,\n HALT\n MOVE 1,[2,,BLK]\n ENQ. 1,\n JFCL\n INCHRW 7\n MOVEI 1,1\n PISYS. 1,\n \
    HALT\n JRST .\nBLK: 1,,5\n 0,,7\n 777777\n 500000,,1\n 0\n LOC 200\n 174\n BLOCK 3\n END\n";

/// The tables that are walked on a new machine each.
static TABLES: [Table; 5] = [
    Table {
        name: "two_grants_interrupt_in_order",
        blocks: 64,
        quantum: 1,
        rows: &[
            Begins(0, OWNER, 1),
            Rounds(3, 3),
            Begins(1, ASKER, 2),
            Rounds(40, 9),
            Locks(&[
                (1, AtOnce, 1, true),
                (2, Interrupt, 7, false),
                (2, Interrupt, 0o10, false),
            ]),
            Job(2, 0o152, None, Wait::Char),
            // Both are granted, and the job goes on waiting for its character.
            Happens(Typed(0, b'A'), Done),
            Turns(&[1, 1, 1, 1, 1, 1]),
            Locks(&[(2, Interrupt, 7, true), (2, Interrupt, 0o10, true)]),
            Word(2, 0o201, Some(0)),
            Happens(Typed(1, b'B'), Done),
            Turns(&[2]),
            Job(2, 0o174, None, Wait::None),
            Word(2, 0o201, AT_152),
            Word(2, 0o203, Some(7)),
            // DEBRK. comes before the second.
            Turns(&[1, 2]),
            Job(2, 0o152, None, Wait::None),
            Word(2, 0o203, Some(7)),
            Turns(&[1, 2]),
            Job(2, 0o174, None, Wait::None),
            Word(2, 0o201, AT_152),
            Word(2, 0o203, Some(0o10)),
            // Each is notified once.
            Turns(&[1, 2, 1, 2, 1, 2, 1]),
            Job(2, 0o153, None, Wait::None),
            Word(2, 0o203, Some(0o10)),
            Word(2, 7, Some(0o102)),
        ],
    },
    // The request skips the JFCL, and nothing interrupts.
    Table {
        name: "a_grant_at_once_is_told",
        blocks: 64,
        quantum: 1,
        rows: &[
            Begins(0, WATCHER, 1),
            Steps(10, 10),
            Job(1, 0o151, None, Wait::None),
            Word(1, 0o203, Some(0)),
            Locks(&[(1, Interrupt, 7, true)]),
        ],
    },
    Table {
        name: "an_interrupt_wants_a_vector",
        blocks: 64,
        quantum: 1,
        rows: &[
            Begins(0, NO_VECTOR, 1),
            Steps(2, 2),
            Job(1, 0o142, None, Wait::None),
            Word(1, 1, Some(0o17)),
            Locks(&[]),
        ],
    },
    // The job stops, and the request is not notified: it would interrupt again.
    Table {
        name: "a_vector_that_is_gone",
        blocks: 64,
        quantum: 1,
        rows: &[
            Begins(0, HOLDER, 1),
            Rounds(3, 3),
            Begins(1, SHRINKER, 2),
            Rounds(13, 13),
            Job(2, 0o157, None, Wait::None),
            Happens(Kill(1), Done),
            Steps(2, 1),
            Job(2, 0o157, STOPPED, Wait::None),
            Locks(&[(2, Interrupt, 7, true)]),
            Happens(Continue(2), Done),
            Steps(2, 1),
            Job(2, 0o157, STOPPED, Wait::None),
            Happens(Step, Idle),
        ],
    },
    Table {
        name: "interrupts_that_are_off",
        blocks: 64,
        quantum: 1,
        rows: &[
            Begins(0, HOLDER, 1),
            Rounds(3, 3),
            Begins(1, LATE, 2),
            Rounds(7, 6),
            Job(2, 0o146, None, Wait::Char),
            Happens(Kill(1), Done),
            Happens(Typed(1, b'A'), Done),
            Steps(3, 3),
            Job(2, 0o152, None, Wait::None),
            Word(2, 0o203, Some(0)),
            Steps(1, 1),
            Job(2, 0o174, None, Wait::None),
            Word(2, 0o201, Some(0o010000_000152)),
            Word(2, 0o203, Some(7)),
        ],
    },
];

#[test]
fn tables_hold(rt: HostRuntime) {
    walk_all(&rt, rt.alloc(), &TABLES);
}
