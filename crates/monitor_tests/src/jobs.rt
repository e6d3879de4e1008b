//! Jobs: how they begin, run in turn, sleep, stop and go.

use crate::rows::Act::{Continue, Kill, Restart, Start, Step, Take, Tick, Typed};
use crate::rows::Reply::{Done, Idle, JobNumber, Ran, Refused};
use crate::rows::Row::{
    Begins, Happens, Job, Loads, LoadsEach, Locks, NoJob, Repeats, Rounds, Shared, Steps, Together,
    Turns, Word,
};
use crate::rows::{CTRL_C, Row, Table, Words, walk, walk_all};
use job_sched::{Stop, Wait};
use lock_queue::EnqueueKind::AtOnce;
use monitor::RefusedEvent::{
    BadImage, LineBusy, NoCore, NoJobNumber, NoLine, NoSuchJob, NotStopped,
};
use word36::{JOBS, LINES};

/// ENQ. 1 of a user code, and EXIT: four words at 140 octal, and a block behind an address left out.
const CODE_AND_EXIT: Words = &[
    (0o140, 0o200040_000145),
    (0o141, 0o047040_000151),
    (0o142, 0o254200_000000),
    (0o143, 0o047000_000012),
    (0o145, 0o000001_000146),
    (0o146, 0o000001_000005),
    (0o147, 0o000000_000007),
    (0o150, 0o000000_777777),
    (0o151, 0o500000_000012),
    (0o152, 0),
];

/// The rows of `one_job`.
static ONE_JOB: Table = Table {
    name: "one_job",
    blocks: 64,
    quantum: 1,
    rows: &[
        Loads(0, CODE_AND_EXIT, JobNumber(1)),
        Job(1, 0o140, Some(Stop::Loaded), Wait::None),
        Word(1, 0o44, Some(0o1777)),
        Word(1, 0o144, Some(0)),
        Word(1, 0o2000, None),
        Happens(Start(1), Done),
        Happens(Step, Ran(1)),
        Happens(Step, Ran(1)),
        Locks(&[(1, AtOnce, 7, true)]),
        Happens(Step, Ran(1)),
        Locks(&[]),
        Job(1, 0o144, Some(Stop::Exit), Wait::None),
        Happens(Step, Idle),
        Happens(Kill(1), Done),
        Happens(Start(1), Refused(NoSuchJob)),
        NoJob(1),
        Word(1, 0, None),
    ],
};

#[test]
fn one_job(rt: HostRuntime) {
    walk(&rt, rt.alloc(), &ONE_JOB);
}

/// One block.
const SMALL: Words = &[(0o140, 0o254000_000140)];

/// Two blocks.
const LARGE: Words = &[(0o140, 0), (0o2000, 0)];

/// Places that fall.
const FALLING: Words = &[(0o141, 0), (0o140, 0)];

/// An address that comes twice.
const TWICE: Words = &[(0o140, 0), (0o140, 0)];

/// An address past the last.
const HIGH: Words = &[(0o140, 0), (0o1000000, 0)];

/// A job that does nothing else.
const LOOP: &str = " JRST .\n END\n";

/// The rows of `quantum`.
static QUANTUM: Table = Table {
    name: "quantum",
    blocks: 64,
    quantum: 2,
    rows: &[
        Begins(0, LOOP, 1),
        Begins(1, LOOP, 2),
        Turns(&[1, 1, 2, 2, 1, 1]),
        // Without ticks a quantum lasts.
        Happens(Step, Ran(2)),
        Happens(Step, Ran(2)),
        Happens(Step, Ran(2)),
        Happens(Tick, Done),
        Happens(Tick, Done),
        Happens(Step, Ran(1)),
        // A job that goes leaves nothing of its quantum.
        Happens(Kill(1), Done),
        Happens(Step, Ran(2)),
        Begins(0, LOOP, 1),
        Turns(&[2, 2, 1, 1]),
    ],
};

#[test]
fn quantum(rt: HostRuntime) {
    walk(&rt, rt.alloc(), &QUANTUM);
}

/// Sleeps for a second.
const SECOND: &str = " MOVEI 1,1\n SLEEP 1,\n JRST .\n END\n";

/// Sleeps for no second, which is one tick.
const MOMENT: &str = " MOVEI 1,0\n SLEEP 1,\n JRST .\n END\n";

/// Reads a character.
const READER: &str = " INCHRW 150\n JRST .\n END\n";

/// Counts to 100 in the shared word 0, under a lock.
const COUNTER: &str =
    " MOVEI 5,^D100\nLOOP: MOVE 1,[BLK]\n ENQ. 1,\n HALT\n MOVEI 1,0\n DATRD. 1,\n HALT\n \
    MOVE 2,1\n ADDI 2,1\n MOVEI 1,0\n DATWR. 1,\n HALT\n MOVE 1,[BLK]\n DEQ. 1,\n HALT\n SOJG 5,LOOP\n EXIT\n\
    BLK: 1,,5\n 0,,7\n 777777\n POINT 7,[ASCIZ /X/]\n 0\n END\n";

/// The rows of `two_jobs_count_under_a_lock`.
const COUNTS: &[Row] = &[
    Begins(0, COUNTER, 1),
    Begins(1, COUNTER, 2),
    Rounds(6000, 2204),
    Shared(0, Some(0o310)),
];

/// The jobs count by turns.
static TWO_JOBS_COUNT: Table = Table {
    name: "two_jobs_count",
    blocks: 64,
    quantum: 1,
    rows: COUNTS,
};

/// The jobs count with a long quantum.
static TWO_JOBS_COUNT_LONG: Table = Table {
    name: "two_jobs_count_long",
    blocks: 64,
    quantum: 60,
    rows: COUNTS,
};

#[test]
fn two_jobs_count_under_a_lock(rt: HostRuntime) {
    walk(&rt, rt.alloc(), &TWO_JOBS_COUNT);
    walk(&rt, rt.alloc(), &TWO_JOBS_COUNT_LONG);
}

/// The tables that are walked on a new machine each.
static TABLES: [Table; 7] = [
    // The machine has one block.
    Table {
        name: "refusals_come_in_order",
        blocks: 1,
        quantum: 1,
        rows: &[
            Loads(LINES, &[], Refused(NoLine)),
            Loads(255, SMALL, Refused(NoLine)),
            Loads(0, &[], Refused(BadImage)),
            Loads(0, FALLING, Refused(BadImage)),
            Loads(0, TWICE, Refused(BadImage)),
            Loads(0, HIGH, Refused(BadImage)),
            Loads(0, LARGE, Refused(NoCore)),
            Loads(0, SMALL, JobNumber(1)),
            Loads(0, &[], Refused(LineBusy)),
            Loads(1, &[], Refused(BadImage)),
            Loads(1, SMALL, Refused(NoCore)),
            Happens(Continue(2), Refused(NoSuchJob)),
            Happens(Start(0), Refused(NoSuchJob)),
            Happens(Kill(255), Refused(NoSuchJob)),
            Happens(Start(1), Done),
            Happens(Start(1), Refused(NotStopped)),
            Happens(Continue(1), Refused(NotStopped)),
            Happens(Take(LINES, 1), Refused(NoLine)),
            Happens(Typed(LINES, CTRL_C), Refused(NoLine)),
            Happens(Typed(LINES, b'A'), Refused(NoLine)),
        ],
    },
    // There are more lines than jobs, and more blocks.
    Table {
        name: "sizes",
        blocks: 256,
        quantum: 1,
        rows: &[
            LoadsEach(JOBS, SMALL),
            Loads(LINES - 1, SMALL, Refused(NoJobNumber)),
            Loads(LINES, SMALL, Refused(NoLine)),
            Happens(Kill(JOBS + 1), Refused(NoSuchJob)),
            // The first number that is free is given, at any line.
            Happens(Kill(JOBS), Done),
            Happens(Kill(7), Done),
            Loads(LINES - 1, SMALL, JobNumber(7)),
            Loads(6, SMALL, JobNumber(JOBS)),
            Happens(Start(JOBS), Done),
            Happens(Start(7), Done),
            Turns(&[7, JOBS, 7]),
        ],
    },
    Table {
        name: "sleep",
        blocks: 64,
        quantum: 60,
        rows: &[
            Begins(0, SECOND, 1),
            Steps(2, 2),
            Job(1, 0o142, None, Wait::Sleep(60)),
            Rounds(60, 0),
            Happens(Step, Ran(1)),
            Happens(Kill(1), Done),
            Begins(0, MOMENT, 1),
            Steps(2, 2),
            Happens(Step, Idle),
            Happens(Tick, Done),
            Happens(Step, Ran(1)),
            Happens(Kill(1), Done),
            // A stopped job's time goes by too.
            Begins(0, SECOND, 1),
            Steps(2, 2),
            Happens(Typed(0, CTRL_C), Done),
            Rounds(59, 0),
            Job(1, 0o142, Some(Stop::Typed), Wait::Sleep(1)),
            Repeats(1, Tick, Done),
            Happens(Step, Idle),
            Happens(Continue(1), Done),
            Happens(Step, Ran(1)),
        ],
    },
    // 100 ticks are 1666 milliseconds.
    Table {
        name: "time_of_day",
        blocks: 64,
        quantum: 1,
        rows: &[
            Repeats(100, Tick, Done),
            Begins(0, " MSTIME 1,\n END\n", 1),
            Steps(1, 1),
            Word(1, 1, Some(0o3202)),
        ],
    },
    Table {
        name: "control_c",
        blocks: 64,
        quantum: 1,
        rows: &[
            // Nobody is there.
            Happens(Typed(5, CTRL_C), Done),
            Begins(0, READER, 1),
            Begins(5, READER, 2),
            Happens(Typed(0, b'x'), Done),
            Happens(Typed(0, CTRL_C), Done),
            Happens(Typed(0, b'y'), Done),
            Job(1, 0o140, Some(Stop::Typed), Wait::None),
            Job(2, 0o140, None, Wait::None),
            Happens(Typed(0, CTRL_C), Done),
            Happens(Continue(1), Done),
            Turns(&[1, 2, 1, 1]),
            Job(1, 0o141, None, Wait::None),
            Word(1, 0o150, Some(0o170)),
            Job(2, 0o140, None, Wait::Char),
            // A job that has exited stays exited.
            Begins(1, " EXIT\n END\n", 3),
            Turns(&[3, 1, 1]),
            Happens(Typed(1, CTRL_C), Done),
            Job(3, 0o141, Some(Stop::Exit), Wait::None),
            // A start forgets the wait, a continuation does not.
            Happens(Typed(5, CTRL_C), Done),
            Happens(Continue(2), Done),
            Job(2, 0o140, None, Wait::Char),
            Happens(Typed(5, CTRL_C), Done),
            Happens(Start(2), Done),
            Job(2, 0o140, None, Wait::None),
        ],
    },
    Table {
        name: "restart_keeps_the_data_words",
        blocks: 64,
        quantum: 1,
        rows: &[
            Begins(0, COUNTER, 1),
            Begins(1, COUNTER, 2),
            Happens(Typed(1, b'A'), Done),
            Rounds(50, 50),
            Happens(Restart, Done),
            Locks(&[]),
            NoJob(1),
            NoJob(2),
            Shared(0, Some(4)),
            Shared(1024, None),
            // The time of day stays too: 50 ticks are 833 milliseconds.
            Begins(1, " MSTIME 1,\n INCHRW 2\n END\n", 1),
            Steps(2, 2),
            Word(1, 1, Some(0o1501)),
            Job(1, 0o141, None, Wait::Char),
            Happens(Typed(1, b'B'), Done),
            Steps(1, 1),
            Word(1, 2, Some(0o102)),
        ],
    },
    Table {
        name: "answers_stand_in_their_places",
        blocks: 64,
        quantum: 1,
        rows: &[Together(&[
            (Typed(0, b'A'), Done),
            (Kill(2), Refused(NoSuchJob)),
            (Step, Idle),
            (Take(LINES, 1), Refused(NoLine)),
        ])],
    },
];

#[test]
fn tables_hold(rt: HostRuntime) {
    walk_all(&rt, rt.alloc(), &TABLES);
}
