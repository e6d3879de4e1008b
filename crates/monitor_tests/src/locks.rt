//! Jobs that wait for locks.

use crate::rows::Act::{Continue, Kill, Start, Typed};
use crate::rows::Reply::Done;
use crate::rows::Row::{Begins, Happens, Job, Locks, NoJob, Turns, Word};
use crate::rows::{CTRL_C, Table, walk, walk_all};
use job_sched::{Stop, Wait};
use lock_queue::EnqueueKind::{AtOnce, Blocking};

/// ENQ. 0 of a lock and DEQ. of it; a request that is refused halts.
const OWNER: &str = " MOVE 1,[BLK]\n ENQ. 1,\n HALT\n MOVE 1,[BLK]\n DEQ. 1,\n HALT\n JRST .\n\
    BLK: 1,,5\n 0,,7\n 777777\n 500000,,12\n 0\n END\n";

/// ENQ. 0 of the same lock, shared, which is kept.
const SHARER: &str = " MOVE 1,[BLK]\n ENQ. 1,\n HALT\n JRST .\n\
    BLK: 1,,5\n 0,,10\n 400000,,777777\n 500000,,12\n 0\n END\n";

/// The rows of `wake`.
static WAKE: Table = Table {
    name: "wake",
    blocks: 64,
    quantum: 1,
    rows: &[
        Begins(0, OWNER, 1),
        Begins(1, OWNER, 2),
        Turns(&[1, 2, 1, 2]),
        // The skip return is set at once, and the job waits.
        Job(1, 0o143, None, Wait::None),
        Job(2, 0o143, None, Wait::Queue(0, 1)),
        Locks(&[(1, Blocking, 7, true), (2, Blocking, 7, false)]),
        Turns(&[1, 1]),
        Job(2, 0o143, None, Wait::None),
        Locks(&[(2, Blocking, 7, true)]),
        Turns(&[2, 1, 2]),
        Job(2, 0o146, None, Wait::None),
        Locks(&[]),
    ],
};

#[test]
fn wake(rt: HostRuntime) {
    walk(&rt, rt.alloc(), &WAKE);
}

/// The rows of `kill_waiter`.
static KILL_WAITER: Table = Table {
    name: "kill_waiter",
    blocks: 64,
    quantum: 1,
    rows: &[
        Begins(0, SHARER, 1),
        Turns(&[1, 1]),
        Begins(1, OWNER, 2),
        Turns(&[2, 1, 2]),
        Begins(2, SHARER, 3),
        Turns(&[3, 1, 3, 1, 1]),
        Locks(&[
            (1, Blocking, 0o10, true),
            (2, Blocking, 7, false),
            (3, Blocking, 0o10, false),
        ]),
        Happens(Kill(2), Done),
        NoJob(2),
        Locks(&[(1, Blocking, 0o10, true), (3, Blocking, 0o10, true)]),
        Turns(&[3, 1]),
        // A job that owns leaves no request either.
        Happens(Kill(1), Done),
        Locks(&[(3, Blocking, 0o10, true)]),
    ],
};

#[test]
fn kill_waiter(rt: HostRuntime) {
    walk(&rt, rt.alloc(), &KILL_WAITER);
}

/// ENQ. 1 of the lock, executed by XCT.
const BY_XCT: &str = " MOVE 1,[1,,BLK]\n XCT [ENQ. 1,]\n HALT\n JRST .\n\
    BLK: 1,,5\n 0,,7\n 777777\n 500000,,12\n 0\n END\n";

/// The tables that are walked on a new machine each.
static TABLES: [Table; 3] = [
    Table {
        name: "release_wakes_all",
        blocks: 64,
        quantum: 1,
        rows: &[
            Begins(0, OWNER, 1),
            Begins(1, SHARER, 2),
            Begins(2, SHARER, 3),
            Turns(&[1, 2, 3, 1, 2, 3]),
            Job(2, 0o143, None, Wait::Queue(0, 1)),
            Job(3, 0o143, None, Wait::Queue(0, 1)),
            Turns(&[1, 1]),
            Locks(&[(2, Blocking, 0o10, true), (3, Blocking, 0o10, true)]),
            Turns(&[2, 3, 1]),
        ],
    },
    Table {
        name: "stopped_waiter",
        blocks: 64,
        quantum: 1,
        rows: &[
            Begins(0, OWNER, 1),
            Begins(1, OWNER, 2),
            Turns(&[1, 2, 1, 2]),
            Happens(Typed(1, CTRL_C), Done),
            Job(2, 0o143, Some(Stop::Typed), Wait::Queue(0, 1)),
            Happens(Continue(2), Done),
            Job(2, 0o143, None, Wait::Queue(0, 1)),
            Happens(Typed(1, CTRL_C), Done),
            // A start takes the request back.
            Happens(Start(2), Done),
            Job(2, 0o140, None, Wait::None),
            Locks(&[(1, Blocking, 7, true)]),
            // What a stopped job owns it keeps.
            Happens(Typed(0, CTRL_C), Done),
            Happens(Start(1), Done),
            Locks(&[(1, Blocking, 7, true)]),
        ],
    },
    Table {
        name: "enq_by_xct",
        blocks: 64,
        quantum: 1,
        rows: &[
            Begins(0, BY_XCT, 1),
            Turns(&[1, 1]),
            // Two past the XCT.
            Job(1, 0o143, None, Wait::None),
            Locks(&[(1, AtOnce, 7, true)]),
            // Another's request is refused with code 1, and skips nothing.
            Begins(1, BY_XCT, 2),
            Turns(&[2, 1, 2]),
            Job(2, 0o142, None, Wait::None),
            Word(2, 1, Some(1)),
            Locks(&[(1, AtOnce, 7, true)]),
        ],
    },
];

#[test]
fn tables_hold(rt: HostRuntime) {
    walk_all(&rt, rt.alloc(), &TABLES);
}
