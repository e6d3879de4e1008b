//! Requests that wait for a limited time.

use crate::rows::Act::{Continue, Start, Step, Tick, Typed};
use crate::rows::Reply::{Done, Idle};
use crate::rows::Row::{Begins, Happens, Job, Locks, Repeats, Rounds, Steps, Turns, Word};
use crate::rows::{CTRL_C, Table, walk};
use job_sched::{Stop, Wait};
use lock_queue::EnqueueKind::{AtOnce, Blocking};

/// Owns the lock 12 by a request of id 1, and gives it up when a character is typed.
const OWNER: &str =
    " MOVE 1,[1,,BLK]\n ENQ. 1,\n HALT\n INCHRW 7\n MOVEI 1,BLK\n DEQ. 1,\n HALT\n INCHRW 7\n\
    BLK: 1,,5\n 0,,1\n 777777\n 500000,,12\n 0\n END\n";

/// Owns the same lock, shared, and asks what it has when a character is typed; the answer stands at 300 octal.
const SHARER: &str =
    " MOVE 1,[1,,BLK]\n ENQ. 1,\n HALT\n INCHRW 7\n MOVEI 1,BLK\n MOVEI 2,300\n ENQC. 1,\n HALT\n INCHRW 7\n\
    BLK: 1,,5\n 0,,1\n 400000,,777777\n 500000,,12\n 0\n END\n";

/// Owns the same lock, and loops at 143 octal.
const LOOPER: &str = " MOVE 1,[1,,BLK]\n ENQ. 1,\n HALT\n JRST .\n\
    BLK: 1,,5\n 0,,1\n 777777\n 500000,,12\n 0\n END\n";

/// ENQ. 0 of the same lock, alone, with a limit of five ticks: the ENQ. stands at 141 octal and the block at
/// 144. It waits for a character at 142 where the request is refused, at 143 where it is granted.
const FIVE_TICKS: &str = " MOVEI 1,BLK\n ENQ. 1,\n INCHRW 7\n INCHRW 6\n\
    BLK: 1,,5\n 5,,2\n 777777\n 500000,,12\n 0\n END\n";

/// ENQ. 0 of the owner's lock, alone, with a limit of three ticks; its addresses are those of `FIVE_TICKS`.
const THREE_TICKS: &str = " MOVEI 1,BLK\n ENQ. 1,\n INCHRW 7\n INCHRW 6\n\
    BLK: 1,,5\n 3,,2\n 777777\n 500000,,12\n 0\n END\n";

/// ENQ. 0 of the owner's lock, shared, with a limit of three ticks; its addresses are those of `FIVE_TICKS`.
const SHARED_THREE_TICKS: &str = " MOVEI 1,BLK\n ENQ. 1,\n INCHRW 7\n INCHRW 6\n\
    BLK: 1,,5\n 3,,3\n 400000,,777777\n 500000,,12\n 0\n END\n";

/// ENQ. 0 of the owner's lock, shared, with a limit of four ticks; its addresses are those of `FIVE_TICKS`.
const SHARED_FOUR_TICKS: &str = " MOVEI 1,BLK\n ENQ. 1,\n INCHRW 7\n INCHRW 6\n\
    BLK: 1,,5\n 4,,3\n 400000,,777777\n 500000,,12\n 0\n END\n";

/// Job 2 waits for the lock of job 1. At the fifth tick it goes on behind its ENQ. with code 17, and its
/// request is gone.
static AN_END: Table = Table {
    name: "an_end",
    blocks: 64,
    quantum: 1,
    rows: &[
        Begins(0, OWNER, 1),
        Steps(3, 3),
        Begins(1, FIVE_TICKS, 2),
        Steps(2, 2),
        Job(2, 0o143, None, Wait::Queue(5, 1)),
        Locks(&[(1, AtOnce, 1, true), (2, Blocking, 2, false)]),
        Repeats(4, Tick, Done),
        Job(2, 0o143, None, Wait::Queue(1, 1)),
        Word(2, 1, Some(0o144)),
        Locks(&[(1, AtOnce, 1, true), (2, Blocking, 2, false)]),
        Happens(Step, Idle),
        Happens(Tick, Done),
        Job(2, 0o142, None, Wait::None),
        Word(2, 1, Some(0o21)),
        Locks(&[(1, AtOnce, 1, true)]),
        Steps(2, 1),
        Job(2, 0o142, None, Wait::Char),
        // It asks again, and waits as long again.
        Happens(Typed(1, CTRL_C), Done),
        Happens(Start(2), Done),
        Steps(2, 2),
        Job(2, 0o143, None, Wait::Queue(5, 1)),
    ],
};

/// Job 2, alone, and job 3, shared, wait for the lock that job 1 shares. Both limits end at the third tick,
/// and both requests leave: job 3 does not get the lock by the leaving of job 2.
static TWO_ENDS: Table = Table {
    name: "two_ends",
    blocks: 64,
    quantum: 1,
    rows: &[
        Begins(0, SHARER, 1),
        Steps(3, 3),
        Begins(1, THREE_TICKS, 2),
        Steps(2, 2),
        Begins(2, SHARED_THREE_TICKS, 3),
        Steps(2, 2),
        Repeats(2, Tick, Done),
        Job(2, 0o143, None, Wait::Queue(1, 1)),
        Job(3, 0o143, None, Wait::Queue(1, 1)),
        Happens(Tick, Done),
        Job(2, 0o142, None, Wait::None),
        Word(2, 1, Some(0o21)),
        Job(3, 0o142, None, Wait::None),
        Word(3, 1, Some(0o21)),
        Locks(&[(1, AtOnce, 1, true)]),
        Steps(3, 2),
        Happens(Typed(0, b'A'), Done),
        Steps(4, 4),
        Job(1, 0o150, None, Wait::None),
        Word(1, 0o300, Some(0o200000_000001)),
        Word(1, 0o301, Some(0o000001_000000)),
        Word(1, 0o302, Some(0)),
    ],
};

/// As before, but job 3 waits for one tick more: at the third tick it gets the lock by the leaving of job 2,
/// and its limit counts no longer.
static AN_END_AND_A_GRANT: Table = Table {
    name: "an_end_and_a_grant",
    blocks: 64,
    quantum: 1,
    rows: &[
        Begins(0, SHARER, 1),
        Steps(3, 3),
        Begins(1, THREE_TICKS, 2),
        Steps(2, 2),
        Begins(2, SHARED_FOUR_TICKS, 3),
        Steps(2, 2),
        Repeats(2, Tick, Done),
        Job(2, 0o143, None, Wait::Queue(1, 1)),
        Job(3, 0o143, None, Wait::Queue(2, 1)),
        Happens(Tick, Done),
        Job(2, 0o142, None, Wait::None),
        Word(2, 1, Some(0o21)),
        Job(3, 0o143, None, Wait::None),
        Word(3, 1, Some(0o144)),
        Locks(&[(1, AtOnce, 1, true), (3, Blocking, 3, true)]),
        Repeats(2, Tick, Done),
        Job(3, 0o143, None, Wait::None),
        Word(3, 1, Some(0o144)),
        Locks(&[(1, AtOnce, 1, true), (3, Blocking, 3, true)]),
        Steps(3, 2),
        Job(2, 0o142, None, Wait::Char),
        Job(3, 0o143, None, Wait::Char),
    ],
};

/// The limit of a stopped job ends too, and the job stays stopped.
static AN_END_IN_A_STOP: Table = Table {
    name: "an_end_in_a_stop",
    blocks: 64,
    quantum: 1,
    rows: &[
        Begins(0, OWNER, 1),
        Steps(3, 3),
        Begins(1, FIVE_TICKS, 2),
        Steps(2, 2),
        Happens(Typed(1, CTRL_C), Done),
        Job(2, 0o143, Some(Stop::Typed), Wait::Queue(5, 1)),
        Rounds(4, 0),
        Job(2, 0o143, Some(Stop::Typed), Wait::Queue(1, 1)),
        Rounds(1, 0),
        Job(2, 0o142, Some(Stop::Typed), Wait::None),
        Word(2, 1, Some(0o21)),
        Locks(&[(1, AtOnce, 1, true)]),
        Happens(Step, Idle),
        Happens(Continue(2), Done),
        Steps(2, 1),
        Job(2, 0o142, None, Wait::Char),
    ],
};

/// A job that is stopped and goes on has what is left of its limit, which stands still from the grant on.
static A_LIMIT_THAT_STANDS_STILL: Table = Table {
    name: "a_limit_that_stands_still",
    blocks: 64,
    quantum: 1,
    rows: &[
        Begins(0, OWNER, 1),
        Steps(3, 3),
        Begins(1, FIVE_TICKS, 2),
        Steps(2, 2),
        Repeats(2, Tick, Done),
        Happens(Typed(1, CTRL_C), Done),
        Happens(Tick, Done),
        Happens(Continue(2), Done),
        Job(2, 0o143, None, Wait::Queue(2, 1)),
        Happens(Tick, Done),
        Job(2, 0o143, None, Wait::Queue(1, 1)),
        Happens(Typed(1, CTRL_C), Done),
        Happens(Typed(0, b'A'), Done),
        Steps(3, 3),
        Job(2, 0o143, Some(Stop::Typed), Wait::None),
        Repeats(9, Tick, Done),
        Job(2, 0o143, Some(Stop::Typed), Wait::None),
        Word(2, 1, Some(0o144)),
        Locks(&[(2, Blocking, 2, true)]),
        Happens(Continue(2), Done),
        Steps(3, 2),
        Job(2, 0o143, None, Wait::Char),
    ],
};

/// A start ends the wait, and so its limit.
static A_LIMIT_THAT_A_START_ENDS: Table = Table {
    name: "a_limit_that_a_start_ends",
    blocks: 64,
    quantum: 1,
    rows: &[
        Begins(0, OWNER, 1),
        Steps(3, 3),
        Begins(1, FIVE_TICKS, 2),
        Steps(2, 2),
        Repeats(2, Tick, Done),
        Happens(Typed(1, CTRL_C), Done),
        Happens(Start(2), Done),
        Job(2, 0o140, None, Wait::None),
        Locks(&[(1, AtOnce, 1, true)]),
        Repeats(9, Tick, Done),
        Job(2, 0o140, None, Wait::None),
        Word(2, 1, Some(0o144)),
        Locks(&[(1, AtOnce, 1, true)]),
    ],
};

/// A limit counts while another job runs in many rounds.
static AN_END_IN_ROUNDS: Table = Table {
    name: "an_end_in_rounds",
    blocks: 64,
    quantum: 1,
    rows: &[
        Begins(0, LOOPER, 1),
        Turns(&[1, 1]),
        Begins(1, FIVE_TICKS, 2),
        Turns(&[2, 1, 2]),
        Job(2, 0o143, None, Wait::Queue(4, 1)),
        Rounds(3, 3),
        Job(2, 0o143, None, Wait::Queue(1, 1)),
        Turns(&[1]),
        Job(2, 0o142, None, Wait::None),
        Word(2, 1, Some(0o21)),
        Locks(&[(1, AtOnce, 1, true)]),
        Turns(&[2, 1, 1]),
        Job(2, 0o142, None, Wait::Char),
        // The end comes in the middle of the rounds.
        Happens(Typed(1, CTRL_C), Done),
        Happens(Start(2), Done),
        Turns(&[2, 1, 2]),
        Rounds(9, 9),
        Job(2, 0o142, None, Wait::Char),
        Word(2, 1, Some(0o21)),
        Locks(&[(1, AtOnce, 1, true)]),
    ],
};

#[test]
fn limits(rt: HostRuntime) {
    walk(&rt, rt.alloc(), &AN_END);
    walk(&rt, rt.alloc(), &TWO_ENDS);
    walk(&rt, rt.alloc(), &AN_END_AND_A_GRANT);
    walk(&rt, rt.alloc(), &AN_END_IN_A_STOP);
    walk(&rt, rt.alloc(), &A_LIMIT_THAT_STANDS_STILL);
    walk(&rt, rt.alloc(), &A_LIMIT_THAT_A_START_ENDS);
    walk(&rt, rt.alloc(), &AN_END_IN_ROUNDS);
}
