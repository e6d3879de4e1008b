//! How many requests a job may have, and how many the machine holds.

use crate::rows::Act::{Kill, Restart, Start, Typed};
use crate::rows::Reply::Done;
use crate::rows::Row::{Begins, Fills, Happens, Job, Locks, Requests, Steps, Word};
use crate::rows::{CTRL_C, Table, walk, walk_with};
use job_sched::Wait;
use lock_queue::EnqueueKind::AtOnce;

/// Has 64 requests that bypass the order of levels, and asks once more, by AC 1. ENQC. 1 of itself by AC 3,
/// and again, behind a RESET, by AC 4.
const ASKER: &str =
    " MOVEI 5,^D64\nL: MOVE 1,[1,,BLK]\n ENQ. 1,\n HALT\n AOS BLK+1\n AOS BLK+3\n SOJG 5,L\n \
    MOVE 1,[1,,BLK]\n ENQ. 1,\n JFCL\n MOVSI 3,1\n ENQC. 3,\n HALT\n RESET\n MOVSI 4,1\n ENQC. 4,\n HALT\n \
    INCHRW 7\nBLK: 1,,5\n 0,,1\n 200000,,777777\n 500000,,1\n 0\n END\n";

/// ENQC. 1 of itself by AC 1. It lowers its quota to five by ENQC. 2, and asks for it, behind a RESET, by AC 3.
const LOWERER: &str =
    " MOVSI 1,1\n ENQC. 1,\n HALT\n MOVE 2,[2,,5]\n ENQC. 2,\n HALT\n RESET\n MOVSI 3,1\n ENQC. 3,\n HALT\n \
    INCHRW 7\n END\n";

/// The rows of `quotas`.
static QUOTAS: Table = Table {
    name: "quotas",
    blocks: 64,
    quantum: 1,
    rows: &[
        Begins(0, ASKER, 1),
        Steps(324, 324),
        Word(1, 1, Some(0o000000_000020)),
        Requests(64),
        Steps(2, 2),
        Word(1, 3, Some(0o000100_000100)),
        Steps(3, 3),
        Word(1, 4, Some(0o000100_000000)),
        Locks(&[]),
        Happens(Kill(1), Done),
        Begins(0, LOWERER, 1),
        Steps(7, 7),
        Word(1, 1, Some(0o000100_000000)),
        Word(1, 2, Some(0o000002_000005)),
        Word(1, 3, Some(0o000005_000000)),
        // A start keeps it, and a new job has the first quota.
        Happens(Typed(0, CTRL_C), Done),
        Happens(Start(1), Done),
        Steps(2, 2),
        Word(1, 1, Some(0o000005_000000)),
        Happens(Kill(1), Done),
        Begins(0, LOWERER, 1),
        Steps(5, 5),
        Word(1, 1, Some(0o000100_000000)),
        Happens(Restart, Done),
        Begins(0, LOWERER, 1),
        Steps(2, 2),
        Word(1, 1, Some(0o000100_000000)),
    ],
};

#[test]
fn quotas(rt: HostRuntime) {
    walk(&rt, rt.alloc(), &QUOTAS);
}

/// Asks for one lock by AC 1, and then for another by AC 2, and by ENQ. 0 by AC 3. ENQC. 1 of itself by AC 4.
const TWO_LOCKS: &str =
    " MOVE 1,[1,,ONE]\n ENQ. 1,\n JFCL\n MOVE 2,[1,,TWO]\n ENQ. 2,\n JFCL\n MOVEI 3,TWO\n ENQ. 3,\n JFCL\n \
    MOVSI 4,1\n ENQC. 4,\n HALT\n INCHRW 7\n\
    ONE: 1,,5\n 0,,7\n 200000,,777777\n 500000,,1\n 0\n\
    TWO: 1,,5\n 0,,10\n 200000,,777777\n 500000,,2\n 0\n END\n";

/// The quota of a job is no more than the machine holds, which is one request.
static LIMITS_TABLE: Table = Table {
    name: "limits_table",
    blocks: 64,
    quantum: 1,
    rows: &[
        Begins(0, TWO_LOCKS, 1),
        Steps(11, 11),
        Job(1, 0o154, None, Wait::Char),
        Word(1, 2, Some(0o20)),
        Word(1, 3, Some(0o20)),
        Word(1, 4, Some(0o000001_000001)),
        Begins(1, TWO_LOCKS, 2),
        Steps(12, 12),
        Job(2, 0o154, None, Wait::Char),
        Word(2, 1, Some(0o16)),
        Word(2, 2, Some(0o16)),
        Word(2, 3, Some(0o16)),
        Word(2, 4, Some(0o000001_000000)),
        Locks(&[(1, AtOnce, 7, true)]),
    ],
};

#[test]
fn limits_table(rt: HostRuntime) {
    walk_with::<1>(&rt, rt.alloc(), &LIMITS_TABLE);
}

/// Asks for 64 locks of its own, and waits for a character: at AC 6 where it has them, else at AC 7.
const FILLER: &str =
    " PJOB 6,\n LSH 6,^D9\n ADDM 6,BLK+3\n MOVEI 5,^D64\nL: MOVE 1,[1,,BLK]\n ENQ. 1,\n INCHRW 7\n \
    AOS BLK+1\n AOS BLK+3\n SOJG 5,L\n INCHRW 6\n\
    BLK: 1,,5\n 0,,1\n 200000,,777777\n 500000,,1\n 0\n END\n";

/// Sixteen jobs have all that the largest table holds; the request of the next is refused.
static FULL_TABLE: Table = Table {
    name: "full_table",
    blocks: 64,
    quantum: 1,
    rows: &[
        Fills(16, FILLER, 325, 0o152, 64),
        Begins(16, FILLER, 17),
        Steps(7, 7),
        Job(17, 0o146, None, Wait::Char),
        Word(17, 1, Some(0o16)),
        Requests(1024),
    ],
};

#[test]
fn full_table(rt: HostRuntime) {
    walk(&rt, rt.alloc(), &FULL_TABLE);
}
