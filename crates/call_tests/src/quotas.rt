//! How many requests a job may have, and functions 1 and 2 of ENQC.

use crate::locks::{BLOCK, ENQ, ENQC, EXCLUSIVE, RESET};
use crate::machine::{NEXT, SKIPPED};
use crate::rows::Act::{Block, Comes, PutsAc};
use crate::rows::Row::{Asks, AsksBypassing, Does, Fills, Sees};
use crate::rows::Sight::{Requests, Word};
use crate::rows::{Row, Table, walk, walk_all};

/// Job 1 has 64 requests, which is its quota: the next ENQ. gives code 16, but behind the want of a vector,
/// and ENQC. 1 gives the quota, whatever is in AC+1.
static QUOTAS: [Row; 10] = [
    Fills(64),
    AsksBypassing(0o100, (NEXT, 0o20), 64),
    Asks(1, ENQ, 0o300, (NEXT, 0o20)),
    Asks(1, ENQ, 0o2_000300, (NEXT, 0o17)),
    Does(PutsAc(1, 2, 0o777777_777777)),
    Asks(1, ENQC, 0o1_000000, (SKIPPED, 0o100_000100)),
    Asks(1, ENQC, 0o1_000001, (SKIPPED, 0o100_000100)),
    Asks(1, RESET, 0, (NEXT, 0)),
    Asks(1, ENQC, 0o1_000000, (SKIPPED, 0o100_000000)),
    AsksBypassing(0o100, (SKIPPED, 0o1_000300), 1),
];

#[test]
fn quotas(rt: HostRuntime) {
    walk(&rt, rt.alloc(), &QUOTAS);
}

/// The tables that are walked on a new machine each.
static TABLES: [Table; 2] = [
    // ENQC. 1 of another job counts its requests that wait too; a job that is not there has no quota.
    Table {
        name: "quotas_of_others",
        rows: &[
            Does(Comes(2, 1)),
            Does(Block(1, BLOCK, 1, &[EXCLUSIVE])),
            Does(Block(2, BLOCK, 2, &[EXCLUSIVE])),
            Asks(1, ENQC, 0o1_000002, (SKIPPED, 0o100_000000)),
            Asks(1, ENQ, 0o300, (SKIPPED, 0o300)),
            Asks(2, ENQ, 0o300, (SKIPPED, 0o300)),
            Asks(1, ENQC, 0o1_000002, (SKIPPED, 0o100_000001)),
            Asks(2, ENQC, 0o1_000001, (SKIPPED, 0o100_000001)),
            Asks(1, ENQC, 0o1_000003, (NEXT, 0o22)),
            Asks(1, ENQC, 0o1_000100, (NEXT, 0o22)),
            Asks(1, ENQC, 0o1_000401, (NEXT, 0o22)),
            Asks(1, ENQC, 0o1_777777, (NEXT, 0o22)),
            Sees(Requests(2)),
        ],
    },
    // ENQC. 2 lowers the quota of its job, keeps it where it is equal, and never makes it greater; RESET keeps
    // it, and nothing is stored.
    Table {
        name: "quotas_go_down",
        rows: &[
            Does(Comes(2, 1)),
            Asks(1, ENQC, 0o2_000101, (NEXT, 0o22)),
            Asks(1, ENQC, 0o2_000100, (SKIPPED, 0o2_000100)),
            Asks(1, ENQC, 0o2_000002, (SKIPPED, 0o2_000002)),
            Asks(1, ENQC, 0o2_000003, (NEXT, 0o22)),
            Asks(1, ENQC, 0o2_777777, (NEXT, 0o22)),
            Asks(1, ENQC, 0o1_000000, (SKIPPED, 0o2_000000)),
            Asks(2, ENQC, 0o1_000000, (SKIPPED, 0o100_000000)),
            AsksBypassing(1, (SKIPPED, 0o1_000300), 1),
            AsksBypassing(2, (SKIPPED, 0o1_000300), 2),
            AsksBypassing(3, (NEXT, 0o20), 2),
            // Below the requests that are present.
            Asks(1, ENQC, 0o2_000001, (SKIPPED, 0o2_000001)),
            Asks(1, ENQC, 0o1_000000, (SKIPPED, 0o1_000002)),
            Asks(1, RESET, 0, (NEXT, 0)),
            Asks(1, ENQC, 0o2_000000, (SKIPPED, 0o2_000000)),
            AsksBypassing(1, (NEXT, 0o20), 0),
            Asks(1, ENQC, 0o2_000000, (SKIPPED, 0o2_000000)),
            Asks(1, ENQC, 0o2_000001, (NEXT, 0o22)),
            Sees(Word(1, 0, Some(0))),
        ],
    },
];

#[test]
fn tables_hold(rt: HostRuntime) {
    walk_all(&rt, rt.alloc(), &TABLES);
}
