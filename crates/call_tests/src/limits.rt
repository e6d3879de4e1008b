//! Limits of time: what an ENQ. keeps of its block's limit, and how the limit ends.

use crate::locks::{BLOCK, DEQ, ENQ, ENQC, EXCLUSIVE, SHARED};
use crate::machine::{NEXT, SKIPPED};
use crate::rows::Act::{Block, Comes, PutsAc, Tick};
use crate::rows::Row::{Asks, Calls, Does, Sees};
use crate::rows::Sight::{Ac, Granted, IsReady, Pc, Requests, WaitsFor, Word};
use crate::rows::{Row, Table, walk, walk_all};
use job_sched::Wait;
use uuo_calls::CallOutcome::Done;

const PIINI: u32 = 0o135;

/// The wait of an ENQ. 0 keeps the limit of its block and its AC field. Job 2 waits for 5 ticks: at the fifth
/// it goes on behind the call with code 17, and its request leaves; job 3 waits as long as its limit says,
/// the longest of all.
static LIMITS: [Row; 29] = [
    Does(Comes(2, 1)),
    Does(Comes(3, 2)),
    // A request that is granted at once has a limit in vain.
    Does(Block(1, BLOCK, 0o5_000001, &[EXCLUSIVE])),
    Asks(1, ENQ, 0o300, (SKIPPED, 0o300)),
    Sees(WaitsFor(1, Wait::None)),
    Does(Block(2, BLOCK, 0o5_000002, &[EXCLUSIVE])),
    Asks(2, ENQ, 0o300, (SKIPPED, 0o300)),
    Sees(WaitsFor(2, Wait::Queue(5, 1))),
    Does(Block(3, BLOCK, 0o777777_000003, &[EXCLUSIVE])),
    Does(PutsAc(3, 0o17, 0o300)),
    Calls(3, 0o17, ENQ, (Done, SKIPPED)),
    Sees(WaitsFor(3, Wait::Queue(0o777777, 0o17))),
    Does(Tick),
    Does(Tick),
    Does(Tick),
    Does(Tick),
    Sees(WaitsFor(2, Wait::Queue(1, 1))),
    Sees(Pc(2, SKIPPED)),
    Sees(Requests(3)),
    Does(Tick),
    Sees(WaitsFor(2, Wait::None)),
    Sees(Pc(2, NEXT)),
    Sees(Ac(2, 1, 0o21)),
    Sees(IsReady(2, true)),
    Sees(Requests(2)),
    Sees(WaitsFor(3, Wait::Queue(0o777772, 0o17))),
    Sees(IsReady(3, false)),
    Sees(Pc(1, SKIPPED)),
    Sees(Ac(1, 1, 0o300)),
];

#[test]
fn limits(rt: HostRuntime) {
    walk(&rt, rt.alloc(), &LIMITS);
}

/// The tables that are walked on a new machine each.
static TABLES: [Table; 3] = [
    // Only the block of an ENQ. 0 may have a limit.
    Table {
        name: "limits_of_other_calls",
        rows: &[
            Does(Block(1, BLOCK, 0o1_000001, &[EXCLUSIVE])),
            Asks(1, PIINI, 0o200, (SKIPPED, 0o200)),
            Asks(1, ENQ, 0o1_000300, (NEXT, 3)),
            Asks(1, ENQ, 0o2_000300, (NEXT, 3)),
            Asks(1, ENQ, 0o3_000300, (NEXT, 3)),
            Asks(1, DEQ, 0o300, (NEXT, 3)),
            Asks(1, ENQC, 0o300, (NEXT, 3)),
            Sees(Requests(0)),
            Asks(1, ENQ, 0o300, (SKIPPED, 0o300)),
            Sees(Requests(1)),
        ],
    },
    // Job 1 has a lock that it shares; jobs 2, alone, and 3, shared, ask for it. Both limits end at the third
    // tick, and both leave, judged by the list before: job 3 does not get the lock from job 2's leaving.
    Table {
        name: "limits_that_end_together",
        rows: &[
            Does(Comes(2, 1)),
            Does(Comes(3, 2)),
            Does(Block(1, BLOCK, 1, &[SHARED])),
            Asks(1, ENQ, 0o300, (SKIPPED, 0o300)),
            Does(Block(2, BLOCK, 0o3_000002, &[EXCLUSIVE])),
            Asks(2, ENQ, 0o300, (SKIPPED, 0o300)),
            Does(Block(3, BLOCK, 0o3_000003, &[SHARED])),
            Asks(3, ENQ, 0o300, (SKIPPED, 0o300)),
            Does(Tick),
            Does(Tick),
            Sees(Requests(3)),
            Does(Tick),
            Sees(Ac(2, 1, 0o21)),
            Sees(Ac(3, 1, 0o21)),
            Sees(Pc(3, NEXT)),
            Does(PutsAc(1, 2, 0o400)),
            Asks(1, ENQC, 0o300, (SKIPPED, 0o300)),
            Sees(Word(1, 0o400, Some(0o200000_000001))),
            Sees(Word(1, 0o401, Some(0o1_000000))),
            Sees(Word(1, 0o402, Some(0))),
        ],
    },
    // As before, but job 3 has one tick more: it gets the lock when job 2 leaves, and its limit counts no more.
    Table {
        name: "limits_that_end_apart",
        rows: &[
            Does(Comes(2, 1)),
            Does(Comes(3, 2)),
            Does(Block(1, BLOCK, 1, &[SHARED])),
            Asks(1, ENQ, 0o300, (SKIPPED, 0o300)),
            Does(Block(2, BLOCK, 0o3_000002, &[EXCLUSIVE])),
            Asks(2, ENQ, 0o300, (SKIPPED, 0o300)),
            Does(Block(3, BLOCK, 0o4_000003, &[SHARED])),
            Asks(3, ENQ, 0o300, (SKIPPED, 0o300)),
            Does(Tick),
            Does(Tick),
            Does(Tick),
            Sees(Ac(2, 1, 0o21)),
            Sees(Requests(2)),
            Sees(Granted(1, true)),
            Sees(IsReady(3, true)),
            Does(Tick),
            Sees(Requests(2)),
            Sees(Pc(3, SKIPPED)),
            Sees(Ac(3, 1, 0o300)),
        ],
    },
];

#[test]
fn tables_hold(rt: HostRuntime) {
    walk_all(&rt, rt.alloc(), &TABLES);
}
