//! ENQ., DEQ. and ENQC.: each function, and each refusal.

use crate::machine::{NEXT, SKIPPED};
use crate::rows::Act::{Block, Comes, HasQuota, PutsAc, Stores};
use crate::rows::Row::{Asks, AsksBypassing, AsksFor, Calls, Does, Fills, LockCalls, Sees};
use crate::rows::Sight::{Granted, IsReady, IsThere, Requests, WaitsFor, Word};
use crate::rows::{Lock, Row, Table, walk, walk_all};
use job_sched::Wait;
use uuo_calls::CallOutcome::{Done, Gone};
use word36::MOST_REQUESTS;

pub const ENQ: u32 = 0o151;

pub const DEQ: u32 = 0o152;

pub const ENQC: u32 = 0o153;

pub const RESET: u32 = 0;

const LOGOUT: u32 = 0o17;

/// Where the blocks of most tests stand.
pub const BLOCK: usize = 0o300;

/// The first word of a lock: of all jobs and exclusive, at level 0.
const ALL: u64 = 0o777_777;

/// The second word of a lock: the user code 1.
const CODE: u64 = 0o500000_000001;

/// A lock by the user code 1, of all jobs and exclusive.
pub const EXCLUSIVE: Lock = [ALL, CODE, 0];

/// A lock by the user code 1, of all jobs and shared, of group 0.
pub const SHARED: Lock = [0o400000_777777, CODE, 0];

/// The code 1 at level 3.
const LEVEL_3: Lock = [0o3_777777, CODE, 0];

/// The code 2 at level 5.
const CODE_2_LEVEL_5: Lock = [0o5_777777, 0o500000_000002, 0];

/// The code 7 at two levels.
const CODE_7_TWICE: [Lock; 2] = [
    [0o6_777777, 0o500000_000007, 0],
    [0o7_777777, 0o500000_000007, 0],
];

/// The code 1 at level 3, and the code 2 at level 4.
const TWO_LEVELS: [Lock; 2] = [LEVEL_3, [0o4_777777, 0o500000_000002, 0]];

/// A word of five characters, of which none is a zero.
const TEXT: u64 = 0o406030_140602;

/// The most requests, as a quota.
const FULL: u16 = MOST_REQUESTS as u16;

/// The code 1, shared and of group 1.
const GROUP_1: Lock = [0o400000_777777, CODE, 1];

/// The code 1, shared and of group 2.
const GROUP_2: Lock = [0o400000_777777, CODE, 2];

/// Jobs share a lock where they are of one group, which ENQ. 3 does not change.
static GROUPS: [Row; 12] = [
    Does(Comes(2, 1)),
    AsksFor(GROUP_1, (SKIPPED, 0o1_000300), 1),
    Does(Block(2, BLOCK, 1, &[GROUP_2])),
    Asks(2, ENQ, 0o1_000300, (NEXT, 1)),
    Does(Block(2, BLOCK, 1, &[SHARED])),
    Asks(2, ENQ, 0o1_000300, (NEXT, 1)),
    Does(Block(1, BLOCK, 1, &[GROUP_2])),
    Asks(1, ENQ, 0o3_000300, (SKIPPED, 0o3_000300)),
    Does(Block(2, BLOCK, 1, &[GROUP_1])),
    Asks(2, ENQ, 0o1_000300, (SKIPPED, 0o1_000300)),
    Sees(Requests(2)),
    Sees(Granted(1, true)),
];

#[test]
fn groups(rt: HostRuntime) {
    walk(&rt, rt.alloc(), &GROUPS);
}

/// The tables that are walked on a new machine each.
static TABLES: [Table; 10] = [
    // A job of one block: at 1773 octal the block's five words are legal, at 1774 the last is not.
    Table {
        name: "block_at_the_end_of_core",
        rows: &[
            Does(Block(1, 0o1774, 1, &[EXCLUSIVE])),
            Asks(1, ENQ, 0o1_001774, (NEXT, 3)),
            Does(Block(1, 0o1773, 1, &[EXCLUSIVE])),
            Asks(1, ENQ, 0o1_001773, (SKIPPED, 0o1_001773)),
            Sees(Requests(1)),
        ],
    },
    // A block at 13 octal lies in the registers, and one at 15 octal runs into core at 20.
    Table {
        name: "block_in_registers",
        rows: &[
            Does(PutsAc(1, 0o13, 0o1_000005)),
            Does(PutsAc(1, 0o14, 3)),
            Does(PutsAc(1, 0o15, ALL)),
            Does(PutsAc(1, 0o16, CODE)),
            Does(PutsAc(1, 0o17, 0)),
            Asks(1, ENQ, 0o1_000013, (SKIPPED, 0o1_000013)),
            Does(PutsAc(1, 0o15, 0o1_000005)),
            Does(PutsAc(1, 0o16, 4)),
            Does(PutsAc(1, 0o17, ALL)),
            Does(Stores(1, 0o20, &[0o500000_000002, 0])),
            Asks(1, ENQ, 0o100_000015, (NEXT, 2)),
            Does(Block(1, BLOCK, 1, &[EXCLUSIVE])),
            Asks(1, DEQ, 0o300, (SKIPPED, 0o300)),
            Asks(1, ENQ, 0o1_000015, (SKIPPED, 0o1_000015)),
            Sees(Requests(1)),
        ],
    },
    // Functions that are not listed.
    Table {
        name: "code_2",
        rows: &[
            Does(Block(1, BLOCK, 1, &[EXCLUSIVE])),
            Asks(1, ENQ, 0o4_000300, (NEXT, 2)),
            Asks(1, ENQ, 0o777777_777777, (NEXT, 2)),
            Asks(1, DEQ, 0o3_000300, (NEXT, 2)),
            Asks(1, ENQC, 0o3_000300, (NEXT, 2)),
            Asks(1, ENQC, 0o777777_000000, (NEXT, 2)),
            Sees(Requests(0)),
        ],
    },
    // Blocks that each call refuses as such: for their length, their address, and for no lock and 17.
    Table {
        name: "codes_3_and_4",
        rows: &[
            Does(Stores(1, 0o400, &[0o1_000004, 1])),
            LockCalls(0o400, (NEXT, 3)),
            LockCalls(0o2000, (NEXT, 3)),
            LockCalls(0o777777, (NEXT, 3)),
            Does(Stores(1, 0o400, &[2, 1])),
            LockCalls(0o400, (NEXT, 4)),
            Does(Stores(1, 0o400, &[0o21_000065, 1])),
            LockCalls(0o400, (NEXT, 4)),
            Sees(Requests(0)),
        ],
    },
    // Locks that are refused by themselves: pointers, names, qualifiers and pools. Names stand at 400
    // octal (empty) and at 500 octal (31 characters).
    Table {
        name: "codes_5_to_8",
        rows: &[
            Does(Stores(1, 0o500, &[TEXT, TEXT, TEXT, TEXT, TEXT, TEXT, TEXT])),
            AsksFor([ALL, 0o440600_000500, 0], (NEXT, 5), 0),
            AsksFor([ALL, 0o450700_000500, 0], (NEXT, 5), 0),
            AsksFor([ALL, 0o440720_000500, 0], (NEXT, 5), 0),
            AsksFor([ALL, 0o440700_001777, 0], (NEXT, 6), 0),
            AsksFor([ALL, 0o440700_002000, 0], (NEXT, 5), 0),
            AsksFor([ALL, 0o440700_000400, 0], (NEXT, 6), 0),
            AsksFor([ALL, 0o440700_000500, 0], (NEXT, 6), 0),
            AsksFor([0o777_775, CODE, 0], (NEXT, 7), 0),
            AsksFor([0, CODE, 0], (NEXT, 7), 0),
            AsksFor([ALL, CODE, 1], (NEXT, 8), 0),
            AsksFor([ALL, CODE, 0o3_000000], (NEXT, 8), 0),
            AsksFor([ALL, CODE, 0o3_000004], (NEXT, 8), 0),
            AsksFor([0o400000_777777, CODE, 0o3_000001], (NEXT, 8), 0),
            AsksFor([ALL, 0o100700_000500, 0], (NEXT, 6), 0),
            AsksFor([ALL, CODE, 0o3_000003], (SKIPPED, 0o1_000300), 1),
        ],
    },
    // Locks that are refused for those that are present: another level or pool, a level that does not
    // rise, a key that is named twice.
    Table {
        name: "codes_9_to_12",
        rows: &[
            Does(Comes(2, 1)),
            Does(Block(2, BLOCK, 1, &[[0o5_777777, CODE, 0]])),
            Asks(2, ENQ, 0o1_000300, (SKIPPED, 0o1_000300)),
            AsksFor([0o4_777777, CODE, 0], (NEXT, 9), 1),
            AsksFor([0o5_777777, CODE, 0o3_000001], (NEXT, 9), 1),
            AsksFor(CODE_2_LEVEL_5, (SKIPPED, 0o1_000300), 2),
            AsksFor([0o5_777777, 0o500000_000003, 0], (NEXT, 10), 2),
            AsksFor(CODE_2_LEVEL_5, (NEXT, 11), 2),
            Does(Block(1, BLOCK, 1, &CODE_7_TWICE)),
            Asks(1, ENQ, 0o1_000300, (NEXT, 11)),
            Asks(1, DEQ, 0o300, (NEXT, 12)),
            Asks(1, ENQ, 0o3_000300, (NEXT, 12)),
            Asks(1, DEQ, 0o2_000002, (NEXT, 12)),
            Asks(1, DEQ, 0o2_000001, (SKIPPED, 0o2_000001)),
            Asks(1, DEQ, 0o1_000300, (NEXT, 12)),
            Sees(Requests(1)),
        ],
    },
    // A change that would take a grant away, and a request that is not granted at once.
    Table {
        name: "codes_13_and_1",
        rows: &[
            Does(Comes(2, 1)),
            Does(Block(1, BLOCK, 1, &[SHARED])),
            Asks(1, ENQ, 0o1_000300, (SKIPPED, 0o1_000300)),
            Does(Block(2, BLOCK, 2, &[SHARED])),
            Asks(2, ENQ, 0o1_000300, (SKIPPED, 0o1_000300)),
            Does(Block(1, 0o400, 0, &[EXCLUSIVE])),
            Asks(1, ENQ, 0o3_000400, (NEXT, 13)),
            Asks(2, DEQ, 0o300, (SKIPPED, 0o300)),
            Asks(1, ENQ, 0o3_000400, (SKIPPED, 0o3_000400)),
            Asks(2, ENQ, 0o1_000300, (NEXT, 1)),
            Sees(Requests(1)),
        ],
    },
    // A full queue takes no request more; a job that has as many as it may have is refused for its quota first.
    Table {
        name: "code_14",
        rows: &[
            Does(HasQuota(1, FULL + 1)),
            Fills(MOST_REQUESTS),
            AsksBypassing(0o10000, (NEXT, 14), MOST_REQUESTS),
            Does(HasQuota(1, FULL)),
            AsksBypassing(0o10000, (NEXT, 16), MOST_REQUESTS),
        ],
    },
    // ENQ. 0 sets the skip return at once, and the job waits with Queue until its request is granted. A
    // job that is gone leaves no request.
    Table {
        name: "blocking_request",
        rows: &[
            Does(Comes(2, 1)),
            Does(Comes(3, 2)),
            Does(Block(1, BLOCK, 1, &[SHARED])),
            Asks(1, ENQ, 0o300, (SKIPPED, 0o300)),
            Does(Block(2, BLOCK, 2, &[EXCLUSIVE])),
            Asks(2, ENQ, 0o300, (SKIPPED, 0o300)),
            Does(Block(3, BLOCK, 3, &[SHARED])),
            Asks(3, ENQ, 0o300, (SKIPPED, 0o300)),
            Sees(WaitsFor(1, Wait::None)),
            Sees(WaitsFor(2, Wait::Queue(0, 1))),
            Sees(WaitsFor(3, Wait::Queue(0, 1))),
            Sees(IsReady(3, false)),
            Calls(2, 0, LOGOUT, (Gone, 0)),
            Sees(IsThere(2, false)),
            Sees(Requests(2)),
            Sees(IsReady(3, true)),
            Sees(Granted(0, true)),
            Sees(Granted(1, true)),
            Asks(1, RESET, 0, (NEXT, 0)),
            Sees(Requests(1)),
        ],
    },
    // ENQC. of a key that job 1 has and one that nobody has; its answer may lie over AC and the block.
    Table {
        name: "status_words",
        rows: &[
            AsksFor(LEVEL_3, (SKIPPED, 0o1_000300), 1),
            Does(Block(1, BLOCK, 7, &TWO_LEVELS)),
            // The sixth word is at 2000.
            Does(PutsAc(1, 2, 0o1773)),
            Asks(1, ENQC, 0o300, (NEXT, 3)),
            Does(PutsAc(1, 2, 0o1772)),
            Asks(1, ENQC, 0o300, (SKIPPED, 0o300)),
            Sees(Word(1, 0o1772, Some(0o240003_000001))),
            Sees(Word(1, 0o1773, Some(0o1_000000))),
            Sees(Word(1, 0o1774, Some(0))),
            Sees(Word(1, 0o1775, Some(0))),
            Does(PutsAc(1, 1, 0o300)),
            Does(PutsAc(1, 2, 0o300)),
            Does(Block(1, BLOCK, 7, &[[ALL, 0o500000_000005, 0]])),
            Calls(1, 1, ENQC, (Done, SKIPPED)),
            Sees(Word(1, 0o300, Some(0))),
            Sees(Word(1, 0o301, Some(0))),
            Sees(Word(1, 0o302, Some(0))),
            Sees(Word(1, 0o303, Some(0o500000_000005))),
            Does(Block(1, BLOCK, 7, &[LEVEL_3])),
            Does(PutsAc(1, 2, 1)),
            Asks(1, ENQC, 0o300, (SKIPPED, 0o240003_000001)),
        ],
    },
];

#[test]
fn tables_hold(rt: HostRuntime) {
    walk_all(&rt, rt.alloc(), &TABLES);
}
