//! Blocks as words, and what a call reads in them.

use crate::block_job::Fact::{Id, InGroup, Limit, Locks, NameOf, Refused, Share, Terms};
use crate::block_job::{Fact, Halves};
use crate::block_rows::Row::{
    Ends, First, Group, Heads, Limited, Pointer, Pool, Stored, Text, Words,
};
use crate::block_rows::{BLOCK, CODE, NAME, NO_POOL, PLAIN, Row, Table, walk, walk_all};
use lock_queue::BlockUse::{Blocking, Full};
use lock_queue::{Refusal, Scope};

const BLOCK_REFUSED: Option<Refusal> = Some(Refusal::BadBlock);

const COUNT_REFUSED: Option<Refusal> = Some(Refusal::BadCount);

const POINTER_REFUSED: Option<Refusal> = Some(Refusal::BadPointer);

const NAME_REFUSED: Option<Refusal> = Some(Refusal::BadName);

const QUALIFIER_REFUSED: Option<Refusal> = Some(Refusal::BadQualifier);

const POOL_REFUSED: Option<Refusal> = Some(Refusal::BadPool);

/// The block of one lock whose name, X, stands at 153 octal.
static A_BLOCK_IS_READ: [Row; 1] = [Stored(
    &[
        (
            0o145,
            &[(1, 5), (0, 7), (0, 0o777_777), (0o440_700, 0o153), (0, 0)],
        ),
        (0o153, &[(0o540_000, 0)]),
    ],
    0o145,
    &[
        (Full, Id(7)),
        (Full, Locks(1)),
        (Full, Fact::Text("X")),
        (Full, NameOf(Scope::All)),
        (Full, Terms(false, false, 0)),
        (Full, Share(None)),
    ],
)];

#[test]
fn a_block_is_read(rt: HostRuntime) {
    walk(&rt, rt.alloc(), &A_BLOCK_IS_READ);
}

/// A name of thirty characters.
const THIRTY: &str = "ABCDEFGHIJKLMNOPQRSTUVWXYZ0123";

/// The rows of `groups`.
static GROUPS: [Row; 10] = [
    Group(true, (0, 0), InGroup(0)),
    Group(true, (0, 1), InGroup(1)),
    Group(true, (0, 0o777_777), InGroup(0o777_777)),
    Group(true, (1, 0), Refused(POOL_REFUSED)),
    Group(true, (1, 1), Refused(POOL_REFUSED)),
    Group(true, (0o777_777, 0o777_777), Refused(POOL_REFUSED)),
    Group(false, (0, 0), InGroup(0)),
    Group(false, (0, 1), Refused(POOL_REFUSED)),
    Group(false, (0, 0o777_777), Refused(POOL_REFUSED)),
    Group(false, (5, 2), InGroup(0)),
];

#[test]
fn groups(rt: HostRuntime) {
    walk(&rt, rt.alloc(), &GROUPS);
}

/// Limits, and one that is looked at before the number of locks.
static LIMITS: [Row; 6] = [
    Limited(0),
    Limited(1),
    Limited(5),
    Limited(0o400_000),
    Limited(0o777_777),
    Stored(
        &[(BLOCK, &[(17, 53), (1, 7)])],
        BLOCK,
        &[
            (Blocking, Refused(COUNT_REFUSED)),
            (Full, Refused(BLOCK_REFUSED)),
        ],
    ),
];

#[test]
fn limits(rt: HostRuntime) {
    walk(&rt, rt.alloc(), &LIMITS);
}

/// What is no qualifier, no pointer, an empty name, and no pool.
const NO_QUALIFIER: Halves = (0, 0o777_775);

const NO_POINTER: Halves = (0, 0);

const EMPTY: Halves = (0o440_700, NAME);

const OF_NONE: Halves = (0, 1);

/// The tables that are walked on a new job each.
static TABLES: [Table; 8] = [
    // No core, a block of core, and all 256 blocks, where a block of words goes on in the registers.
    Table {
        name: "blocks_at_the_ends_of_memory",
        rows: &[
            Ends(0, 0o13, None),
            Ends(0, 0o14, BLOCK_REFUSED),
            Ends(0o2000, 0o1773, None),
            Ends(0o2000, 0o1774, BLOCK_REFUSED),
            Ends(0o1_000_000, 0o777_773, None),
            Ends(0o1_000_000, 0o777_774, BLOCK_REFUSED),
            Ends(0o1_000_000, 0o13, None),
            Ends(0o1_000_000, 0o15, None),
        ],
    },
    Table {
        name: "names_by_length",
        rows: &[
            Text(NAME, "", NAME_REFUSED),
            Text(NAME, "A", None),
            Text(NAME, "tape.1", None),
            Text(NAME, THIRTY, None),
            Text(NAME, "ABCDEFGHIJKLMNOPQRSTUVWXYZ01234", NAME_REFUSED),
        ],
    },
    Table {
        name: "names_at_the_end_of_core",
        rows: &[
            Text(0o1777, "ABCD", None),
            Text(0o1777, "ABCDE", POINTER_REFUSED),
            Text(0o1772, THIRTY, POINTER_REFUSED),
            Text(0o1771, THIRTY, None),
            Text(0o1771, "ABCDEFGHIJKLMNOPQRSTUVWXYZ012345678", NAME_REFUSED),
            Text(0o2000, "", POINTER_REFUSED),
        ],
    },
    // The position, the size, the bits beside I and X, and the address; a `bit` is octal 101 at an odd
    // position, and the address behind 777777 is register 0.
    Table {
        name: "pointers_of_names",
        rows: &[
            Pointer((0o440_700, NAME), Fact::Text("X")),
            Pointer((0o440_740, NAME), Fact::Text("X")),
            Pointer((0o010_700, NAME - 1), Fact::Text("X")),
            Pointer((0o060_700, NAME - 1), Fact::Text("X")),
            Pointer((0o430_700, NAME + 1), Fact::Text("A")),
            Pointer((0o010_700, 0o777_777), Fact::Text("Z")),
            Pointer((0o450_700, NAME), Refused(POINTER_REFUSED)),
            Pointer((0o440_720, NAME), Refused(POINTER_REFUSED)),
            Pointer((0o440_701, NAME), Refused(POINTER_REFUSED)),
            Pointer((0o440_710, NAME), Refused(POINTER_REFUSED)),
            Pointer((0o440_600, NAME), Refused(POINTER_REFUSED)),
            Pointer((0o441_000, NAME), Refused(POINTER_REFUSED)),
            Pointer((0, NAME), Refused(POINTER_REFUSED)),
        ],
    },
    Table {
        name: "words_of_a_lock",
        rows: &[
            Words(0o400_000, true, false, 0),
            Words(0o200_000, false, true, 0),
            Words(0o000_001, false, false, 1),
            Words(0o000_777, false, false, 511),
            Words(0o177_000, false, false, 0),
            Words(0o777_777, true, true, 511),
        ],
    },
    // The size of a pool, and how much of it is wanted.
    Table {
        name: "pools",
        rows: &[
            Pool(false, (0, 0), None),
            Pool(true, (0, 0), None),
            Pool(false, (5, 2), None),
            Pool(false, (5, 5), None),
            Pool(false, (5, 6), POOL_REFUSED),
            Pool(false, (5, 0), POOL_REFUSED),
            Pool(false, (0, 1), POOL_REFUSED),
            Pool(true, (5, 2), POOL_REFUSED),
        ],
    },
    Table {
        name: "numbers_of_locks",
        rows: &[
            Heads(BLOCK, (1, 5), (0, 7), None),
            Heads(BLOCK, (16, 50), (0, 7), None),
            Heads(BLOCK, (17, 53), (0, 7), COUNT_REFUSED),
            Heads(BLOCK, (0, 2), (0, 7), COUNT_REFUSED),
            Heads(BLOCK, (1, 6), (0, 7), BLOCK_REFUSED),
            Heads(BLOCK, (1, 5), (1, 7), BLOCK_REFUSED),
            Heads(BLOCK, (0, 2), (1, 7), BLOCK_REFUSED),
            Heads(BLOCK, (17, 53), (1, 7), BLOCK_REFUSED),
            Heads(BLOCK, (0, 0), (0, 7), BLOCK_REFUSED),
            Heads(BLOCK, (0o777_777, 0o777_777), (0, 7), BLOCK_REFUSED),
            Heads(0o1714, (17, 53), (0, 7), BLOCK_REFUSED),
            Heads(0o1713, (17, 53), (0, 7), COUNT_REFUSED),
            Heads(0o1776, (0, 2), (0, 7), COUNT_REFUSED),
            Heads(0o1777, (0, 2), (0, 7), BLOCK_REFUSED),
        ],
    },
    Table {
        name: "the_first_refusal_is_given",
        rows: &[
            First([PLAIN, CODE, NO_POOL], None),
            First([PLAIN, CODE, OF_NONE], POOL_REFUSED),
            First([NO_QUALIFIER, CODE, NO_POOL], QUALIFIER_REFUSED),
            First([NO_QUALIFIER, CODE, OF_NONE], QUALIFIER_REFUSED),
            First([PLAIN, NO_POINTER, NO_POOL], POINTER_REFUSED),
            First([PLAIN, NO_POINTER, OF_NONE], POINTER_REFUSED),
            First([NO_QUALIFIER, NO_POINTER, NO_POOL], POINTER_REFUSED),
            First([NO_QUALIFIER, NO_POINTER, OF_NONE], POINTER_REFUSED),
            First([PLAIN, EMPTY, NO_POOL], NAME_REFUSED),
            First([PLAIN, EMPTY, OF_NONE], NAME_REFUSED),
            First([NO_QUALIFIER, EMPTY, NO_POOL], NAME_REFUSED),
            First([NO_QUALIFIER, EMPTY, OF_NONE], NAME_REFUSED),
        ],
    },
];

#[test]
fn tables_hold(rt: HostRuntime) {
    walk_all(&rt, rt.alloc(), &TABLES);
}
