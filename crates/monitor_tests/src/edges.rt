//! The ends of core, of chains of addresses and of what a call may name.

use crate::rows::Act::{Kill, Start, Step};
use crate::rows::Reply::{Done, Ran};
use crate::rows::Row::{Begins, Happens, Job, LoadsChain, Locks, Steps, Word};
use crate::rows::{Table, walk, walk_all};
use job_sched::{Stop, Wait};
use ka_state::StopReason::{AddressChain, IllegalAddress};
use lock_queue::EnqueueKind::AtOnce;

const ILLEGAL: Option<Stop> = Some(Stop::Fault(IllegalAddress));

/// A block of one lock that ends at the last word of 256 blocks.
const LAST_BLOCK: &str =
    " MOVE 1,[1,,777773]\n ENQ. 1,\n JRST .\n JRST .\n LOC 777773\n 1,,5\n 0,,7\n 777777\n 500000,,12\n 0\n\
    LOC 150\n END\n";

/// A block of one lock that begins one word later, so that its last word is not in core.
const PAST_BLOCK: &str =
    " MOVE 1,[1,,777774]\n ENQ. 1,\n JRST .\n JRST .\n LOC 777774\n 1,,5\n 0,,7\n 777777\n 500000,,12\n\
    LOC 150\n END\n";

/// A block from 13 to 17 octal.
const LOW_BLOCK: &str =
    " LOC 13\n 1,,5\n 0,,7\n 777777\n 500000,,12\n 0\n LOC 140\n MOVE 1,[1,,13]\n ENQ. 1,\n JRST .\n JRST .\n END\n";

/// A block from 15 to 21 octal.
const HIGH_BLOCK: &str =
    " LOC 15\n 1,,5\n 0,,10\n 777777\n LOC 20\n 500000,,13\n 0\n LOC 140\n MOVE 1,[1,,15]\n ENQ. 1,\n JRST .\n \
    JRST .\n END\n";

/// ENQC. of a lock, whose answer goes to where its block begins.
const OVER_ITSELF: &str =
    " MOVEI 1,300\n MOVEI 2,300\n ENQC. 1,\n JRST .\n JRST .\n LOC 300\n 1,,5\n 0,,7\n 777777\n 500000,,12\n 0\n END\n";

/// A chain of as many words as there may be.
static LONGEST_CHAIN: Table = Table {
    name: "longest_chain",
    blocks: 64,
    quantum: 1,
    rows: &[
        LoadsChain(256),
        Happens(Start(1), Done),
        Happens(Step, Ran(1)),
        Job(1, 0o141, None, Wait::None),
        Word(1, 1, Some(0o123)),
    ],
};

/// A chain of a word more.
static LONGER_CHAIN: Table = Table {
    name: "longer_chain",
    blocks: 64,
    quantum: 1,
    rows: &[
        LoadsChain(257),
        Happens(Start(1), Done),
        Happens(Step, Ran(1)),
        Job(1, 0o140, Some(Stop::Fault(AddressChain)), Wait::None),
        Word(1, 1, Some(0)),
    ],
};

#[test]
fn indirect_words(rt: HostRuntime) {
    walk(&rt, rt.alloc(), &LONGEST_CHAIN);
    walk(&rt, rt.alloc(), &LONGER_CHAIN);
}

/// IDPB at the last byte of the one block.
const BYTE_PAST: &str = " MOVEI 1,5\n IDPB 1,150\n JRST .\n LOC 150\n 010700,,1777\n END\n";

/// BLT whose last word is past the one block.
const WORDS_PAST: &str =
    " MOVE 1,[100,,1776]\n BLT 1,2000\n JRST .\n LOC 100\n 1\n 2\n 3\n LOC 150\n END\n";

/// The tables that are walked on a new machine each.
static TABLES: [Table; 4] = [
    Table {
        name: "a_block_at_the_end_of_core",
        blocks: 256,
        quantum: 1,
        rows: &[
            Begins(0, LAST_BLOCK, 1),
            Word(1, 0o44, Some(0o777777)),
            Steps(2, 2),
            Job(1, 0o143, None, Wait::None),
            Locks(&[(1, AtOnce, 7, true)]),
            Happens(Kill(1), Done),
            Begins(0, PAST_BLOCK, 1),
            Steps(2, 2),
            Job(1, 0o142, None, Wait::None),
            Word(1, 1, Some(3)),
            Locks(&[]),
        ],
    },
    // From 13 to 17 octal, and from 15 to 21.
    Table {
        name: "a_block_in_the_registers",
        blocks: 64,
        quantum: 1,
        rows: &[
            Begins(0, LOW_BLOCK, 1),
            Steps(2, 2),
            Job(1, 0o143, None, Wait::None),
            Happens(Kill(1), Done),
            Begins(0, HIGH_BLOCK, 1),
            Steps(2, 2),
            Job(1, 0o143, None, Wait::None),
            Locks(&[(1, AtOnce, 0o10, true)]),
        ],
    },
    // ENQC. of a lock that nobody asked for: three words of zero, where its block began.
    Table {
        name: "an_answer_over_its_own_block",
        blocks: 64,
        quantum: 1,
        rows: &[
            Begins(0, OVER_ITSELF, 1),
            Steps(3, 3),
            Job(1, 0o144, None, Wait::None),
            Word(1, 0o300, Some(0)),
            Word(1, 0o301, Some(0)),
            Word(1, 0o302, Some(0)),
            Word(1, 0o303, Some(0o500000_000012)),
        ],
    },
    // IDPB at the last byte of the one block, and BLT whose last word is past it.
    Table {
        name: "stores_past_core",
        blocks: 64,
        quantum: 1,
        rows: &[
            Begins(0, BYTE_PAST, 1),
            Steps(3, 2),
            Job(1, 0o141, ILLEGAL, Wait::None),
            Word(1, 0o150, Some(0o010700_001777)),
            Word(1, 0o1777, Some(0)),
            Begins(1, WORDS_PAST, 2),
            Steps(3, 2),
            Job(2, 0o141, ILLEGAL, Wait::None),
            Word(2, 1, Some(0o100_001776)),
            Word(2, 0o1776, Some(0)),
            Word(2, 0o1777, Some(0)),
        ],
    },
];

#[test]
fn tables_hold(rt: HostRuntime) {
    walk_all(&rt, rt.alloc(), &TABLES);
}
