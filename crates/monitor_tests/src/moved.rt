//! Jobs whose core is moved, by another's LOGIN or CORE, and what new core holds.

use crate::store_rows::Act::{Kill, Restart, Typed};
use crate::store_rows::Reply::{Done, Refused};
use crate::store_rows::Row::{All, Begins, Happens, Job, LogsIn, Rounds, Turns, Word};
use crate::store_rows::{Table, walk};
use job_sched::Wait;
use monitor::RefusedEvent::NoCore;

/// A word of ones.
const ONES: u64 = 0o777777_777777;

/// A word that a program has at 1000 octal and leaves there.
const MARK: Option<u64> = Some(0o123456_654321);

/// Counts its rounds of three instructions at 300 octal, and adds the counts up at 1777.
const COUNTER: &str = "L: AOS 1,300\n ADDM 1,1777\n JRST L\n LOC 1000\n 123456,,654321\n END L\n";

/// Fills its core with ones from 200 octal on, by three instructions.
const FILLER: &str = " SETOM 200\n MOVE 1,[200,,201]\n BLT 1,1777\n JRST .\n END\n";

/// Two blocks with nothing but an instruction.
const LARGE: &str = " JRST .\n LOC 2000\n 0\n END\n";

/// The rows of `moved_core`.
static MOVED_CORE: Table = Table {
    name: "moved_core",
    blocks: 4,
    rows: &[
        Begins(0, COUNTER, 1),
        Begins(1, FILLER, 2),
        Begins(2, COUNTER, 3),
        Turns(&[1, 2, 3, 1, 2, 3, 1, 2, 3, 1, 2, 3]),
        All(2, 0o200, 0o2000, ONES),
        // Two blocks are free, one on each side of job 3, which is between AOS and ADDM.
        Happens(Kill(2), Done),
        LogsIn(1, " JRST .\n LOC 4000\n 0\n END\n", Refused(NoCore)),
        Begins(1, LARGE, 2),
        Job(3, 0o141, None, Wait::None),
        Word(3, 1, Some(2)),
        Word(3, 0o300, Some(2)),
        Word(3, 0o1777, Some(1)),
        Word(3, 0o1000, MARK),
        Word(3, 0o44, Some(0o1777)),
        Word(3, 0o2000, None),
        Word(1, 0o300, Some(2)),
        Word(1, 0o1777, Some(1)),
        Word(1, 0o1000, MARK),
        Word(2, 0o44, Some(0o3777)),
        Word(2, 0o140, Some(0o254000_000140)),
        All(2, 0, 0o44, 0),
        All(2, 0o45, 0o140, 0),
        All(2, 0o141, 0o4000, 0),
        Word(2, 0o4000, None),
        Turns(&[1, 2, 3]),
        Word(1, 0o1777, Some(3)),
        Word(3, 0o1777, Some(3)),
        All(2, 0o141, 0o4000, 0),
        // Ten rounds are ended: the counts up to 10 make 55.
        Rounds(75, 75),
        Word(1, 0o300, Some(10)),
        Word(1, 0o1777, Some(55)),
        Word(3, 0o300, Some(10)),
        Word(3, 0o1777, Some(55)),
        All(2, 0o141, 0o4000, 0),
    ],
};

#[test]
fn moved_core(rt: HostRuntime) {
    walk(&rt, rt.alloc(), &MOVED_CORE);
}

/// Grows to two blocks, and is cut to one again.
const GROWER: &str = " MOVEI 1,3777\n CORE 1,\n HALT\n MOVEI 2,1\n CORE 2,\n HALT\n JRST .\n \
    LOC 1000\n 123456,,654321\n END\n";

/// Fills the end of its core, and grows to two blocks at its sixth instruction.
const SPREADER: &str =
    " SETOM 1777\n JFCL\n JFCL\n JFCL\n MOVEI 1,3777\n CORE 1,\n HALT\n JRST .\n END\n";

/// Owns the lock 1, and gives it up when a character is typed, which it stores at 300 octal.
const HOLDER: &str =
    " MOVE 1,[1,,BLK]\n ENQ. 1,\n HALT\n INCHRW 300\n MOVE 1,[BLK]\n DEQ. 1,\n HALT\n JRST .\n\
    BLK: 1,,5\n 0,,1\n 777777\n 500000,,1\n 0\n END\n";

/// Asks for the lock 1 by a request of id 7 that interrupts, with a vector at 200 octal, and loops at 151.
const WATCHER: &str =
    " MOVEI 1,200\n PIINI. 1,\n HALT\n MOVEI 1,1\n PISYS. 1,\n HALT\n MOVE 1,[2,,BLK]\n ENQ. 1,\n JFCL\n \
    JRST .\nBLK: 1,,5\n 0,,7\n 777777\n 500000,,1\n 0\n LOC 174\n DEBRK.\n LOC 200\n 174\n BLOCK 3\n END\n";

/// Grows to two blocks, fills the second with ones, is cut to one block and grows again.
const REGROWER: &str =
    " MOVEI 1,3777\n CORE 1,\n HALT\n SETOM 2000\n MOVE 1,[2000,,2001]\n BLT 1,3777\n \
    MOVEI 1,1\n CORE 1,\n HALT\n MOVEI 1,3777\n CORE 1,\n HALT\n JRST .\n END\n";

/// The other tables.
static TABLES: [Table; 3] = [
    Table {
        name: "moved_by_core",
        blocks: 5,
        rows: &[
            Begins(0, GROWER, 1),
            Begins(1, SPREADER, 2),
            Begins(2, COUNTER, 3),
            // Behind job 1 stands job 2, and two blocks are free behind job 3.
            Turns(&[1, 2, 3, 1]),
            Job(1, 0o143, None, Wait::None),
            Word(1, 1, Some(1)),
            Word(1, 0o44, Some(0o3777)),
            Word(1, 0o1000, MARK),
            All(1, 0o2000, 0o4000, 0),
            Word(1, 0o4000, None),
            Turns(&[2, 3, 1, 2, 3, 1]),
            Job(1, 0o146, None, Wait::None),
            Word(1, 2, Some(2)),
            Word(1, 0o44, Some(0o1777)),
            Word(1, 0o2000, None),
            Word(1, 0o1000, MARK),
            // Behind job 2 stands job 3, and the free blocks are the first and the last.
            Turns(&[2, 3, 1, 2, 3, 1, 2]),
            Job(2, 0o147, None, Wait::None),
            Word(2, 1, Some(1)),
            Word(2, 0o1777, Some(ONES)),
            All(2, 0o2000, 0o4000, 0),
            Word(1, 0o1000, MARK),
            Job(3, 0o142, None, Wait::None),
            Word(3, 0o300, Some(2)),
            Word(3, 0o1777, Some(3)),
            Word(3, 0o1000, MARK),
            // Three instructions more of job 3 make its third round, 27 turns of all make three more.
            Turns(&[3, 1, 2, 3, 1, 2, 3]),
            Word(3, 0o300, Some(3)),
            Word(3, 0o1777, Some(6)),
            Rounds(27, 27),
            Word(3, 0o300, Some(6)),
            Word(3, 0o1777, Some(21)),
            Word(3, 0o1000, MARK),
            All(2, 0o2000, 0o4000, 0),
        ],
    },
    Table {
        name: "moved_while_it_waits",
        blocks: 4,
        rows: &[
            Begins(0, FILLER, 1),
            Begins(1, HOLDER, 2),
            Turns(&[1, 2, 1, 2, 1, 2]),
            Begins(2, WATCHER, 3),
            Rounds(18, 18),
            Job(2, 0o143, None, Wait::Char),
            Job(3, 0o151, None, Wait::None),
            Word(3, 1, Some(1)),
            // Jobs 2 and 3 are moved: one while it waits for a character, one while its request waits.
            Happens(Kill(1), Done),
            Begins(0, LARGE, 1),
            Job(2, 0o143, None, Wait::Char),
            Job(3, 0o151, None, Wait::None),
            Happens(Typed(1, b'A'), Done),
            Turns(&[2, 3, 1]),
            Word(2, 0o300, Some(0o101)),
            Turns(&[2, 3, 1, 2, 3]),
            Job(3, 0o174, None, Wait::None),
            Word(3, 0o200, Some(0o174)),
            Word(3, 0o201, Some(0o010000_000151)),
            Word(3, 0o203, Some(7)),
            Turns(&[1, 2, 3]),
            Job(3, 0o151, None, Wait::None),
            All(1, 0o45, 0o140, 0),
            All(1, 0o141, 0o4000, 0),
        ],
    },
    Table {
        name: "new_core_is_zero",
        blocks: 2,
        rows: &[
            // A job in the place of one that is gone.
            Begins(0, FILLER, 1),
            Rounds(4, 4),
            All(1, 0o200, 0o2000, ONES),
            Happens(Kill(1), Done),
            Begins(0, LARGE, 1),
            All(1, 0o45, 0o140, 0),
            All(1, 0o141, 0o4000, 0),
            Happens(Kill(1), Done),
            // A job after a restart.
            Begins(5, FILLER, 1),
            Rounds(4, 4),
            Happens(Restart, Done),
            Word(1, 0, None),
            Begins(0, LARGE, 1),
            All(1, 0o45, 0o140, 0),
            All(1, 0o141, 0o4000, 0),
            Happens(Kill(1), Done),
            // A job that had the core itself.
            Begins(0, REGROWER, 1),
            Rounds(5, 5),
            All(1, 0o2000, 0o4000, ONES),
            Rounds(2, 2),
            Word(1, 0o2000, None),
            Rounds(2, 2),
            All(1, 0o2000, 0o4000, 0),
            Word(1, 1, Some(0)),
        ],
    },
];

#[test]
fn tables_hold(rt: HostRuntime) {
    for table in &TABLES {
        walk(&rt, rt.alloc(), table);
    }
}
