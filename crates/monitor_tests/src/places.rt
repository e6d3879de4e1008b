//! Rounds that are made at once up to an address.

use crate::rows::Act::Kill;
use crate::rows::Reply::Done;
use crate::rows::Row::{Begins, Happens, Job, RoundsTo};
use crate::rows::{Table, walk_all};
use job_sched::Wait;

/// A job that computes: three instructions, and again from the second on.
const COMPUTES: &str = " MOVEI 1,0\nLOOP: ADDI 1,1\n JRST LOOP\n END\n";

/// The tables that are walked on a new machine each.
static TABLES: [Table; 3] = [
    // The first instruction leads to the address; where the job stands before it does not count.
    Table {
        name: "a_job_alone_runs_to_a_place",
        blocks: 64,
        quantum: 60,
        rows: &[
            Begins(0, COMPUTES, 1),
            RoundsTo(100, &[0o141], Some(1), 1),
            RoundsTo(100, &[0o141], Some(1), 2),
            RoundsTo(100, &[0o141, 0o142], Some(1), 1),
            RoundsTo(7, &[0o200], Some(1), 7),
            Job(1, 0o141, None, Wait::None),
        ],
    },
    Table {
        name: "jobs_take_turns_on_the_way_to_a_place",
        blocks: 64,
        quantum: 3,
        rows: &[
            Begins(0, COMPUTES, 1),
            Begins(1, COMPUTES, 2),
            RoundsTo(100, &[0o200], Some(1), 3),
            RoundsTo(100, &[0o200], Some(2), 3),
            RoundsTo(100, &[0o200], Some(1), 3),
            RoundsTo(100, &[0o200], Some(2), 3),
            Job(1, 0o142, None, Wait::None),
            Job(2, 0o142, None, Wait::None),
        ],
    },
    Table {
        name: "a_round_goes_by_where_no_job_is_ready",
        blocks: 64,
        quantum: 3,
        rows: &[
            Begins(0, COMPUTES, 1),
            Happens(Kill(1), Done),
            RoundsTo(100, &[], None, 1),
        ],
    },
];

#[test]
fn tables_hold(rt: HostRuntime) {
    walk_all(&rt, rt.alloc(), &TABLES);
}
