//! What a debugger changes of a job.

use crate::rows::Reply::{Done, Refused};
use crate::rows::Row::{Begins, Deposits, Job, NoJob, Rounds, StartsAt, Word};
use crate::rows::{Table, walk_all};
use job_sched::{Stop, Wait};
use ka_state::StopReason::Halt;
use monitor::RefusedEvent::{NoSuchJob, NotStopped};

/// A job that halts at once, one block long.
const HALTS: &str = " HALT .+1\n JRST .\n END\n";

/// A word that is put.
const PUT: u64 = 0o123456_654321;

/// The tables that are walked on a new machine each.
static TABLES: [Table; 2] = [
    Table {
        name: "words_are_put",
        blocks: 64,
        quantum: 1,
        rows: &[
            Begins(0, HALTS, 1),
            Rounds(1, 1),
            Deposits(1, 0, PUT, true),
            Deposits(1, 0o17, PUT, true),
            Deposits(1, 0o20, PUT, true),
            Deposits(1, 0o1777, PUT, true),
            Deposits(1, 0o2000, PUT, false),
            Deposits(1, u32::MAX, PUT, false),
            Deposits(0, 0o20, PUT, false),
            Deposits(2, 0, PUT, false),
            Deposits(64, 0, PUT, false),
            Word(1, 0, Some(PUT)),
            Word(1, 1, Some(0)),
            Word(1, 0o17, Some(PUT)),
            Word(1, 0o20, Some(PUT)),
            Word(1, 0o21, Some(0)),
            Word(1, 0o1777, Some(PUT)),
            Word(1, 0o2000, None),
            NoJob(2),
            Job(1, 0o141, Some(Stop::Fault(Halt)), Wait::None),
        ],
    },
    Table {
        name: "a_job_starts_at_a_place",
        blocks: 64,
        quantum: 1,
        rows: &[
            Begins(0, HALTS, 1),
            Rounds(1, 1),
            StartsAt(2, 0o141, Refused(NoSuchJob)),
            StartsAt(1, 0o141, Done),
            StartsAt(1, 0o140, Refused(NotStopped)),
            Rounds(3, 3),
            Job(1, 0o141, None, Wait::None),
        ],
    },
];

#[test]
fn tables_hold(rt: HostRuntime) {
    walk_all(&rt, rt.alloc(), &TABLES);
}
