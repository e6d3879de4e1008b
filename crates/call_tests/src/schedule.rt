//! Jobs in turn, and each wait.

use crate::machine::NEXT;
use crate::rows::Act::{
    Breaks, ClearsInput, ClearsOutput, Comes, Goes, Outputs, Tick, Types, Waits,
};
use crate::rows::Row::{Asks, Does, GoesOn, ReadyBehind, Runs, Sees, Starts, Turns};
use crate::rows::Sight::{IsReady, Left, Stopped, WaitsFor};
use crate::rows::{Row, Table, walk, walk_all};
use job_sched::JobError::{NoSuchJob, NotStopped};
use job_sched::{Stop, Wait};
use word36::JOBS;

const SLEEP: u32 = 0o31;

/// Quantum 2 and two jobs, each step followed by a tick.
static TWO_JOBS_IN_TURN: [Row; 2] = [Does(Comes(2, 1)), Turns(2, &[1, 1, 2, 2, 1, 1])];

#[test]
fn two_jobs_in_turn(rt: HostRuntime) {
    walk(&rt, rt.alloc(), &TWO_JOBS_IN_TURN);
}

/// The tables that are walked on a new machine each.
static TABLES: [Table; 5] = [
    // Without ticks a job keeps its quantum; the last job comes round to job 1; a job that is gone has no
    // quantum left.
    Table {
        name: "circle_of_jobs",
        rows: &[
            Does(Comes(JOBS, 1)),
            Runs(1, 1),
            Turns(1, &[1, JOBS]),
            Runs(1, 1),
            Does(Goes(1)),
            Sees(Left(0)),
            Runs(60, JOBS),
            Does(Breaks(1)),
            Runs(60, 0),
        ],
    },
    // Of one second and of none: idle for 60 ticks and for one.
    Table {
        name: "sleeps",
        rows: &[
            Asks(1, SLEEP, 1, (NEXT, 1)),
            Turns(1, &[0; 60]),
            Runs(1, 1),
            Asks(1, SLEEP, 0, (NEXT, 0)),
            Turns(1, &[0]),
            Runs(1, 1),
        ],
    },
    // A stopped sleeper's ticks go by too.
    Table {
        name: "stopped_sleeper",
        rows: &[
            Does(Waits(1, Wait::Sleep(2))),
            Does(Breaks(0)),
            Does(Breaks(1)),
            Does(Tick),
            Does(Tick),
            Does(Tick),
            Sees(Stopped(1, Some(Stop::Typed))),
            Sees(WaitsFor(1, Wait::Sleep(0))),
            GoesOn(1, Ok(())),
            Sees(IsReady(1, true)),
            GoesOn(1, Err(NotStopped)),
            Starts(1, Err(NotStopped)),
            Starts(2, Err(NoSuchJob)),
            GoesOn(255, Err(NoSuchJob)),
        ],
    },
    // A character, a break behind other characters, and a full ring.
    Table {
        name: "input_waits",
        rows: &[
            Does(Waits(1, Wait::Char)),
            Sees(IsReady(1, false)),
            Does(Types(b"A")),
            Sees(IsReady(1, true)),
            Does(Waits(1, Wait::Line)),
            Sees(IsReady(1, false)),
            Does(Types(b"B\x1b")),
            Sees(IsReady(1, true)),
            Does(ClearsInput),
            ReadyBehind(128),
        ],
    },
    // Of 512 places one is taken.
    Table {
        name: "output_waits",
        rows: &[
            Does(ClearsOutput),
            Does(Outputs(1)),
            Does(Waits(1, Wait::Room(510))),
            Sees(IsReady(1, true)),
            Does(Waits(1, Wait::Room(511))),
            Sees(IsReady(1, true)),
            Does(Waits(1, Wait::Room(512))),
            Sees(IsReady(1, false)),
        ],
    },
];

#[test]
fn tables_hold(rt: HostRuntime) {
    walk_all(&rt, rt.alloc(), &TABLES);
}
