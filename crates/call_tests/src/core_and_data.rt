//! CORE, the time of day, the job's number, and the words that all jobs share.

use crate::machine::{NEXT, SKIPPED};
use crate::rows::Act::{Comes, Day, DayGoesOn, PutsAc, Stores};
use crate::rows::Row::{Asks, Calls, Does, Sees};
use crate::rows::Sight::{Blocks, WaitsFor, Word};
use crate::rows::{Row, Table, walk_all, walk_in};
use job_sched::Wait;
use uuo_calls::CallOutcome::Done;
use word36::{JOBS, LINES};

const CORE: u32 = 0o11;

const MSTIME: u32 = 0o23;

const PJOB: u32 = 0o30;

const SLEEP: u32 = 0o31;

const DATRD: u32 = 0o777_776;

const DATWR: u32 = 0o777_775;

/// .JBREL, which has the highest legal address.
const JBREL: u32 = 0o44;

/// A machine of one block, which job 1 has.
static CORE_IS_NOT_THERE: [Row; 3] = [
    Asks(1, CORE, 0o3777, (NEXT, 0)),
    Sees(Word(1, 0o2000, None)),
    Sees(Word(1, JBREL, Some(0))),
];

#[test]
fn core_is_not_there(rt: HostRuntime) {
    walk_in(&rt, rt.alloc(), 1, &CORE_IS_NOT_THERE);
}

/// The tables that are walked on a new machine each.
static TABLES: [Table; 4] = [
    Table {
        name: "core_grows_and_shrinks",
        rows: &[
            Does(Stores(1, 0o1777, &[5])),
            Asks(1, CORE, 0o3777, (SKIPPED, 0o76)),
            Sees(Word(1, JBREL, Some(0o3777))),
            Sees(Word(1, 0o1777, Some(5))),
            Sees(Word(1, 0o3777, Some(0))),
            Asks(1, CORE, 1, (SKIPPED, 0o77)),
            Sees(Word(1, JBREL, Some(0o1777))),
            Sees(Word(1, 0o2000, None)),
        ],
    },
    // A left half that is not 0, no address, and more blocks than are free: AC has the free blocks, and
    // nothing else changes.
    Table {
        name: "core_is_refused",
        rows: &[
            Does(Stores(1, JBREL as usize, &[7])),
            Asks(1, CORE, 0, (NEXT, 0o77)),
            Sees(Word(1, JBREL, Some(7))),
            Sees(Blocks(1, 1)),
            Asks(1, CORE, 0o1_000000, (NEXT, 0o77)),
            Sees(Word(1, JBREL, Some(7))),
            Sees(Blocks(1, 1)),
            Asks(1, CORE, 0o1_003777, (NEXT, 0o77)),
            Sees(Word(1, JBREL, Some(7))),
            Sees(Blocks(1, 1)),
            Asks(1, CORE, 0o200000, (NEXT, 0o77)),
            Sees(Word(1, JBREL, Some(7))),
            Sees(Blocks(1, 1)),
        ],
    },
    // 100 ticks are 1666 milliseconds, 3202 octal; the last tick of a day is millisecond 86399983.
    Table {
        name: "time_number_and_sleep",
        rows: &[
            Does(Comes(JOBS, LINES - 1)),
            Does(Day(100)),
            Asks(1, MSTIME, 0, (NEXT, 0o3202)),
            Does(Day(5_183_999)),
            Asks(1, MSTIME, 0, (NEXT, 86_399_983)),
            Does(DayGoesOn),
            Asks(1, MSTIME, 0, (NEXT, 0)),
            Asks(1, PJOB, 0, (NEXT, 1)),
            Asks(JOBS, PJOB, 0, (NEXT, JOBS as u64)),
            Asks(1, SLEEP, 1, (NEXT, 1)),
            Sees(WaitsFor(1, Wait::Sleep(60))),
            Asks(1, SLEEP, 0, (NEXT, 0)),
            Sees(WaitsFor(1, Wait::Sleep(1))),
            Asks(1, SLEEP, 0o777777_000002, (NEXT, 0o777777_000002)),
            Sees(WaitsFor(1, Wait::Sleep(120))),
            Asks(1, SLEEP, 0o777777_000000, (NEXT, 0o777777_000000)),
            Sees(WaitsFor(1, Wait::Sleep(1))),
            Asks(1, SLEEP, 0o777777, (NEXT, 0o777777)),
            Sees(WaitsFor(1, Wait::Sleep(15_728_580))),
        ],
    },
    Table {
        name: "shared_words",
        rows: &[
            Does(Comes(2, 1)),
            Does(PutsAc(1, 2, 0o123456_654321)),
            Asks(1, DATWR, 0o777, (SKIPPED, 0o777)),
            Asks(2, DATRD, 0o777, (SKIPPED, 0o123456_654321)),
            Asks(2, DATRD, 0o1777, (SKIPPED, 0)),
            Asks(1, DATWR, 0o5_001777, (SKIPPED, 0o5_001777)),
            Asks(2, DATRD, 0o1777, (SKIPPED, 0o123456_654321)),
            Asks(1, DATWR, 0o2000, (NEXT, 1)),
            Asks(1, DATRD, 0o777_777, (NEXT, 1)),
            // AC+1 after 17 is 0.
            Does(PutsAc(1, 0, 3)),
            Does(PutsAc(1, 0o17, 5)),
            Calls(1, 0o17, DATWR, (Done, SKIPPED)),
            Asks(2, DATRD, 5, (SKIPPED, 3)),
        ],
    },
];

#[test]
fn tables_hold(rt: HostRuntime) {
    walk_all(&rt, rt.alloc(), &TABLES);
}
