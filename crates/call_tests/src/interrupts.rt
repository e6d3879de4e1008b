//! PIINI., PISYS. and DEBRK., and requests that interrupt.

use crate::locks::{BLOCK, DEQ, ENQ, EXCLUSIVE};
use crate::machine::{BACK, NEXT, SKIPPED};
use crate::rows::Act::{Block, Comes, Interrupts, Stores};
use crate::rows::Row::{Asks, Calls, Does, Sees};
use crate::rows::Sight::{Flags, InProgress, NoInterrupts, Pending, Requests, Stopped, Switch};
use crate::rows::{Table, walk_all};
use job_sched::Stop;
use ka_state::StopReason::IllegalAddress;
use uuo_calls::CallOutcome::Done;

const RESET: u32 = 0;

const CORE: u32 = 0o11;

const PIINI: u32 = 0o135;

const PISYS: u32 = 0o136;

const DEBRK: u32 = 0o137;

/// The tables that are walked on a new machine each.
static TABLES: [Table; 4] = [
    Table {
        name: "vector_has_four_legal_words",
        rows: &[
            Asks(1, PIINI, 0o1775, (NEXT, 1)),
            Sees(Switch(1, None)),
            Asks(1, PIINI, 0o2000, (NEXT, 1)),
            Sees(Switch(1, None)),
            Asks(1, PIINI, 0o777_775, (NEXT, 1)),
            Sees(Switch(1, None)),
            Asks(1, PIINI, 0, (SKIPPED, 0)),
            Sees(Switch(1, Some(false))),
            Asks(1, PIINI, 0o14, (SKIPPED, 0o14)),
            Sees(Switch(1, Some(false))),
            Asks(1, PIINI, 0o17, (SKIPPED, 0o17)),
            Sees(Switch(1, Some(false))),
            Asks(1, PIINI, 0o1774, (SKIPPED, 0o1774)),
            Sees(Switch(1, Some(false))),
            Asks(1, PIINI, 0o5_000200, (SKIPPED, 0o5_000200)),
            Sees(Switch(1, Some(false))),
        ],
    },
    // PISYS. compares the whole word, and asks for the value before the vector.
    Table {
        name: "interrupts_are_switched",
        rows: &[
            Asks(1, PISYS, 5, (NEXT, 1)),
            Asks(1, PISYS, 0, (NEXT, 2)),
            Asks(1, PISYS, 1, (NEXT, 2)),
            Asks(1, PIINI, 0o200, (SKIPPED, 0o200)),
            Asks(1, PISYS, 1, (SKIPPED, 1)),
            Sees(Switch(1, Some(true))),
            Asks(1, PISYS, 2, (NEXT, 1)),
            Sees(Switch(1, Some(true))),
            Asks(1, PISYS, 0o1_000000, (NEXT, 1)),
            Sees(Switch(1, Some(true))),
            Asks(1, PISYS, 0o1_000001, (NEXT, 1)),
            Sees(Switch(1, Some(true))),
            Asks(1, PISYS, 0o400000_000000, (NEXT, 1)),
            Sees(Switch(1, Some(true))),
            Asks(1, PISYS, 0, (SKIPPED, 0)),
            Sees(Switch(1, Some(false))),
            Asks(1, PISYS, 1, (SKIPPED, 1)),
            Asks(1, RESET, 0, (NEXT, 0)),
            Sees(NoInterrupts(1)),
        ],
    },
    // A delivery stored 010000,,000151 behind the vector's first word; Overflow and No Divide are taken
    // from the word too. Behind a vector that is not legal any more nothing changes.
    Table {
        name: "interrupt_is_dismissed",
        rows: &[
            Asks(1, PIINI, 0o200, (SKIPPED, 0o200)),
            // None is in progress.
            Asks(1, DEBRK, 0, (NEXT, 0)),
            Does(Stores(1, 0o201, &[0o010000_000151])),
            Does(Interrupts(1)),
            Calls(1, 0, DEBRK, (Done, 0o151)),
            Sees(Flags(1, (false, false))),
            Sees(InProgress(1, false)),
            Does(Stores(1, 0o201, &[0o410040_000151])),
            Does(Interrupts(1)),
            Calls(1, 0, DEBRK, (Done, 0o151)),
            Sees(Flags(1, (true, true))),
            Sees(InProgress(1, false)),
            Asks(1, CORE, 0o3777, (SKIPPED, 0o76)),
            Asks(1, PIINI, 0o2777, (SKIPPED, 0o2777)),
            Asks(1, CORE, 1, (SKIPPED, 0o77)),
            Does(Interrupts(1)),
            Calls(1, 0, DEBRK, (Done, BACK)),
            Sees(Stopped(1, Some(Stop::Fault(IllegalAddress)))),
            Sees(InProgress(1, true)),
        ],
    },
    // ENQ. 2 needs a vector; queued, it answers 1 and stays; another's DEQ. grants it, and it is pending.
    // Granted at once it is never pending.
    Table {
        name: "request_that_interrupts",
        rows: &[
            Does(Comes(2, 1)),
            Does(Block(1, BLOCK, 7, &[EXCLUSIVE])),
            Does(Block(2, BLOCK, 9, &[EXCLUSIVE])),
            Asks(1, ENQ, 0o2_000300, (NEXT, 0o17)),
            Sees(Requests(0)),
            Asks(2, ENQ, 0o300, (SKIPPED, 0o300)),
            Asks(1, PIINI, 0o200, (SKIPPED, 0o200)),
            Asks(1, ENQ, 0o2_000300, (NEXT, 1)),
            Sees(Requests(2)),
            Sees(Pending(1, None)),
            Asks(2, DEQ, 0o1_000000, (SKIPPED, 0o1_000000)),
            Sees(Pending(1, Some(7))),
            Asks(1, DEQ, 0o2_000007, (SKIPPED, 0o2_000007)),
            Asks(1, ENQ, 0o2_000300, (SKIPPED, 0o2_000300)),
            Sees(Pending(1, None)),
        ],
    },
];

#[test]
fn tables_hold(rt: HostRuntime) {
    walk_all(&rt, rt.alloc(), &TABLES);
}
