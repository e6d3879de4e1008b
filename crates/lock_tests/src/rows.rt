//! Worked examples of the queue rule: who is granted, who waits, and what a status shows.

use crate::build::Call::{Asks, Changes, GivesUp};
use crate::build::Lock::{Alone, Bypassing, OfPool, Shared};
use crate::build::Locks::{One, Two};
use crate::limits::FILLED;
use crate::two_tables::{walk, walk_all};
use crate::walk::Row::{Calls, Granted, Releases, Requests, Status, Waits, WaitsFor};
use crate::walk::Table;
use lock_queue::EnqueueKind::{AtOnce, Blocking};
use lock_queue::{LockReply, Refusal};

const X: u32 = 1;

const Y: u32 = 2;

const Z: u32 = 3;

const A: u32 = 4;

const B: u32 = 5;

const C: u32 = 6;

const T: u32 = 7;

const WAIT: LockReply = LockReply::Queued;

const OK: LockReply = LockReply::Granted;

const DONE: LockReply = LockReply::Done;

const LOW: LockReply = LockReply::Refused(Refusal::LevelOrder);

const DIFFERS: LockReply = LockReply::Refused(Refusal::Differs);

const NOT_GRANTED: LockReply = LockReply::Refused(Refusal::NotGranted);

const LOST: LockReply = LockReply::Refused(Refusal::WouldLose);

const AGAIN: LockReply = LockReply::Refused(Refusal::NamedAlready);

/// The tables that are walked on a new pair of tables each.
static TABLES: [Table; 8] = [
    Table {
        name: "second_job_is_granted_when_the_first_gives_up",
        rows: &[
            Calls(1, Asks(Blocking, 1, One(Alone(X, 0))), OK),
            Calls(2, Asks(Blocking, 2, One(Alone(X, 0))), WAIT),
            Waits(2, true),
            Waits(1, false),
            Calls(1, GivesUp(One(Alone(X, 0))), DONE),
            Granted(&[2]),
            Waits(2, false),
        ],
    },
    Table {
        name: "sharer_does_not_pass_a_waiter",
        rows: &[
            Calls(1, Asks(Blocking, 1, One(Shared(X, 0))), OK),
            Calls(2, Asks(Blocking, 2, One(Alone(X, 0))), WAIT),
            Calls(3, Asks(Blocking, 3, One(Shared(X, 0))), WAIT),
            Status(1, X, [0o200000_000001, 0o000001_000002, 0]),
            Status(2, X, [0o100000_000001, 0o000001_000002, 0]),
            Status(4, X, [0o000000_000001, 0o000001_000002, 0]),
            Releases(2),
            Granted(&[1, 3]),
            Status(3, X, [0o200000_000001, 0o000002_000000, 0]),
        ],
    },
    Table {
        name: "pool_is_granted_in_order",
        rows: &[
            Calls(1, Asks(Blocking, 1, One(OfPool(T, 5, 2))), OK),
            Calls(2, Asks(Blocking, 2, One(OfPool(T, 5, 4))), WAIT),
            Calls(3, Asks(Blocking, 3, One(OfPool(T, 5, 1))), WAIT),
            Calls(1, GivesUp(One(Alone(T, 0))), DONE),
            Granted(&[2, 3]),
            Waits(2, false),
            Waits(3, false),
            Status(1, T, [0o000000_000002, 0o000002_000000, 5]),
            Calls(1, Asks(AtOnce, 4, One(OfPool(T, 6, 1))), DIFFERS),
        ],
    },
    Table {
        name: "locks_of_a_request_are_granted_together",
        rows: &[
            Calls(1, Asks(Blocking, 1, One(Alone(A, 1))), OK),
            Calls(2, Asks(Blocking, 2, Two(Alone(A, 1), Alone(B, 2))), WAIT),
            Calls(3, Asks(AtOnce, 3, One(Alone(B, 2))), NOT_GRANTED),
            Requests(2),
            Granted(&[1]),
            Status(2, B, [0o100002_000000, 0o000000_000001, 0]),
        ],
    },
    Table {
        name: "requests_of_several_locks_wait_in_a_circle",
        rows: &[
            Calls(1, Asks(Blocking, 1, One(Alone(A, 1))), OK),
            Calls(2, Asks(Blocking, 2, One(Alone(B, 2))), OK),
            Calls(3, Asks(Blocking, 3, Two(Alone(A, 1), Alone(C, 3))), WAIT),
            Calls(1, Asks(Blocking, 4, One(Alone(B, 2))), WAIT),
            Calls(2, Asks(Blocking, 5, One(Alone(C, 3))), WAIT),
            WaitsFor(1, 1, false),
            WaitsFor(1, 2, true),
            WaitsFor(1, 3, false),
            WaitsFor(2, 1, false),
            WaitsFor(2, 2, false),
            WaitsFor(2, 3, true),
            WaitsFor(3, 1, true),
            WaitsFor(3, 2, false),
            WaitsFor(3, 3, false),
        ],
    },
    Table {
        name: "change_is_refused_beside_another_owner",
        rows: &[
            Calls(1, Asks(Blocking, 1, One(Shared(X, 0))), OK),
            Calls(2, Asks(Blocking, 2, One(Shared(X, 0))), OK),
            Calls(1, Changes(One(Alone(X, 0))), LOST),
            Calls(2, GivesUp(One(Alone(X, 0))), DONE),
            Calls(1, Changes(One(Alone(X, 0))), DONE),
            Status(1, X, [0o240000_000001, 0o000001_000000, 0]),
        ],
    },
    Table {
        name: "levels_rise",
        rows: &[
            Calls(1, Asks(Blocking, 1, One(Alone(X, 5))), OK),
            Calls(1, Asks(Blocking, 2, One(Alone(Y, 5))), LOW),
            Calls(1, Asks(Blocking, 3, One(Alone(Y, 6))), OK),
            Calls(1, Asks(Blocking, 4, One(Bypassing(Z, 5))), OK),
            Calls(1, Asks(Blocking, 5, One(Alone(X, 7))), DIFFERS),
            Calls(1, Asks(Blocking, 5, One(Alone(X, 5))), AGAIN),
        ],
    },
    Table {
        name: "waiter_levels_count",
        rows: &[
            Calls(1, Asks(Blocking, 1, One(Alone(A, 1))), OK),
            Calls(2, Asks(Blocking, 2, One(Alone(B, 2))), OK),
            Calls(1, Asks(Blocking, 3, One(Alone(B, 2))), WAIT),
            Calls(2, Asks(Blocking, 4, One(Alone(A, 1))), LOW),
            Calls(2, Asks(Blocking, 4, One(Bypassing(A, 1))), WAIT),
            WaitsFor(1, 2, true),
            WaitsFor(2, 1, true),
        ],
    },
];

#[test]
fn two_tables(rt: HostRuntime) {
    walk_all(&rt, rt.alloc(), &TABLES);
    walk(&rt, rt.alloc(), &FILLED);
}
