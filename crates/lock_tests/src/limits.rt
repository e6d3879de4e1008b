//! How much a queue and a job may have, groups, waits that end together, and a list of calls.

use crate::build::Call::{Asks, AsksUnarmed, AsksWithin, Changes, GivesUp, GivesUpId};
use crate::build::Lock::{Alone, Bypassing, Grouped, Shared};
use crate::build::Locks::{One, Two};
use crate::build::{Call, Locks};
use crate::two_tables::Trial::Rows;
use crate::two_tables::{on_both, walk, walk_all};
use crate::walk::Row::{
    Calls, Code, Fills, FillsQuota, Granted as AreGranted, Grants, IsFull, Lists, Releases,
    Requests, WithdrawsAll,
};
use crate::walk::{Row, Table};
use lock_queue::EnqueueKind::{AtOnce, Blocking, Interrupt};
use lock_queue::LockReply::{Done, Granted, Queued};
use lock_queue::{LockReply, Refusal};
use word36::{JOBS, MOST_REQUESTS};

/// A request for a lock of its own, which counts as the next one behind those that fill a table.
const NEXT: Call = Asks(AtOnce, 0, One(Bypassing(0, 0)));

/// The first of the requests that fill a table.
const FIRST: Call = Asks(AtOnce, 1, One(Bypassing(1, 0)));

const FULL: LockReply = LockReply::Refused(Refusal::QueueFull);

const MUCH: LockReply = LockReply::Refused(Refusal::OverQuota);

const UNARMED: LockReply = LockReply::Refused(Refusal::NoVector);

/// A lock that nobody has.
const LOCK: Locks = One(Bypassing(7, 0));

const LOW: LockReply = LockReply::Refused(Refusal::LevelOrder);

const AGAIN: LockReply = LockReply::Refused(Refusal::NamedAlready);

const LOST: LockReply = LockReply::Refused(Refusal::WouldLose);

/// A table that one job fills takes no more, and one again when one has left.
pub static FILLED: [Row; 7] = [
    Fills(1),
    IsFull,
    Calls(1, NEXT, FULL),
    IsFull,
    Calls(1, GivesUpId(1), Done),
    Calls(1, NEXT, Granted),
    Calls(1, FIRST, FULL),
];

/// One request of a table of one is over the quota of its own job and finds the queue full of another's.
static FULL_OF_ONE: [Row; 7] = [
    Fills(1),
    Calls(1, AsksWithin(1, Blocking, 2, LOCK), MUCH),
    Calls(1, AsksWithin(1, AtOnce, 2, LOCK), MUCH),
    Calls(1, AsksWithin(1, Interrupt, 2, LOCK), UNARMED),
    Calls(2, AsksWithin(1, Blocking, 2, LOCK), FULL),
    Calls(2, AsksWithin(1, AtOnce, 2, LOCK), FULL),
    Calls(JOBS, AsksWithin(1, AtOnce, 2, LOCK), FULL),
];

/// The least and the greatest tables.
#[test]
fn limits_table(rt: HostRuntime) {
    on_both::<1>(&rt, rt.alloc(), Rows("FILLED", &FILLED));
    on_both::<1>(&rt, rt.alloc(), Rows("FULL_OF_ONE", &FULL_OF_ONE));
    on_both::<2>(&rt, rt.alloc(), Rows("FILLED", &FILLED));
    on_both::<MOST_REQUESTS>(&rt, rt.alloc(), Rows("FILLED", &FILLED));
}

/// The rows of `full_table_is_called`.
static FULL_TABLE_IS_CALLED: [Row; 25] = [
    Calls(1, Asks(Blocking, 1, One(Alone(1, 1))), Granted),
    Calls(2, Asks(Blocking, 2, One(Alone(1, 1))), Queued),
    Code(3, Asks(Blocking, 3, One(Bypassing(5, 0))), 14),
    Code(3, Asks(AtOnce, 3, One(Bypassing(5, 0))), 14),
    Code(3, Asks(Interrupt, 3, One(Bypassing(5, 0))), 14),
    Code(3, Asks(AtOnce, 3, One(Alone(1, 1))), 14),
    Code(3, AsksUnarmed(3, One(Bypassing(5, 0))), 15),
    Code(3, AsksWithin(0, AtOnce, 3, One(Bypassing(5, 0))), 16),
    Code(3, Asks(AtOnce, 3, One(Alone(1, 0))), 9),
    Code(1, Asks(AtOnce, 3, One(Alone(5, 1))), 10),
    Code(1, Asks(AtOnce, 3, One(Alone(1, 1))), 11),
    Code(3, Asks(AtOnce, 3, Two(Alone(5, 0), Alone(5, 0))), 11),
    Code(3, GivesUpId(1), 12),
    Requests(2),
    Grants(1, Changes(One(Shared(1, 0))), Done, &[]),
    Grants(1, GivesUp(One(Alone(1, 0))), Done, &[(2, 2)]),
    Calls(3, Asks(Blocking, 3, One(Shared(1, 1))), Queued),
    Code(1, Asks(AtOnce, 4, One(Bypassing(5, 0))), 14),
    WithdrawsAll(1 << 3),
    Requests(1),
    Calls(1, Asks(AtOnce, 4, One(Bypassing(5, 0))), Granted),
    Code(3, Asks(AtOnce, 5, One(Alone(6, 0))), 14),
    Releases(2),
    Calls(3, Asks(AtOnce, 5, One(Alone(6, 0))), Granted),
    AreGranted(&[4, 5]),
];

/// Of a full table: which code comes before that of the full queue, and what can still be done.
#[test]
fn full_table_is_called(rt: HostRuntime) {
    on_both::<2>(
        &rt,
        rt.alloc(),
        Rows("FULL_TABLE_IS_CALLED", &FULL_TABLE_IS_CALLED),
    );
}

/// The rows of `quotas`.
static QUOTAS: [Row; 16] = [
    Calls(1, AsksWithin(0, Blocking, 1, One(Alone(5, 0))), MUCH),
    Calls(1, AsksWithin(1, Blocking, 1, One(Alone(5, 1))), Granted),
    Calls(2, AsksWithin(2, AtOnce, 2, One(Alone(6, 0))), Granted),
    Calls(2, AsksWithin(2, Blocking, 3, One(Alone(5, 1))), Queued),
    Calls(2, AsksWithin(2, AtOnce, 4, One(Bypassing(7, 0))), MUCH),
    Calls(
        2,
        AsksWithin(2, Interrupt, 4, One(Bypassing(7, 0))),
        UNARMED,
    ),
    Calls(2, AsksWithin(2, AtOnce, 4, One(Alone(7, 1))), LOW),
    Calls(2, AsksWithin(2, AtOnce, 4, One(Bypassing(6, 0))), AGAIN),
    Calls(2, AsksWithin(3, AtOnce, 4, One(Bypassing(7, 0))), Granted),
    Calls(2, AsksWithin(2, AtOnce, 5, One(Bypassing(8, 0))), MUCH),
    Calls(3, AsksWithin(1, AtOnce, 6, One(Alone(9, 0))), Granted),
    Calls(2, GivesUpId(2), Done),
    Calls(2, AsksWithin(2, AtOnce, 5, One(Bypassing(8, 0))), MUCH),
    Calls(2, GivesUpId(4), Done),
    Calls(2, AsksWithin(2, AtOnce, 5, One(Bypassing(8, 0))), Granted),
    Requests(4),
];

/// A quota counts all present requests of its own job, the waiting ones too, and is looked at behind
/// levels and the want of a vector.
#[test]
fn quotas(rt: HostRuntime) {
    walk(&rt, rt.alloc(), &QUOTAS);
}

/// The rows of `groups`.
static GROUPS: [Row; 11] = [
    Calls(1, Asks(Blocking, 1, One(Grouped(5, 1))), Granted),
    Calls(2, Asks(Blocking, 2, One(Grouped(5, 2))), Queued),
    Calls(3, Asks(Blocking, 3, One(Grouped(5, 1))), Queued),
    Grants(1, GivesUp(One(Shared(5, 0))), Done, &[(2, 2)]),
    Grants(2, GivesUp(One(Shared(5, 0))), Done, &[(3, 3)]),
    Calls(3, Changes(One(Alone(5, 0))), Done),
    Calls(1, Asks(Blocking, 4, One(Grouped(5, 0))), Queued),
    Calls(3, Changes(One(Shared(5, 0))), Done),
    AreGranted(&[3, 4]),
    Calls(2, Asks(Blocking, 5, One(Grouped(5, 0))), Granted),
    Calls(3, Changes(One(Alone(5, 0))), LOST),
];

#[test]
fn groups(rt: HostRuntime) {
    walk(&rt, rt.alloc(), &GROUPS);
}

/// The rows of `list_of_calls`.
static LIST_OF_CALLS: [Row; 2] = [Lists, Requests(1)];

#[test]
fn list_of_calls(rt: HostRuntime) {
    walk(&rt, rt.alloc(), &LIST_OF_CALLS);
}

/// The tables that are walked on a new pair of tables each.
static TABLES: [Table; 2] = [
    // A job that was just logged in has as many requests as it may have.
    Table {
        name: "quota_of_a_new_job",
        rows: &[
            FillsQuota(1, 64),
            Code(1, AsksWithin(64, AtOnce, 0, One(Bypassing(0, 0))), 16),
            Requests(64),
        ],
    },
    Table {
        name: "waits_end_together",
        rows: &[
            Calls(1, Asks(Blocking, 1, One(Shared(5, 0))), Granted),
            Calls(2, Asks(Blocking, 2, One(Alone(5, 0))), Queued),
            Calls(3, Asks(Blocking, 3, One(Shared(5, 0))), Queued),
            WithdrawsAll(1 << 2 | 1 << 3),
            AreGranted(&[1]),
            Requests(1),
            Calls(2, Asks(Blocking, 2, One(Alone(5, 0))), Queued),
            Calls(3, Asks(Blocking, 3, One(Shared(5, 0))), Queued),
            WithdrawsAll(1 << 1 | 1 << 2),
            AreGranted(&[1, 3]),
            Requests(2),
        ],
    },
];

#[test]
fn tables_hold(rt: HostRuntime) {
    walk_all(&rt, rt.alloc(), &TABLES);
}
