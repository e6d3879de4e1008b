//! ENQ. function 3, of several locks at once.

use crate::build::Call;
use crate::build::Call::{Asks, Changes, GivesUp};
use crate::build::Lock::{Alone, Grouped, OfPool, Shared};
use crate::build::Locks::{One, Two};
use crate::two_tables::{walk, walk_all};
use crate::walk::Row::{Calls, Granted, Grants, Status};
use crate::walk::{Row, Table};
use lock_queue::EnqueueKind::{Blocking, Interrupt};
use lock_queue::LockReply::{Done, Granted as Owned, Queued};
use lock_queue::{LockReply, Refusal};

const X: u32 = 1;

const Y: u32 = 2;

const LOST: LockReply = LockReply::Refused(Refusal::WouldLose);

const LATER: LockReply = LockReply::Refused(Refusal::NotGranted);

const POOLED: LockReply = LockReply::Refused(Refusal::BadPool);

const ABSENT: LockReply = LockReply::Refused(Refusal::NotPresent);

/// Two locks are changed for oneself.
const BOTH: Call = Changes(Two(Alone(X, 0), Alone(Y, 0)));

/// Two locks are asked for.
const ASK: Call = Asks(Blocking, 1, Two(Alone(X, 0), Alone(Y, 1)));

/// The same two are asked for, to be shared.
const FOLLOW: Call = Asks(Blocking, 2, Two(Shared(X, 0), Shared(Y, 1)));

/// A change of each lock by a call of its own.
static BY_TWO_CALLS: [Row; 10] = [
    Calls(1, ASK, Owned),
    Calls(2, FOLLOW, Queued),
    Calls(3, Asks(Blocking, 3, One(Shared(Y, 1))), Queued),
    Grants(1, Changes(One(Shared(X, 0))), Done, &[]),
    Granted(&[1]),
    Grants(1, Changes(One(Shared(Y, 0))), Done, &[(2, 2), (3, 3)]),
    Granted(&[1, 2, 3]),
    // Now nobody has a lock alone, and job 1 cannot have one back.
    Grants(1, Changes(Two(Shared(X, 0), Alone(Y, 0))), LOST, &[]),
    Grants(3, Changes(Two(Shared(Y, 0), Shared(X, 0))), ABSENT, &[]),
    Granted(&[1, 2, 3]),
];

/// A change of both locks by one call.
static BY_ONE_CALL: [Row; 5] = [
    Calls(1, ASK, Owned),
    Calls(2, FOLLOW, Queued),
    Calls(3, Asks(Blocking, 3, One(Shared(Y, 1))), Queued),
    Grants(
        1,
        Changes(Two(Shared(Y, 0), Shared(X, 0))),
        Done,
        &[(2, 2), (3, 3)],
    ),
    Granted(&[1, 2, 3]),
];

/// A request of two locks is granted where a change makes both of them shared, by one call or by two.
#[test]
fn change_of_two_locks_lets_a_request_of_both_in(rt: HostRuntime) {
    walk(&rt, rt.alloc(), &BY_TWO_CALLS);
    walk(&rt, rt.alloc(), &BY_ONE_CALL);
}

/// The tables that are walked on a new pair of tables each.
static TABLES: [Table; 3] = [
    // The second of two locks cannot be had alone, so the first stays shared too.
    Table {
        name: "change_of_two_locks_is_made_whole_or_not_at_all",
        rows: &[
            Calls(1, Asks(Blocking, 1, Two(Shared(X, 0), Shared(Y, 1))), Owned),
            Calls(2, Asks(Blocking, 2, One(Shared(Y, 1))), Owned),
            Grants(1, BOTH, LOST, &[]),
            Status(1, X, [0o200000_000001, 0o000001_000000, 0]),
            Status(1, Y, [0o200001_000001, 0o000002_000000, 0]),
            Calls(2, GivesUp(One(Alone(Y, 0))), Done),
            Grants(1, BOTH, Done, &[]),
            Status(1, X, [0o240000_000001, 0o000001_000000, 0]),
            Status(1, Y, [0o240001_000001, 0o000001_000000, 0]),
        ],
    },
    // A waiter that no longer shares keeps the one behind it out, and lets it in again.
    Table {
        name: "change_of_a_waiter_moves_those_behind_it",
        rows: &[
            Calls(1, Asks(Blocking, 1, One(Shared(X, 0))), Owned),
            Calls(2, Asks(Interrupt, 2, One(Alone(X, 0))), LATER),
            Calls(3, Asks(Interrupt, 3, One(Shared(X, 0))), LATER),
            Grants(2, Changes(One(Shared(X, 0))), Done, &[(2, 2), (3, 3)]),
            Grants(2, Changes(One(Alone(X, 0))), LOST, &[]),
            Calls(1, GivesUp(One(Alone(X, 0))), Done),
            Grants(2, Changes(One(Alone(X, 0))), LOST, &[]),
            Grants(3, Changes(One(Alone(X, 0))), LOST, &[]),
            Granted(&[2, 3]),
        ],
    },
    // A lock that stays shared keeps its group, one that becomes shared has none, and a pool is not shared.
    Table {
        name: "change_of_groups_and_pools",
        rows: &[
            Calls(1, Asks(Blocking, 1, One(Grouped(X, 3))), Owned),
            Calls(1, Changes(One(Grouped(X, 7))), Done),
            Calls(2, Asks(Blocking, 2, One(Grouped(X, 3))), Owned),
            Calls(2, GivesUp(One(Alone(X, 0))), Done),
            Calls(1, Changes(One(Alone(X, 0))), Done),
            Calls(1, Changes(One(Grouped(X, 7))), Done),
            Calls(2, Asks(Blocking, 2, One(Grouped(X, 7))), Queued),
            Calls(3, Asks(Blocking, 3, One(OfPool(Y, 5, 2))), Owned),
            Calls(3, Changes(One(Shared(Y, 0))), POOLED),
            Calls(3, Changes(One(Alone(Y, 0))), Done),
            Status(3, Y, [0o200000_000003, 0o000001_000000, 2]),
        ],
    },
];

#[test]
fn tables_hold(rt: HostRuntime) {
    walk_all(&rt, rt.alloc(), &TABLES);
}
