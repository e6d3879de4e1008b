//! Which requests a call grants, and in what order.

use crate::build::Call::{Asks, Changes, GivesUp, GivesUpAll};
use crate::build::Lock::{Alone, OfPool, Shared};
use crate::build::Locks::One;
use crate::two_tables::walk_all;
use crate::walk::Row::{Calls, Granted as AreGranted, Grants, ReleaseGrants, WithdrawalGrants};
use crate::walk::Table;
use lock_queue::EnqueueKind::{Blocking, Interrupt};
use lock_queue::LockReply::{Done, Granted, Queued};
use lock_queue::{LockReply, Refusal};

const X: u32 = 1;

const Y: u32 = 2;

const T: u32 = 7;

const ABSENT: LockReply = LockReply::Refused(Refusal::NotPresent);

const NOT_GRANTED: LockReply = LockReply::Refused(Refusal::NotGranted);

/// The tables that are walked on a new pair of tables each.
static TABLES: [Table; 5] = [
    Table {
        name: "release_grants_the_next",
        rows: &[
            Calls(1, Asks(Blocking, 1, One(Alone(X, 0))), Granted),
            Grants(2, Asks(Blocking, 2, One(Alone(X, 0))), Queued, &[]),
            Grants(1, GivesUp(One(Alone(X, 0))), Done, &[(2, 2)]),
            // It has its grant already, so nothing is granted by the next call, nor by one that is refused.
            Grants(1, Asks(Blocking, 3, One(Alone(Y, 0))), Granted, &[]),
            Grants(1, GivesUp(One(Alone(X, 0))), ABSENT, &[]),
        ],
    },
    Table {
        name: "job_that_is_gone_grants_the_sharer_behind_it",
        rows: &[
            Calls(1, Asks(Blocking, 1, One(Shared(X, 0))), Granted),
            Calls(2, Asks(Blocking, 2, One(Alone(X, 0))), Queued),
            Calls(3, Asks(Blocking, 3, One(Shared(X, 0))), Queued),
            ReleaseGrants(2, &[(3, 3)]),
            ReleaseGrants(1, &[]),
        ],
    },
    Table {
        name: "waits_that_end_together_grant_those_behind_them",
        rows: &[
            Calls(1, Asks(Blocking, 1, One(Shared(X, 0))), Granted),
            Calls(2, Asks(Blocking, 2, One(Alone(X, 0))), Queued),
            Calls(3, Asks(Blocking, 3, One(Shared(X, 0))), Queued),
            Calls(4, Asks(Interrupt, 4, One(Shared(X, 0))), NOT_GRANTED),
            Calls(5, Asks(Blocking, 5, One(Alone(X, 0))), Queued),
            // Who leaves is not granted, though it would fit behind those that stay; what is granted stays.
            WithdrawalGrants(1 << 1 | 1 << 2 | 1 << 3, &[(4, 4)]),
            AreGranted(&[1, 4]),
            Calls(6, Asks(Blocking, 6, One(Shared(X, 0))), Queued),
            WithdrawalGrants(1 << 4 | 1 << 6, &[]),
            Calls(3, Asks(Blocking, 7, One(Shared(X, 0))), Queued),
            WithdrawalGrants(1 << 5, &[(3, 7)]),
        ],
    },
    Table {
        name: "pool_grants_in_order_of_arrival",
        rows: &[
            Calls(1, Asks(Blocking, 1, One(OfPool(T, 5, 2))), Granted),
            Calls(2, Asks(Blocking, 2, One(OfPool(T, 5, 4))), Queued),
            Calls(3, Asks(Blocking, 3, One(OfPool(T, 5, 1))), Queued),
            Grants(1, GivesUpAll, Done, &[(2, 2), (3, 3)]),
        ],
    },
    Table {
        name: "change_grants_an_interrupt_request_and_a_waiter",
        rows: &[
            Calls(1, Asks(Blocking, 1, One(Alone(X, 0))), Granted),
            Calls(2, Asks(Interrupt, 9, One(Shared(X, 0))), NOT_GRANTED),
            Calls(3, Asks(Blocking, 4, One(Shared(X, 0))), Queued),
            Grants(1, Changes(One(Shared(X, 0))), Done, &[(2, 9), (3, 4)]),
        ],
    },
];

#[test]
fn tables_hold(rt: HostRuntime) {
    walk_all(&rt, rt.alloc(), &TABLES);
}
