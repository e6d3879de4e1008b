//! Tables that do not hold the same: the comparison has to say so.

use crate::build::Call::{Asks, GivesUpAll};
use crate::build::Lock::{Alone, Bypassing, Grouped, OfPool, Shared};
use crate::build::Locks::{One, Two};
use crate::two_tables::Trial::Apart;
use crate::two_tables::on_tables;
use crate::walk::Row;
use crate::walk::Row::{Calls, Tells};
use lock_queue::EnqueueKind::{AtOnce, Blocking, Interrupt};
use lock_queue::LockReply::{Done, Granted, Refused};
use lock_queue::{LockReply, Refusal};

const NOT_GRANTED: LockReply = Refused(Refusal::NotGranted);

/// What is walked on one table and on the other, which differ in one thing then.
static APART: [(&[Row], &[Row]); 18] = [
    // the id
    (
        &[Calls(1, Asks(AtOnce, 1, One(Alone(1, 1))), Granted)],
        &[Calls(1, Asks(AtOnce, 2, One(Alone(1, 1))), Granted)],
    ),
    // the kind
    (
        &[Calls(1, Asks(AtOnce, 1, One(Alone(1, 1))), Granted)],
        &[Calls(1, Asks(Blocking, 1, One(Alone(1, 1))), Granted)],
    ),
    // the key
    (
        &[Calls(1, Asks(AtOnce, 1, One(Alone(1, 1))), Granted)],
        &[Calls(1, Asks(AtOnce, 1, One(Alone(2, 1))), Granted)],
    ),
    // sharing
    (
        &[Calls(1, Asks(AtOnce, 1, One(Alone(1, 1))), Granted)],
        &[Calls(1, Asks(AtOnce, 1, One(Shared(1, 1))), Granted)],
    ),
    // the group
    (
        &[Calls(1, Asks(AtOnce, 1, One(Grouped(1, 1))), Granted)],
        &[Calls(1, Asks(AtOnce, 1, One(Grouped(1, 2))), Granted)],
    ),
    // bypass
    (
        &[Calls(1, Asks(AtOnce, 1, One(Alone(1, 1))), Granted)],
        &[Calls(1, Asks(AtOnce, 1, One(Bypassing(1, 1))), Granted)],
    ),
    // the level
    (
        &[Calls(1, Asks(AtOnce, 1, One(Alone(1, 1))), Granted)],
        &[Calls(1, Asks(AtOnce, 1, One(Alone(1, 2))), Granted)],
    ),
    // the amount
    (
        &[Calls(1, Asks(AtOnce, 1, One(OfPool(1, 5, 2))), Granted)],
        &[Calls(1, Asks(AtOnce, 1, One(OfPool(1, 5, 3))), Granted)],
    ),
    // the size of the pool
    (
        &[Calls(1, Asks(AtOnce, 1, One(OfPool(1, 5, 2))), Granted)],
        &[Calls(1, Asks(AtOnce, 1, One(OfPool(1, 6, 2))), Granted)],
    ),
    // whether there is a pool
    (
        &[Calls(1, Asks(AtOnce, 1, One(OfPool(1, 5, 2))), Granted)],
        &[Calls(1, Asks(AtOnce, 1, One(Alone(1, 0))), Granted)],
    ),
    // how many locks
    (
        &[Calls(1, Asks(AtOnce, 1, One(Alone(1, 1))), Granted)],
        &[Calls(1, Asks(AtOnce, 1, Two(Alone(1, 1), Alone(2, 2))), Granted)],
    ),
    // their order
    (
        &[Calls(
            1,
            Asks(AtOnce, 1, Two(Bypassing(1, 0), Bypassing(2, 0))),
            Granted,
        )],
        &[Calls(
            1,
            Asks(AtOnce, 1, Two(Bypassing(2, 0), Bypassing(1, 0))),
            Granted,
        )],
    ),
    // whose request it is
    (
        &[Calls(1, Asks(AtOnce, 1, One(Alone(1, 0))), Granted)],
        &[Calls(2, Asks(AtOnce, 1, One(Alone(1, 0))), Granted)],
    ),
    // how many there are
    (&[Calls(1, Asks(AtOnce, 1, One(Alone(1, 0))), Granted)], &[]),
    (
        &[Calls(1, Asks(AtOnce, 1, One(Alone(1, 0))), Granted)],
        &[
            Calls(1, Asks(AtOnce, 1, One(Alone(1, 0))), Granted),
            Calls(2, Asks(AtOnce, 1, One(Alone(2, 0))), Granted),
        ],
    ),
    // and in which order
    (
        &[
            Calls(1, Asks(AtOnce, 1, One(Alone(1, 0))), Granted),
            Calls(2, Asks(AtOnce, 1, One(Alone(2, 0))), Granted),
        ],
        &[
            Calls(2, Asks(AtOnce, 1, One(Alone(2, 0))), Granted),
            Calls(1, Asks(AtOnce, 1, One(Alone(1, 0))), Granted),
        ],
    ),
    // whether a job was notified
    (
        &[
            Calls(1, Asks(AtOnce, 1, One(Alone(1, 0))), Granted),
            Calls(2, Asks(Interrupt, 9, One(Alone(1, 0))), NOT_GRANTED),
            Calls(1, GivesUpAll, Done),
            Tells(2),
        ],
        &[
            Calls(1, Asks(AtOnce, 1, One(Alone(1, 0))), Granted),
            Calls(2, Asks(Interrupt, 9, One(Alone(1, 0))), NOT_GRANTED),
            Calls(1, GivesUpAll, Done),
        ],
    ),
    // and whether a request is granted
    (
        &[
            Calls(1, Asks(AtOnce, 1, One(Alone(1, 0))), Granted),
            Calls(2, Asks(Interrupt, 9, One(Alone(1, 0))), NOT_GRANTED),
        ],
        &[
            Calls(1, Asks(AtOnce, 1, One(Alone(1, 0))), Granted),
            Calls(2, Asks(Interrupt, 9, One(Alone(1, 0))), NOT_GRANTED),
            Calls(1, GivesUpAll, Done),
        ],
    ),
];

#[test]
fn tables_that_differ_are_told_apart(rt: HostRuntime) {
    for (first, second) in &APART {
        on_tables(&rt, rt.alloc(), Apart(*first, *second));
        on_tables(&rt, rt.alloc(), Apart(*second, *first));
    }
}
