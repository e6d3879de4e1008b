//! Each code with which the queue refuses a call, and the order of the codes.

use crate::build::Call::{Asks, AsksUnarmed, Changes, GivesUp, GivesUpAll, GivesUpId};
use crate::build::Lock::{Alone, OfPool, Shared};
use crate::build::Locks::{One, Two};
use crate::two_tables::walk_all;
use crate::walk::Row::{Code, Granted, Requests};
use crate::walk::Table;
use lock_queue::EnqueueKind::{AtOnce, Blocking};

/// The tables that are walked on a new pair of tables each.
static TABLES: [Table; 2] = [
    Table {
        name: "each_code",
        rows: &[
            Code(1, Asks(AtOnce, 1, One(Alone(1, 3))), 0),
            Code(1, Asks(AtOnce, 2, One(OfPool(2, 3, 1))), 10),
            Code(2, Asks(AtOnce, 3, One(OfPool(2, 3, 1))), 0),
            Code(2, Asks(AtOnce, 4, One(Alone(1, 3))), 1),
            Code(2, Changes(One(Shared(2, 0))), 8),
            Code(2, Changes(One(Alone(2, 0))), 0),
            Code(2, Asks(AtOnce, 5, One(Alone(1, 0))), 9),
            Code(2, Asks(AtOnce, 6, One(Alone(2, 0))), 9),
            Code(2, Asks(AtOnce, 7, Two(Alone(3, 3), Alone(3, 4))), 11),
            Code(1, Asks(AtOnce, 8, One(Alone(1, 3))), 11),
            Code(2, GivesUp(One(Alone(1, 0))), 12),
            Code(2, Changes(One(Alone(1, 0))), 12),
            Code(2, GivesUpId(1), 12),
            Code(3, GivesUpAll, 12),
            Code(2, GivesUp(Two(Alone(2, 0), Alone(2, 0))), 11),
            Code(3, AsksUnarmed(1, One(Alone(3, 0))), 15),
            Code(3, AsksUnarmed(1, Two(Alone(3, 0), Alone(4, 0))), 10),
            Requests(2),
        ],
    },
    // The first job lets the fourth share its lock, and then cannot have it alone again.
    Table {
        name: "change_that_takes_a_grant",
        rows: &[
            Code(1, Asks(AtOnce, 1, One(Alone(1, 3))), 0),
            Code(4, Asks(Blocking, 5, One(Shared(1, 3))), 0),
            Granted(&[1]),
            Code(1, Changes(One(Shared(1, 0))), 0),
            Granted(&[1, 5]),
            Code(1, Changes(One(Alone(1, 0))), 13),
            Granted(&[1, 5]),
        ],
    },
];

#[test]
fn tables_hold(rt: HostRuntime) {
    walk_all(&rt, rt.alloc(), &TABLES);
}
