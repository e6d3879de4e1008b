//! Requests that interrupt, and calls that leave or show requests.
ghost use Rattle.std.specs.Prelude.{IsTrue};
ghost use Rattle.lock_queue.specs.WellFormed.{names_locks, all_share_rightly};

use crate::build::Call::{Asks, GivesUpAll, GivesUpId};
use crate::build::Lock::{Alone, Bypassing};
use crate::build::Locks::{One, Two};
use crate::build::{ANY_QUOTA, alone, one};
use crate::two_tables::Trial::Scopes;
use crate::two_tables::{on_tables, walk_all};
use crate::walk::Row::{
    Calls, Clears, Granted as GrantedIds, Pending, Requests, Status, Tells, Withdraws,
};
use crate::walk::Table;
use lock_queue::EnqueueKind::{AtOnce, Blocking, Interrupt};
use lock_queue::LockReply::{Done, Granted, Queued};
use lock_queue::{
    Asking, EnqueueKind, Key, LockCall, LockReply, LockTable, Name, NameText, Refusal, RequestId,
    Scope,
};
use std::process::Abort;

const NOT_GRANTED: LockReply = LockReply::Refused(Refusal::NotGranted);

const ABSENT: LockReply = LockReply::Refused(Refusal::NotPresent);

/// Job 1 asks for a lock of the name TAPE, that of all jobs or its own.
fn ask_for_tape(rt: &impl Abort, scope: Scope) -> LockCall
    ensures named { IsTrue (names_locks result) }
    ensures unshared { IsTrue (all_share_rightly result) }
{
    let name = NameText::new("TAPE").expect(rt, "a name");
    let mut tape = alone(0, 0);
    tape.key = Key {
        scope,
        name: Name::Text(name),
    };
    LockCall::Enqueue {
        asking: Asking {
            kind: EnqueueKind::AtOnce,
            id: RequestId::new(1),
            armed: true,
            quota: ANY_QUOTA,
        },
        wants: one(tape),
    }
}

/// Three jobs ask for the lock `TAPE` of three scopes: each is granted.
pub fn ask_by_scopes<L: LockTable>(rt: &impl Abort, table: &mut L) {
    for (job, scope) in [(1, Scope::Job(1)), (2, Scope::Job(2)), (3, Scope::All)] {
        assert_eq!(rt;
            table.call(job, &ask_for_tape(rt, scope)),
            LockReply::Granted
        );
    }
}

#[test]
fn names_are_told_apart_by_scope(rt: HostRuntime) {
    on_tables(&rt, rt.alloc(), Scopes);
}

/// The tables that are walked on a new pair of tables each.
static TABLES: [Table; 3] = [
    Table {
        name: "grants_are_told_in_order",
        rows: &[
            Calls(1, Asks(Blocking, 1, Two(Alone(1, 0), Alone(2, 1))), Granted),
            Calls(2, Asks(Interrupt, 9, One(Alone(1, 0))), NOT_GRANTED),
            Calls(2, Asks(Interrupt, 8, One(Alone(2, 1))), NOT_GRANTED),
            Calls(2, Asks(Interrupt, 7, One(Alone(3, 2))), Granted),
            Pending(2, None),
            Calls(1, GivesUpAll, Done),
            Pending(2, Some(9)),
            Tells(2),
            Pending(2, Some(8)),
            Tells(2),
            Pending(2, None),
        ],
    },
    Table {
        name: "waiting_request_is_withdrawn",
        rows: &[
            Calls(1, Asks(Blocking, 1, One(Alone(1, 0))), Granted),
            Calls(2, Asks(Blocking, 2, One(Alone(2, 1))), Granted),
            Calls(2, Asks(Blocking, 3, One(Bypassing(1, 0))), Queued),
            Withdraws(2),
            Requests(2),
            GrantedIds(&[1, 2]),
            Clears,
            Requests(0),
            Status(1, 1, [0, 0, 0]),
        ],
    },
    Table {
        name: "requests_of_an_id_leave_together",
        rows: &[
            Calls(1, Asks(AtOnce, 6, One(Bypassing(1, 0))), Granted),
            Calls(1, Asks(AtOnce, 6, One(Bypassing(2, 0))), Granted),
            Calls(1, Asks(AtOnce, 6, One(Bypassing(3, 0))), Granted),
            Calls(1, Asks(AtOnce, 5, One(Bypassing(4, 0))), Granted),
            Calls(2, Asks(AtOnce, 6, One(Bypassing(5, 0))), Granted),
            Calls(1, GivesUpId(6), Done),
            GrantedIds(&[5, 6]),
            Calls(1, GivesUpId(6), ABSENT),
        ],
    },
];

#[test]
fn tables_hold(rt: HostRuntime) {
    walk_all(&rt, rt.alloc(), &TABLES);
}
