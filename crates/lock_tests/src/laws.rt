//! Lists of calls on the plain table, and each law once.

ghost use Rattle.std.specs.Prelude.{length, nat_le, IsTrue};
ghost use Rattle.std.specs.List.{list_all};
ghost use Rattle.lock_queue.specs.WellFormed.{names_locks, shares_rightly, all_share_rightly};

use lock_laws::{
    askers_are_told_alike, calls_are_safe, calls_leave_the_rest, circles_are_told,
    jobs_keep_their_locks, no_requests_are_safe, owners_are_kept, owners_are_one_party,
    plain_jobs_make_no_circle, queue_without_groups_is_simple, run_safely, safety_is_kept,
    waits_are_by_latest, waits_are_kept, well_formedness_is_kept,
};
use lock_queue::{
    Asking, EnqueueKind, Group, Key, Level, LockCall, LockReply, LockTable, Name, Pool, RequestId,
    Scope, UserCode, Want, Wants,
};
use plain_table::PlainTable;
use std::test::Fail;

/// A quota that no table can hold more requests than.
const ANY_QUOTA: u16 = 1025;

/// So many of the five tape drives.
fn drives(amount: u32) -> Wants
    ensures some { IsTrue (nat_le 1 (length result.items)) }
    ensures unshared { IsTrue (list_all shares_rightly result.items) }
{
    let mut wants = Wants::new();
    wants.push(Want {
        key: Key {
            scope: Scope::All,
            name: Name::Code(UserCode::new(1)),
        },
        shared: false,
        group: Group::new(0),
        bypass: false,
        level: Level::new(0),
        pool: Pool::new(5, amount),
    });
    wants
}

fn ask(amount: u32) -> LockCall
    ensures named { IsTrue (names_locks result) }
    ensures unshared { IsTrue (all_share_rightly result) }
{
    LockCall::Enqueue {
        asking: Asking {
            kind: EnqueueKind::Blocking,
            id: RequestId::new(1),
            armed: false,
            quota: ANY_QUOTA,
        },
        wants: drives(amount),
    }
}

#[test]
fn small_request_does_not_pass_a_large_one(rt: HostRuntime) -> Result<(), Fail> {
    let mut table: PlainTable<4> = PlainTable::new(rt.alloc())?;
    let calls = [(1, ask(2)), (2, ask(4)), (3, ask(1))];
    let mut replies = [LockReply::Done; 3];
    run_safely(&mut table, &calls, &mut replies);
    assert_eq!(rt;
        replies,
        [LockReply::Granted, LockReply::Queued, LockReply::Queued]
    );
    assert!(rt; table.is_waiting(2) && table.is_waiting(3));

    let calls = [
        (1, ask(2)),
        (2, ask(4)),
        (3, ask(1)),
        (1, LockCall::DequeueNamed(drives(2))),
    ];
    let mut replies = [LockReply::Queued; 4];
    run_safely(&mut table, &calls, &mut replies);
    assert_eq!(rt;
        replies,
        [
            LockReply::Granted,
            LockReply::Queued,
            LockReply::Queued,
            LockReply::Done
        ]
    );
    assert_eq!(rt; table.len(), 2);
    assert!(rt; !table.is_waiting(2) && !table.is_waiting(3));
    Ok(())
}

#[test]
fn laws_hold(rt: HostRuntime) -> Result<(), Fail> {
    let table: PlainTable<4> = PlainTable::new(rt.alloc())?;
    askers_are_told_alike(&table);
    calls_are_safe();
    jobs_keep_their_locks();
    plain_jobs_make_no_circle();
    safety_is_kept();
    owners_are_kept();
    owners_are_one_party();
    queue_without_groups_is_simple();
    waits_are_by_latest();
    no_requests_are_safe();
    well_formedness_is_kept();
    waits_are_kept();
    calls_leave_the_rest();
    circles_are_told();
    Ok(())
}
