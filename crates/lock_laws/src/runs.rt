//! A list of calls on a table, and what holds after each of them.
ghost use Rattle.std.specs.Prelude.{◌≡◌, [], length, IsTrue};
ghost use Rattle.std.specs.List.{list_all};
ghost use Rattle.lock_queue.specs.Calls.{replies_to, requests_after};
ghost use Rattle.lock_queue.specs.WellFormed.{is_call};
ghost use Rattle.lock_laws.specs.Runs.{AlwaysKeepsOwners, AlwaysSafe, CallersAreFree, NeverPlainCircle};

use lock_queue::{LockCall, LockReply, LockTable, run_calls};

/// Empties the table, makes a list of calls, one after the other, each with its job, and writes each answer.
pub fn run_safely<L: LockTable>(table: &mut L, calls: &[(u8, LockCall)], replies: &mut [LockReply])
    requires positions { length calls.now ≡ length replies.old }
    requires calls { IsTrue (list_all (λ c. is_call c.0 c.1) calls.now) }
    ensures requests { L.requests table.new ≡ requests_after L.REQS [] calls.now }
    ensures replies { replies.new ≡ replies_to L.REQS [] calls.now }
    ensures safe { AlwaysSafe L.REQS calls.now }
    ensures owners { AlwaysKeepsOwners L.REQS calls.now }
    ensures circles { CallersAreFree L.REQS calls.now → NeverPlainCircle L.REQS calls.now }
{
    table.clear();
    run_calls(table, calls, replies);
}
