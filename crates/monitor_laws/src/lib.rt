//! The laws of the machine: what every event and every run keep. Each function does nothing: its contract is
//! a law.
#![tactic(auto)]

ghost use Rattle.std.specs.Prelude.{ℕ, ◌≤◌, List};
ghost use Rattle.word36.specs.declared.sizes.TheConstants.{MOST_BLOCKS};
ghost use Rattle.lock_laws.specs.Circles.{NoPlainCircle};
ghost use Rattle.machine.specs.Alone.{RunsAlone};
ghost use Rattle.machine.specs.Limits.{GrantsStopLimits, LimitsAreKept, LimitsCount, LimitsLeaveTheirCode};
ghost use Rattle.machine.specs.Machine.{S, at_boot, happens};
ghost use Rattle.machine.specs.Owners.{KeepsOwners};
ghost use Rattle.machine.specs.Safe.{Safe};
ghost use Rattle.machine.specs.Waits.{WaitsForGrants};
ghost use Rattle.machine.specs.declared.event.Event.{Event as EventView};

/// The state at boot is safe, and each event keeps a safe state safe.
pub fn states_are_safe()
    ensures boot { (size blocks quantum : ℕ) → blocks ≤ MOST_BLOCKS → Safe (at_boot size blocks quantum) }
    ensures events { (s : S) (e : EventView) → Safe s → Safe (happens s e).state }
{}

/// In a safe state a job has a blocking request that is not granted exactly where it waits for it.
pub fn waits_are_for_grants()
    ensures { (s : S) → Safe s → WaitsForGrants s.world }
{}

/// In a safe state, jobs that ask for one lock at a time, by rising levels, do not wait in a circle.
pub fn plain_jobs_make_no_circle()
    ensures { (s : S) → Safe s → NoPlainCircle s.world.requests }
{}

/// A job loses a key only by an event that gives it up.
pub fn owners_are_kept()
    ensures { (s : S) (e : EventView) → KeepsOwners s e }
{}

/// From a safe state a job among others runs as it does alone.
pub fn jobs_run_alone()
    ensures { (s : S) (events : List EventView) → Safe s → RunsAlone s events }
{}

/// The limit of a wait counts ticks as long as the wait holds, and at the last tick the job's call is
/// refused: from a safe state, its accumulator then holds 21 octal, the code. From a safe state, where nobody
/// starts or kills the job or restarts the machine, the request is granted before, or the call is refused.
pub fn limits_are_kept()
    ensures ticks { (s : S) → LimitsCount s }
    ensures codes { (s : S) → Safe s → LimitsLeaveTheirCode s }
    ensures grants { (s : S) → GrantsStopLimits s }
    ensures runs { (s : S) (events : List EventView) → Safe s → LimitsAreKept s events }
{}
