//! What a waiting job may count on: no request comes in front of its own, no wake-up is lost, a job that may
//! run does run, and how long a wait for a lock can last. Each function does nothing: its contract is a law.
#![tactic(auto)]

ghost use Rattle.std.specs.Prelude.{ℕ, ◌≤◌, List};
ghost use Rattle.word36.specs.declared.sizes.TheConstants.{MOST_BLOCKS};
ghost use Rattle.machine.specs.Machine.{S, at_boot, happens};
ghost use Rattle.machine.specs.Safe.{Safe};
ghost use Rattle.machine.specs.declared.event.Event.{Event as EventView};
ghost use Rattle.progress_laws.specs.Arrivals.{FrontStaysOver, FrontThinsAlong, FrontThinsOver, InFrontOver, NobodyInFrontAlong};
ghost use Rattle.progress_laws.specs.Fronts.{NobodyComesInFront};
ghost use Rattle.progress_laws.specs.Kept.{IsSound};
ghost use Rattle.progress_laws.specs.Levels.{IsGrantedByLevels};
ghost use Rattle.progress_laws.specs.OneRequest.{IsGrantedByOneRequest};
ghost use Rattle.progress_laws.specs.Promises.{EventKeeps, RunKeeps};
ghost use Rattle.progress_laws.specs.Rounds.{HasJobs, KeepsTime, RunsInTime, RunsInTimeAmongAll, RunsInTimeAmongLines};
ghost use Rattle.progress_laws.specs.Rounds.{RunsInTimeAmongThese, has_low_number};
ghost use Rattle.progress_laws.specs.Together.{GoesOnInTime, IsGrantedInTime};
ghost use Rattle.progress_laws.specs.Wakes.{FirstIsGranted, GrantedAreReady, IsWellFormed, NobodyWaitsPastALimit, WaitersWaitForOthers};
ghost use Rattle.progress_laws.specs.Wakes.{WhoHasRoomIsGranted};

/// The state at boot is sound, and each event keeps a sound state sound.
pub fn states_are_sound()
    ensures boot { (size blocks quantum : ℕ) → blocks ≤ MOST_BLOCKS → 1 ≤ quantum → IsSound (at_boot size blocks quantum) }
    ensures events { (s : S) (e : EventView) → IsSound s → IsSound (happens s e).state }
{}

/// From a sound state each event and each run keeps what is promised of it.
pub fn promises_are_kept()
    ensures events { (s : S) (e : EventView) → IsSound s → EventKeeps s e (happens s e).state }
    ensures runs { (s : S) (events : List EventView) → IsSound s → RunKeeps s events }
{}

/// From a safe state that keeps time, a job that is ready before each step of a run makes one of them, where
/// the run has more rounds than a quantum for each other job.
pub fn who_may_run_does_run()
    ensures jobs { (s : S) (events : List EventView) → Safe s → KeepsTime s → RunsInTime s events }
    ensures all { (s : S) (events : List EventView) → Safe s → KeepsTime s → RunsInTimeAmongAll s events }
    ensures lines { (s : S) (events : List EventView) → Safe s → KeepsTime s → HasJobs has_low_number s → RunsInTimeAmongLines s events }
    ensures these { (s : S) (events : List EventView) → Safe s → KeepsTime s → RunsInTimeAmongThese s events }
{}

/// The state at boot keeps time, and so does each state after it.
pub fn time_is_kept()
    ensures boot { (size blocks quantum : ℕ) → 1 ≤ quantum → KeepsTime (at_boot size blocks quantum) }
    ensures events { (s : S) (e : EventView) → KeepsTime s → KeepsTime (happens s e).state }
{}

/// No job has a number above the number of lines.
pub fn numbers_stay_low()
    ensures boot { (size blocks quantum : ℕ) → HasJobs has_low_number (at_boot size blocks quantum) }
    ensures events { (s : S) (e : EventView) → Safe s → HasJobs has_low_number s → HasJobs has_low_number (happens s e).state }
{}

/// No change of the list of requests puts a request in front of one that is present, and none but ENQ.
/// function 3 makes an exclusive want shared or a shared one exclusive.
pub fn calls_let_nobody_in_front()
    ensures { (size : ℕ) → NobodyComesInFront size }
{}

/// No event and no run puts a request in front of one that is present.
pub fn nobody_comes_in_front()
    ensures events { (s : S) (e : EventView) → InFrontOver s e }
    ensures runs { (s : S) (events : List EventView) → NobodyInFrontAlong s events }
{}

/// In a safe state, the requests in front of the one by which a job wants a key only leave: over an event,
/// and over a run as long as the job wants the key.
pub fn what_is_in_front_only_leaves()
    ensures events { (s : S) (e : EventView) → Safe s → FrontThinsOver s e }
    ensures others { (s : S) (e : EventView) → Safe s → FrontStaysOver s e }
    ensures runs { (s : S) (events : List EventView) → Safe s → FrontThinsAlong s events }
{}

/// The requests at boot are well-formed, and each event keeps them so.
pub fn requests_stay_well_formed()
    ensures boot { (size blocks quantum : ℕ) → IsWellFormed (at_boot size blocks quantum) }
    ensures events { (s : S) (e : EventView) → Safe s → IsWellFormed s → IsWellFormed (happens s e).state }
{}

/// A request is granted where there is room for each of its wants, and where no earlier request wants one of
/// its keys. In a safe state a job that waits for a grant waits for another job, and a job that waited and
/// has its grant is ready, unless it is stopped.
pub fn no_wake_up_is_lost()
    ensures room { (s : S) → WhoHasRoomIsGranted s.world.requests }
    ensures first { (s : S) → IsWellFormed s → FirstIsGranted s.world.requests }
    ensures others { (s : S) → Safe s → IsWellFormed s → WaitersWaitForOthers s.world.requests }
    ensures ready { (s : S) → GrantedAreReady s }
{}

/// From a safe state, a job that waits with a limit gets its grant, or its call is refused, by the time that
/// as many ticks have passed. Then it is ready, unless it is stopped.
pub fn nobody_waits_past_a_limit()
    ensures { (s : S) (events : List EventView) → Safe s → NobodyWaitsPastALimit s events }
{}

/// A job that waited for a grant and has it makes a step within as many rounds as a job that may run.
pub fn who_is_granted_goes_on()
    ensures { (s : S) (events : List EventView) → Safe s → KeepsTime s → GoesOnInTime s events }
{}

/// A job that waits for a lock gets it within a number of rounds that the contract states, where each
/// request for the lock wants nothing else, and each owner may run and gives the lock up within so many
/// steps of its own.
pub fn who_waits_is_granted_in_time()
    ensures { (s : S) (events : List EventView) → Safe s → KeepsTime s → IsWellFormed s → IsGrantedInTime s events }
{}

/// A job that waits for a lock gets it within a number of rounds that the contract states, where jobs ask for
/// one lock at a time by rising levels, and give each up within so many steps of their own. An owner may
/// wait for other locks.
pub fn who_waits_by_levels_is_granted_in_time()
    ensures { (s : S) (events : List EventView) → Safe s → KeepsTime s → IsWellFormed s → IsGrantedByLevels s events }
{}

/// A job that waits gets its grant within a number of rounds that the contract states, where jobs ask for all
/// that they need by one request, so that no owner waits, and give it up within so many steps of their own.
/// All requests in front of the job's own count, whatever they are for.
pub fn who_waits_by_one_request_is_granted_in_time()
    ensures { (s : S) (events : List EventView) → Safe s → KeepsTime s → IsWellFormed s → IsGrantedByOneRequest s events }
{}
