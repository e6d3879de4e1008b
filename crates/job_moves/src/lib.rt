//! Moves of a search of every order in which jobs can take their turns, and laws on them. Each function does nothing: its contract
//! is a law.
#![tactic(auto)]

ghost use Rattle.job_moves.specs.Laws.{BegunIsAwake, EndsAreFound, EndsAreReached, LastsAreEnds, MovesAreNoticed, MovesKeep, OrdersAreRuns, RequestsAreFound};
ghost use Rattle.job_moves.specs.Laws.{RequestsAreReached, RunsArePlain, RunsReach, SettledIsSettled};

/// A state in which the sleeps are erased is a safe one in which no job sleeps.
pub fn begun_is_awake()
    ensures { BegunIsAwake }
{}

/// A state from which all jobs go on is settled, if it is clear.
pub fn settled_is_settled()
    ensures { SettledIsSettled }
{}

/// A move is a turn that others can notice, and what settles after it.
pub fn moves_are_noticed()
    ensures noticed { MovesAreNoticed }
    ensures keep { MovesKeep }
{}

/// If each state that moves lead to is clear, the moves are enough for all runs: they lead to each end, by as many moves as a run has
/// turns that others can notice, and to the requests of each state; and if they lead to a state a run does.
pub fn runs_are_reached()
    ensures requests { RequestsAreReached }
    ensures ends { EndsAreReached }
    ensures runs { RunsReach }
{}

/// The same of runs of turns and ticks: in none does a limit count, or a job read the time of day; the moves lead to each end and
/// to the requests of each state; and if they lead to a state a run does, to an end if there is no move more.
pub fn orders_stand_for_runs()
    ensures plain { RunsArePlain }
    ensures requests { RequestsAreFound }
    ensures ends { EndsAreFound }
    ensures runs { OrdersAreRuns }
    ensures lasts { LastsAreEnds }
{}
