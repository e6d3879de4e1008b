//! Laws of the scheduler. Each function does nothing: its contract is a law.

ghost use Rattle.job_sched.specs.Laws.{AloneMeansNoOtherIsReady, IdleMeansNoneIsReady, NextIsReady};

/// The job that is next is ready.
pub fn next_is_ready()
    ensures { NextIsReady }
{}

/// No job is next only where no job is ready.
pub fn idle_means_none_is_ready()
    ensures { IdleMeansNoneIsReady }
{}

/// Where a job is next though its quantum has just ended, no other job is ready.
pub fn alone_means_no_other_is_ready()
    ensures { AloneMeansNoOtherIsReady }
{}
