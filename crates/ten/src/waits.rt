//! What jobs wait for.
ghost use Rattle.std.specs.Prelude.{◌≡◌, false};
ghost use Rattle.std.specs.List.{list_any};
ghost use Rattle.ten.specs.Jobs.{sleeps, waits_for_input, waits_of, waits_with_limit};

use crate::jobs::RunningJob;
use concrete_machine::Machine;
use job_sched::Wait;
use monitor::JobView;

/// What a job waits for, or what there is among the waits of several jobs.
#[derive(Clone, Copy)]
pub struct Waits {
    /// Characters.
    pub input: bool,
    /// Locks with a time limit. The limit goes down while the job is stopped, too.
    pub limit: bool,
    /// The end of its sleep.
    pub sleep: bool,
}

impl Waits {
    /// No waits.
    pub const NONE: Waits = Waits {
        input: false,
        limit: false,
        sleep: false,
    };

    /// What a job waits for.
    pub fn of(job: &JobView) -> Self
        ensures { result ≡ waits_of job.now }
    {
        let goes = job.stop.is_none();
        let mut waits = Waits::NONE;
        match job.wait {
            Wait::Char | Wait::Line => waits.input = goes,
            Wait::Queue(limit, _) => waits.limit = limit > 0,
            Wait::Sleep(_) => waits.sleep = goes,
            Wait::None | Wait::Room(_) => {}
        }
        waits
    }

    /// What some jobs wait for.
    pub fn of_all(machine: &Machine, jobs: &[RunningJob]) -> Self
        ensures input { result.input ≡ list_any (waits_for_input machine.now) jobs.now }
        ensures limit { result.limit ≡ list_any (waits_with_limit machine.now) jobs.now }
        ensures sleep { result.sleep ≡ list_any (sleeps machine.now) jobs.now }
    {
        let mut all = Waits::NONE;
        for job in jobs {
            if let Some(view) = machine.job(job.traced.number) {
                let waits = Waits::of(&view);
                all.input |= waits.input;
                all.limit |= waits.limit;
                all.sleep |= waits.sleep;
            }
        }
        all
    }
}
