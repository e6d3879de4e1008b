//! Machines, each behind the calls that are made of it here, and the two that the parts run on.
ghost use Rattle.std.specs.Prelude.{◌≡◌, length};

use crate::asked::Run;
use core_store::{BlockCore, CoreStore, PlainCore};
use lock_queue::{Key, LockTable, Request, Status};
use lock_table::ProgramTable;
use monitor::{Answer, Event, JobView, System};
use plain_table::PlainTable;
use std::alloc::{AllocError, Global};
use std::io;
use word36::{MOST_REQUESTS, Word};

/// A request of a machine.
#[derive(Clone, Copy)]
pub struct Listed<'a> {
    /// What it is.
    pub request: &'a Request,
    /// Whether the machine says that it is granted.
    pub granted: bool,
}

/// A machine, whatever it keeps its locks and its core in.
pub trait Machine: Drop {
    /// Makes one event happen.
    fn happen(&mut self, event: &Event) -> Answer;

    /// Makes events happen one after the other, and writes the answer to each at its position.
    fn happen_all(&mut self, events: &[Event], replies: &mut [Answer])
        requires { length replies.old ≡ length events.now };

    /// Makes so many steps, each followed by a tick where `ticking`, and counts those in which a job ran.
    fn make_steps(&mut self, most: u32, ticking: bool) -> u32;

    /// What there is to see of a job, if it is there.
    fn view(&self, job: u8) -> Option<JobView>;

    /// The word at an address of a job.
    fn word(&self, job: u8, address: u32) -> Option<Word>;

    /// The requests of all jobs, in order of arrival.
    fn list_requests(&self, alloc: Global) -> Result<Vec<Listed<'_>>, AllocError>;

    /// The most requests that may be present.
    fn most_requests(&self) -> usize;

    /// Whether a job waits for the queue.
    fn waits(&self, job: u8) -> bool;

    /// Whether the first job waits for the second.
    fn waits_for(&self, job: u8, other: u8) -> bool;

    /// What the table answers a job about a key.
    fn status(&self, key: &Key, job: u8) -> Status;
}

impl<L: LockTable, C: CoreStore> Machine for System<L, C> {
    #[inline(always)]
    fn happen(&mut self, event: &Event) -> Answer {
        self.event(event)
    }

    #[inline(always)]
    fn happen_all(&mut self, events: &[Event], replies: &mut [Answer]) {
        self.run(events, replies)
    }

    fn make_steps(&mut self, most: u32, ticking: bool) -> u32 {
        self.steps(most, ticking)
    }

    fn view(&self, job: u8) -> Option<JobView> {
        self.job(job)
    }

    fn word(&self, job: u8, address: u32) -> Option<Word> {
        self.peek(job, address)
    }

    fn list_requests(&self, alloc: Global) -> Result<Vec<Listed<'_>>, AllocError> {
        list_of(alloc, self.locks())
    }

    fn most_requests(&self) -> usize {
        L::REQS
    }

    fn waits(&self, job: u8) -> bool {
        self.locks().is_waiting(job)
    }

    fn waits_for(&self, job: u8, other: u8) -> bool {
        self.locks().waits_for(job, other)
    }

    fn status(&self, key: &Key, job: u8) -> Status {
        self.locks().status(key, job)
    }
}

/// The requests of a table of locks.
fn list_of<L: LockTable>(alloc: Global, locks: &L) -> Result<Vec<Listed<'_>>, AllocError> {
    let mut list = Vec::with_capacity(alloc, locks.len())?;
    for position in 0..locks.len() {
        list.push(Listed {
            request: locks.request(position),
            granted: locks.granted(position),
        })?;
    }
    Ok(list)
}

/// The machine that works everything out from one list, with a vector of words for each job.
type Plain = System<PlainTable<MOST_REQUESTS>, PlainCore>;

/// The machine that `lockmon run` holds.
type Fast = System<ProgramTable, BlockCore>;

/// Makes a run on machines from a fresh boot, and says whether all holds.
pub fn on_machines<R: Print + AllocGlobal>(rt: &R, run: Run) -> io::Result<bool> {
    let Some(config) = run.config() else {
        return Ok(false);
    };
    let plain = Plain::boot(rt.alloc(), config)?;
    let fast = Fast::boot(rt.alloc(), config)?;
    run.make(rt, plain, fast)
}
