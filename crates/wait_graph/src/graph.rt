//! Who waits for whom, as one record.
ghost use Rattle.std.specs.Prelude.{◌≡◌, ◌<◌, ◌&&◌, IfOk, not};
ghost use Rattle.std.specs.List.{list_any};
ghost use Rattle.lock_queue.specs.Jobs.{waits_for};
ghost use Rattle.lock_queue.specs.Waits.{jobs, waits_hard_for};
ghost use Rattle.wait_graph.specs.Graphs.{closes_circle, has_wait, is_between, is_on_circle, wait_in};
ghost use Rattle.wait_graph.specs.Pairs.{Tells, pair_in};

use crate::circles::circle_table;
use crate::copies::requests_in;
use crate::pairs::{NUMBERS, PairTable, hard_table, pair_table, waiting_jobs};
use lock_queue::LockTable;
use std::alloc::{AllocError, Global};
use std::fmt;

/// Who waits for whom, which of these waits are hard, and which are part of a circle.
#[derive(Drop)]
pub struct Graph {
    /// Which job waits for which.
    pub waits: PairTable,
    /// Which job waits for a lock that the other owns.
    pub hard: PairTable,
    /// Which wait is part of a circle.
    pub circles: PairTable,
}

/// The wait of one job for another.
#[derive(Clone, Copy, Debug)]
pub struct Wait {
    /// Who waits.
    pub job: usize,
    /// For whom.
    pub other: usize,
    /// Whether for a lock that the other owns.
    pub is_hard: bool,
    /// Whether a walk of waits leads back.
    pub is_in_circle: bool,
}

impl Graph {
    /// The graph of a table.
    pub fn of<L: LockTable>(alloc: Global, table: &L) -> Result<Self, AllocError>
        ensures waits { IfOk result (λ graph. Tells graph.waits (waits_for (L.requests table.now))) }
        ensures hard { IfOk result (λ graph. Tells graph.hard (waits_hard_for (L.requests table.now))) }
        ensures circles { IfOk result (λ graph. Tells graph.circles (closes_circle (pair_in graph.waits))) }
    {
        let requests = requests_in(alloc, table)?;
        let waiting = waiting_jobs(table);
        let waits = pair_table(table, &waiting);
        let hard = hard_table(requests.as_slice());
        let circles = circle_table(&waits, &waiting);
        Ok(Graph {
            waits,
            hard,
            circles,
        })
    }

    /// The wait of one job for another, if there is one. Jobs are numbered 1 to 63.
    pub fn wait(&self, job: usize, other: usize) -> Option<Wait>
        requires job { job < NUMBERS }
        requires other { other < NUMBERS }
        ensures { result ≡ wait_in self.now job other }
    {
        let i = NUMBERS * job + other;
        if !self.waits[i] {
            return None;
        }
        Some(Wait {
            job,
            other,
            is_hard: self.hard[i],
            is_in_circle: self.circles[i],
        })
    }

    /// Whether one of two jobs waits for the other.
    fn is_between(&self, job: usize, other: usize) -> bool
        requires job { job < NUMBERS }
        requires other { other < NUMBERS }
        ensures { result ≡ is_between self.now job other }
    {
        self.waits[NUMBERS * job + other] || self.waits[NUMBERS * other + job]
    }

    /// Whether a job waits, or is waited for.
    pub fn has(&self, job: usize) -> bool
        requires { job < NUMBERS }
        ensures { result ≡ has_wait self.now job }
    {
        for other in 1..NUMBERS {
            if self.is_between(job, other) {
                return true;
            }
        }
        false
    }

    /// Whether nobody waits.
    pub fn is_empty(&self) -> bool
        ensures { result ≡ not (list_any (has_wait self.now) jobs) }
    {
        for job in 1..NUMBERS {
            if self.has(job) {
                return false;
            }
        }
        true
    }

    /// Whether one job waits for the other, and this is part of a circle.
    fn is_circle_wait(&self, job: usize, other: usize) -> bool
        requires job { job < NUMBERS }
        requires other { other < NUMBERS }
        ensures { result ≡ (pair_in self.now.waits job other && pair_in self.now.circles job other) }
    {
        let i = NUMBERS * job + other;
        self.waits[i] && self.circles[i]
    }

    /// Whether a job is in a circle.
    pub fn is_in_circle(&self, job: usize) -> bool
        requires { job < NUMBERS }
        ensures { result ≡ is_on_circle self.now job }
    {
        for other in 1..NUMBERS {
            if self.is_circle_wait(job, other) {
                return true;
            }
        }
        false
    }
}

impl fmt::Display for Wait {
    fn fmt<W: fmt::Write>(&self, f: &mut fmt::Formatter<W>) -> fmt::Result {
        let (job, other) = (self.job, self.other);
        write!(f, "job {job} waits for job {other}")?;
        if self.is_hard {
            f.write_str(", hard")?;
        } else {
            f.write_str(", soft")?;
        }
        if self.is_in_circle {
            f.write_str(", in a circle")?;
        }
        Ok(())
    }
}
