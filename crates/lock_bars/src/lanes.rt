//! The lanes of a picture: a row for each job and each lock that it asked for.
ghost use Rattle.std.specs.Prelude.{◌≡◌, ◌==◌, ◌&&◌, ◌++◌, ◌∷◌, [], map, IfOk, OnOk};
ghost use Rattle.std.specs.List.{list_any};
ghost use Rattle.lock_queue.specs.Keys.{same_key};
ghost use Rattle.lock_bars.specs.Bars.{same_lane};
ghost use Rattle.lock_bars.specs.Lanes.{begins_lane, lanes_of, locks_of, row_for, row_of};

use crate::bars::Bar;
use crate::names::LockLabel;
use lock_queue::Key;
use std::alloc::{AllocError, Global};
use wait_graph::NUMBERS;

/// A row of a picture, with the bars of one job on one lock.
#[derive(Drop)]
pub struct Lane {
    /// The job.
    pub job: u8,
    /// The lock.
    pub key: Key,
    /// The lock's name.
    pub label: String,
}

impl Lane {
    /// Whether a bar is of the lane's job and its lock.
    pub fn has(&self, bar: &Bar) -> bool
        ensures { result ≡ (bar.now.hold.job == self.now.job && same_key bar.now.hold.key self.now.key) }
    {
        bar.hold.job == self.job && bar.hold.key == self.key
    }
}

/// Whether one of these bars has the job and the lock of another.
fn has_beside(earlier: &[Bar], bar: &Bar) -> bool
    ensures { result ≡ list_any (same_lane bar.now) earlier.now }
{
    earlier.iter().any(|other| bar.is_beside(other))
}

/// Whether a bar is of a job, and the first of its lane.
fn begins_lane(earlier: &[Bar], bar: &Bar, job: u8) -> bool
    ensures { result ≡ begins_lane job earlier.now bar.now }
{
    bar.hold.job == job && !has_beside(earlier, bar)
}

/// Adds a lane of a job.
fn push_lane(alloc: Global, lanes: &mut Vec<Lane>, job: u8, key: &Key) -> Result<(), AllocError>
    ensures { OnOk result (map row_of lanes.new.items ≡ map row_of lanes.old.items ++ row_for job key.now ∷ []) }
{
    let name = LockLabel(key);
    let label = format!(in alloc; "{name}")?;
    lanes.push(Lane {
        job,
        key: *key,
        label,
    })?;
    Ok(())
}

/// Adds the lanes of a job, in the order in which it asked for the locks.
fn push_lanes_of(
    alloc: Global,
    lanes: &mut Vec<Lane>,
    bars: &[Bar],
    job: u8,
) -> Result<(), AllocError>
    ensures { OnOk result (map row_of lanes.new.items ≡ map row_of lanes.old.items ++ locks_of bars.now job) }
{
    for (i, bar) in bars.iter().enumerate() {
        if begins_lane(&bars[..i], bar, job) {
            push_lane(alloc, lanes, job, &bar.hold.key)?;
        }
    }
    Ok(())
}

/// The lanes of all bars, by rising job: one for each job and each lock on which it has bars.
pub fn lanes_of(alloc: Global, bars: &[Bar]) -> Result<Vec<Lane>, AllocError>
    ensures { IfOk result (λ lanes. map row_of lanes.items ≡ lanes_of bars.now) }
{
    let mut lanes = Vec::new(alloc);
    for job in 1..NUMBERS {
        push_lanes_of(alloc, &mut lanes, bars, job as u8)?;
    }
    Ok(lanes)
}
