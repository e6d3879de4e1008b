//! Who waits for whom, each wait with its lock.
ghost use Rattle.std.specs.Prelude.{◌≡◌, ◌<◌, ◌++◌, map, IfOk, OnOk, true};
ghost use Rattle.std.specs.List.{All};
ghost use Rattle.lock_queue.specs.Jobs.{waits_for};
ghost use Rattle.wait_graph.specs.Graphs.{Shows, wait_in};
ghost use Rattle.wait_graph.specs.declared.pairs.TheConstants.{NUMBERS};
ghost use Rattle.lock_bars.specs.Arrows.{HasLock, IsLockBetween, listed, wait_of, waits_in, waits_of};

use lock_queue::{Key, LockTable, Request};
use std::alloc::{AllocError, Global};
use wait_graph::{Graph, NUMBERS, Wait, lock_between, requests_in};

/// The wait of one job for another.
#[derive(Drop)]
pub struct Arrow {
    /// Who waits for whom, and how.
    pub wait: Wait,
    /// The first lock from which the other keeps the job, in the order in which the job asked.
    pub lock: Option<Key>,
}

/// The first lock from which one job keeps another, which waits for it.
fn lock_of(requests: &[Request], job: usize, other: usize) -> Option<Key>
    requires job { job < NUMBERS }
    requires other { other < NUMBERS }
    requires waits { waits_for requests.now job other ≡ true }
    ensures { IsLockBetween requests.now job other result }
{
    match lock_between(requests, job as u8, other as u8) {
        Some(between) => Some(between.want.key),
        None => None,
    }
}

/// Adds the wait of one job for another, if there is one.
fn push_arrow(
    arrows: &mut Vec<Arrow>,
    graph: &Graph,
    requests: &[Request],
    job: usize,
    other: usize,
) -> Result<(), AllocError>
    requires job { job < NUMBERS }
    requires other { other < NUMBERS }
    requires shows { Shows requests.now graph.now }
    requires locks { All (HasLock requests.now) arrows.old.items }
    ensures waits { OnOk result (map wait_of arrows.new.items ≡ map wait_of arrows.old.items ++ listed (wait_in graph.now job other)) }
    ensures locks { OnOk result (All (HasLock requests.now) arrows.new.items) }
{
    if let Some(wait) = graph.wait(job, other) {
        let lock = lock_of(requests, job, other);
        arrows.push(Arrow { wait, lock })?;
    }
    Ok(())
}

/// Adds the waits of a job.
fn push_arrows_of(
    arrows: &mut Vec<Arrow>,
    graph: &Graph,
    requests: &[Request],
    job: usize,
) -> Result<(), AllocError>
    requires job { job < NUMBERS }
    requires shows { Shows requests.now graph.now }
    requires locks { All (HasLock requests.now) arrows.old.items }
    ensures waits { OnOk result (map wait_of arrows.new.items ≡ map wait_of arrows.old.items ++ waits_of graph.now job) }
    ensures locks { OnOk result (All (HasLock requests.now) arrows.new.items) }
{
    for other in 1..NUMBERS {
        push_arrow(arrows, graph, requests, job, other)?;
    }
    Ok(())
}

/// The waits of a graph, which is that of the table, by rising numbers of jobs, each with its lock.
fn arrows_in<L: LockTable>(
    alloc: Global,
    graph: &Graph,
    table: &L,
) -> Result<Vec<Arrow>, AllocError>
    requires { Shows (L.requests table.now) graph.now }
    ensures waits { IfOk result (λ arrows. map wait_of arrows.items ≡ waits_in graph.now) }
    ensures locks { IfOk result (λ arrows. All (HasLock (L.requests table.now)) arrows.items) }
{
    let requests = requests_in(alloc, table)?;
    let mut arrows = Vec::new(alloc);
    for job in 1..NUMBERS {
        push_arrows_of(&mut arrows, graph, requests.as_slice(), job)?;
    }
    Ok(arrows)
}

/// Who waits for whom behind a table, and these waits, each with its lock.
pub fn waits_behind<L: LockTable>(
    alloc: Global,
    table: &L,
) -> Result<(Graph, Vec<Arrow>), AllocError>
    ensures graph { IfOk result (λ r. Shows (L.requests table.now) r.0) }
    ensures waits { IfOk result (λ r. map wait_of r.1.items ≡ waits_in r.0) }
    ensures locks { IfOk result (λ r. All (HasLock (L.requests table.now)) r.1.items) }
{
    let graph = Graph::of(alloc, table)?;
    let arrows = arrows_in(alloc, &graph, table)?;
    Ok((graph, arrows))
}
