//! How orders of turns can end.
ghost use Rattle.std.specs.Prelude.{◌≡◌, ◌≢◌, ◌+◌, ◌≤◌, ◌<◌, [], IfOk, IfSome, MatchOption, None, OnOk, Some, false, length, true};
ghost use Rattle.core_store.specs.Cores.{IsJob as IsJobNumber};
ghost use Rattle.tty_lines.specs.Rings.{all_clear, no_characters};
ghost use Rattle.word36.specs.declared.sizes.TheConstants.{DATA_WORDS, JOBS, LINES, MOST_REQUESTS};
ghost use Rattle.state_search.specs.Searched.{way};
ghost use Rattle.job_order_laws.specs.Places.{rings_of};
ghost use Rattle.job_moves.specs.Moves.{is_clear, is_clear_of};
ghost use Rattle.job_orders.specs.Endings.{circle_in, highest_job};
ghost use Rattle.job_orders.specs.Finding.{AreClear, AreKept, HasCircle, HasEnds, IsFound, met_at};
ghost use Rattle.job_orders.specs.Reports.{IsLooked, IsReason, started};
ghost use Rattle.job_orders.specs.Systems.{IsReady};

use crate::ends::{End, end_of, is_end, is_known_end};
use crate::kept::KeptState;
use crate::machines::{Machine, set_out};
use crate::orders::Orders;
use crate::start::Start;
use core_store::PlainCore;
use job_sched::{JOB_SLOTS, Job};
use job_turns::Turns;
use lock_queue::LockTable;
use monitor::System;
use next_turns::{has_limit, reads_clock};
use plain_table::PlainTable;
use state_search::{Kept, Outcome, Watch, search, way_to};
use std::alloc::{AllocError, Global};
use tty_lines::{LineNumber, Lines};
use wait_graph::{is_in_circle, pair_table, waiting_jobs};
use word36::{DATA_WORDS, JOBS, LINES, MOST_REQUESTS, OUTPUT_RING, Word};

/// A least order that leads to a circle of waits.
#[derive(Drop)]
pub struct Waiting {
    /// For each move, the number of its job less 1.
    pub moves: Vec<usize>,
    /// The jobs from which a walk of waits leads back, rising.
    pub jobs: Vec<u8>,
}

/// How every order can end.
#[derive(Drop)]
pub struct Report {
    /// How many states there are.
    pub states: usize,
    /// A least order to a circle of waits, if one leads there.
    pub circle: Option<Waiting>,
    /// The ends, each with a least order. No two leave the same.
    pub ends: Vec<End>,
}

/// Why not all orders were looked at.
#[derive(Clone, Copy, Debug, PartialEq, Eq)]
pub enum Reason {
    /// There are more states than this many.
    States(usize),
    /// Characters wait at this line, of which the orders are not known.
    Typed(u8),
    /// A limit counts for this job: it waits for a grant, and not for ever.
    Limit(u8),
    /// The next turn of this job reads the time of day.
    Clock(u8),
    /// This job makes more turns than it may, none of which others can notice.
    Turns(u8),
}

/// That not all orders were looked at.
#[derive(Drop)]
pub struct GivenUp {
    /// Why.
    pub reason: Reason,
    /// A least order that leads there: for each move, the number of its job less 1. None if there are too many states, or
    /// characters wait at a line.
    pub moves: Vec<usize>,
}

/// The result of a look at all orders.
#[derive(Drop)]
pub enum Looked {
    /// Every state was looked at.
    All(Report),
    /// Not every order was looked at.
    GaveUp(GivenUp),
}

/// Whether characters wait at a line.
fn is_busy(lines: &Lines, line: u8) -> bool
    requires { line < LINES }
    ensures busy { result ≡ true → rings_of lines.now line ≢ no_characters }
    ensures clear { result ≡ false → rings_of lines.now line ≡ no_characters }
{
    let number = LineNumber::new(line);
    lines.has_char(number) || lines.room(number) < OUTPUT_RING
}

/// The line at which characters wait, if there is one.
fn busy_line(lines: &Lines) -> Option<u8>
    requires { length lines.now ≡ LINES }
    ensures none { result ≡ None → lines.now ≡ all_clear }
    ensures some { IfSome result (λ line. (line < LINES) × (rings_of lines.now line ≢ no_characters)) }
{
    for line in 0..LINES {
        if is_busy(lines, line) {
            return Some(line);
        }
    }
    None
}

/// The highest number that has a job, 0 if there is none.
pub fn highest_job(jobs: &[Option<Job>; JOB_SLOTS]) -> u8
    ensures highest { result ≡ highest_job jobs.now JOBS }
    ensures few { result ≤ JOBS }
{
    let mut highest = 0;
    for k in 0..JOBS {
        if jobs[k as usize + 1].is_some() {
            highest = k + 1;
        }
    }
    highest
}

/// The line of a machine at which characters wait, if there is one.
fn busy_line_of(machine: &Machine) -> Option<u8>
    requires { length machine.now.machine.world.lines ≡ LINES }
    ensures none { result ≡ None → machine.now.machine.world.lines ≡ all_clear }
    ensures some { IfSome result (λ line. (line < LINES) × (rings_of machine.now.machine.world.lines line ≢ no_characters)) }
{
    busy_line(&machine.world.lines)
}

/// How many words jobs share.
fn count_words(shared: &[Word; DATA_WORDS]) -> usize
    ensures value { result ≡ DATA_WORDS }
    ensures length { length shared.now ≡ DATA_WORDS }
{
    shared.len()
}

/// The highest number of a machine that has a job, 0 if there is none. Each machine has room for as many requests, and as many shared
/// words.
fn count_jobs(machine: &Machine) -> u8
    ensures highest { result ≡ highest_job machine.now.machine.world.table.jobs JOBS }
    ensures few { result ≤ JOBS }
    ensures size { machine.now.machine.world.size ≡ MOST_REQUESTS }
    ensures shared { length machine.now.machine.world.shared ≡ DATA_WORDS }
{
    // The prover takes from here how many words the jobs share.
    let _words = count_words(&machine.world.shared);
    highest_job(&machine.world.table.jobs)
}

/// Why no move can be made from a state that is not clear, because of job n.
fn reason_of(machine: &Machine, n: u8) -> Option<Reason>
    requires { IsJobNumber n }
    ensures { MatchOption result (is_clear_of machine.now n ≡ true) (IsReason machine.now) }
{
    if has_limit(&machine.world, n) {
        return Some(Reason::Limit(n));
    }
    if !machine.can_run(n) {
        return None;
    }
    if reads_clock(&machine.world, n) {
        return Some(Reason::Clock(n));
    }
    if machine.is_quiet(n) {
        return Some(Reason::Turns(n));
    }
    None
}

/// Why no move can be made from a state, if it is not clear.
fn reason_for(machine: &Machine, count: u8) -> Option<Reason>
    requires { count ≤ JOBS }
    ensures { MatchOption result (is_clear count machine.now ≡ true) (IsReason machine.now) }
{
    for k in 0..count {
        if let Some(reason) = reason_of(machine, k + 1) {
            return Some(reason);
        }
    }
    None
}

/// The jobs that wait in a circle.
fn circle_jobs<L: LockTable>(alloc: Global, locks: &L, count: u8) -> Result<Vec<u8>, AllocError>
    requires { count ≤ JOBS }
    ensures { IfOk result (λ jobs. jobs.items ≡ circle_in count (L.requests locks.now)) }
{
    let waiting = waiting_jobs(locks);
    let pairs = pair_table(locks, &waiting);
    let mut jobs = Vec::new(alloc);
    for k in 0..count {
        if is_in_circle(&pairs, &waiting, k as usize + 1) {
            jobs.push(k + 1)?;
        }
    }
    Ok(jobs)
}

/// Sets out the state at a position.
fn show(
    orders: &Orders,
    kept: &Kept<KeptState>,
    machine: &mut Machine,
    position: usize,
) -> Result<(), AllocError>
    requires kept { AreKept orders.now.start orders.now.machine orders.now.tables kept.now.states.keys kept.now.origins.items }
    requires few { orders.now.start.count ≤ JOBS }
    requires within { position < length kept.now.states.keys }
    requires ready { IsReady orders.now.start.state.machine.quantum orders.now.start.state.machine.blocks machine.old }
    ensures shown { OnOk result (machine.new
        ≡ (met_at orders.now.start orders.now.tables kept.now.states.keys kept.now.origins.items position).state) }
    ensures ready { OnOk result (IsReady orders.now.start.state.machine.quantum orders.now.start.state.machine.blocks machine.new) }
{
    set_out(&orders.tables, machine, *kept.state(position))?;
    Ok(())
}

/// Looks for a circle in the state at a position, which is set out on a machine.
fn look_for_circle(
    alloc: Global,
    orders: &Orders,
    kept: &Kept<KeptState>,
    machine: &Machine,
    position: usize,
    circle: &mut Option<Waiting>,
) -> Result<(), AllocError>
    requires kept { AreKept orders.now.start orders.now.machine orders.now.tables kept.now.states.keys kept.now.origins.items }
    requires few { orders.now.start.count ≤ JOBS }
    requires within { position < length kept.now.states.keys }
    requires here { machine.now
        ≡ (met_at orders.now.start orders.now.tables kept.now.states.keys kept.now.origins.items position).state }
    requires so_far { HasCircle orders.now.start.count
        (met_at orders.now.start orders.now.tables kept.now.states.keys kept.now.origins.items) position circle.old }
    ensures { OnOk result (HasCircle orders.now.start.count
        (met_at orders.now.start orders.now.tables kept.now.states.keys kept.now.origins.items) (position + 1) circle.new) }
{
    if circle.is_some() {
        return Ok(());
    }
    let jobs = circle_jobs(alloc, &machine.world.locks, orders.start.count())?;
    if jobs.is_empty() {
        return Ok(());
    }
    let moves = way_to(alloc, orders, kept, position)?;
    *circle = Some(Waiting { moves, jobs });
    Ok(())
}

/// Looks whether that state is an end, and a new one.
fn look_for_end(
    alloc: Global,
    orders: &Orders,
    kept: &Kept<KeptState>,
    machine: &Machine,
    position: usize,
    ends: &mut Vec<End>,
) -> Result<(), AllocError>
    requires kept { AreKept orders.now.start orders.now.machine orders.now.tables kept.now.states.keys kept.now.origins.items }
    requires few { orders.now.start.count ≤ JOBS }
    requires within { position < length kept.now.states.keys }
    requires here { machine.now
        ≡ (met_at orders.now.start orders.now.tables kept.now.states.keys kept.now.origins.items position).state }
    requires so_far { HasEnds orders.now.start.count
        (met_at orders.now.start orders.now.tables kept.now.states.keys kept.now.origins.items) position ends.old.items }
    ensures { OnOk result (HasEnds orders.now.start.count
        (met_at orders.now.start orders.now.tables kept.now.states.keys kept.now.origins.items) (position + 1) ends.new.items) }
{
    let count = orders.start.count();
    if !is_end(machine, count) {
        return Ok(());
    }
    if is_known_end(ends.as_slice(), machine, count) {
        return Ok(());
    }
    let moves = way_to(alloc, orders, kept, position)?;
    let end = end_of(alloc, machine, count, moves)?;
    ends.push(end)?;
    Ok(())
}

/// Looks at all states, unless one is not clear.
fn report_on(alloc: Global, orders: &Orders, kept: &Kept<KeptState>) -> Result<Looked, AllocError>
    requires kept { AreKept orders.now.start orders.now.machine orders.now.tables kept.now.states.keys kept.now.origins.items }
    requires few { orders.now.start.count ≤ JOBS }
    ensures { IfOk result (IsFound orders.now.start.count
        (met_at orders.now.start orders.now.tables kept.now.states.keys kept.now.origins.items) (length kept.now.states.keys)) }
{
    let count = orders.start.count();
    let mut machine = orders.start.bare_machine(alloc)?;
    let mut circle = None;
    let mut ends = Vec::new(alloc);
    for position in 0..kept.len() {
        show(orders, kept, &mut machine, position)?;
        if let Some(reason) = reason_for(&machine, count) {
            let moves = way_to(alloc, orders, kept, position)?;
            return Ok(Looked::GaveUp(GivenUp { reason, moves }));
        }
        look_for_circle(alloc, orders, kept, &machine, position, &mut circle)?;
        look_for_end(alloc, orders, kept, &machine, position, &mut ends)?;
    }
    Ok(Looked::All(Report {
        states: kept.len(),
        circle,
        ends,
    }))
}

/// Lets the jobs of a machine of `blocks` blocks, as they are, take their turns in every order, and reports how that can end. A job
/// may take at most `most_turns` turns that others cannot notice before one that they can. If there are more than `most_states`
/// states it gives up. `watch` is shown how far the search is.
pub fn look<W: Watch>(
    alloc: Global,
    system: System<PlainTable<MOST_REQUESTS>, PlainCore>,
    blocks: u32,
    most_turns: u32,
    most_states: usize,
    watch: &mut W,
) -> Result<Looked, AllocError>
    requires blocks { blocks ≡ system.blocks }
    requires some { 1 ≤ blocks }
    ensures { IfOk result (IsLooked most_turns most_states (started blocks system.world)) }
{
    let world = system.into_world();
    let mut start = Turns::new(alloc, world, 1, blocks)?;
    if let Some(line) = busy_line_of(&start) {
        return Ok(Looked::GaveUp(GivenUp {
            reason: Reason::Typed(line),
            moves: Vec::new(alloc),
        }));
    }
    let count = count_jobs(&start);
    start.settle(count, most_turns)?;
    let begun = Start::new(start, count, most_turns);
    let mut orders = Orders::new(alloc, begun);
    let outcome = search(alloc, &mut orders, most_states, watch)?;
    match outcome {
        Outcome::All(kept) => {
            let looked = report_on(alloc, &orders, &kept)?;
            Ok(looked)
        }
        Outcome::GaveUp(states) => Ok(Looked::GaveUp(GivenUp {
            reason: Reason::States(states),
            moves: Vec::new(alloc),
        })),
    }
}
