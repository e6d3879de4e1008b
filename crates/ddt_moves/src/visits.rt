//! Breakpoints that count how often their jobs come to them.

ghost use Rattle.run_events.specs.declared.facts.Fact.{Fact as FactView};
ghost use Rattle.std.specs.Prelude.{◌≡◌, ◌++◌, List, IfOk, IfSome, OnOk, map, true};
ghost use Rattle.ddt_timeline.specs.Views.{history};
ghost use Rattle.ddt_moves.specs.OtherEnds.{counted_cause, ends_for, stands};
ghost use Rattle.ddt_moves.specs.StopLists.{or_slot};
ghost use Rattle.ddt_moves.specs.Visits.{behind, comes_due, counter_of, counters, counters_from, first_due, is_due, is_due_at_start};
ghost use Rattle.ddt_moves.specs.Visits.{seen_before, slot_if, stepped, visits_with};

use crate::replays::Replay;
use crate::run_stops::StopCause;
use crate::stop_lists::{Breakpoint, StopList};
use concrete_machine::Machine;
use ddt_timeline::{StopCondition, Timeline, WatchedStop, stands_at};
use std::alloc::{AllocError, Global};
use word36::{Address, Word};

/// A breakpoint that counts, and how often its job came to it: in a step with its tick, or where it was started there.
#[derive(Clone, Copy)]
pub struct Counter {
    /// The slot of the breakpoint, from 0.
    slot: usize,
    /// Its job.
    job: u8,
    /// Its address.
    address: Address,
    /// From which time on it stops the job.
    times: u32,
    /// Its stop, noted before each round.
    stop: WatchedStop,
    /// How often the job came to it.
    visits: u64,
    /// Whether the job stood there behind the last round.
    stood: bool,
    /// Whether it stands there before the next one, as the condition wants.
    stands: bool,
}

/// How often a job came to a breakpoint, with one time more where it comes there.
fn visits_with(has_come: bool, visits: u64) -> u64
    ensures { result ≡ visits_with has_come visits }
{
    if has_come {
        visits.saturating_add(1)
    } else {
        visits
    }
}

impl Counter {
    /// A breakpoint to which no job came yet.
    fn of(slot: usize, breakpoint: &Breakpoint) -> Self
        ensures { result ≡ counter_of slot breakpoint.now }
    {
        // A stop may hold a word, of which this has none: the prover wants its type to be named.
        let _word: Option<Word> = None;
        Counter {
            slot,
            job: breakpoint.job,
            address: breakpoint.address,
            times: breakpoint.times,
            stop: WatchedStop {
                stop: breakpoint.stop(),
                stood: false,
            },
            visits: 0,
            stood: false,
            stands: false,
        }
    }

    /// Sees what happened between two rounds, and notes its stop: a job that is started there comes to it.
    fn see_start(&mut self, machine: &Machine)
        ensures { self.new ≡ seen_before machine.now self.old }
    {
        self.stop.stood = false;
        self.stands = self.stop.is_met(machine, None);
        self.visits = visits_with(self.stands && !self.stood, self.visits);
        self.stop.note(machine);
    }

    /// Sees a round in which a job ran, and notes its stop for the next one; true where its job came to it for one of the times
    /// that stop a run.
    fn see_round(&mut self, machine: &Machine, ran: Option<u8>) -> bool
        ensures seen { self.new ≡ stepped machine.now ran self.old }
        ensures due { result ≡ comes_due machine.now ran self.old }
    {
        let has_come = self.stop.is_met(machine, ran);
        self.visits = visits_with(has_come, self.visits);
        self.stop.note(machine);
        self.stood = stands_at(machine, self.job, self.address);
        has_come && self.is_due()
    }

    /// Whether its job came to it often enough.
    fn is_due(&self) -> bool
        ensures { result ≡ is_due self.now }
    {
        u64::from(self.times) <= self.visits
    }

    /// The slot of the breakpoint, from 0.
    pub fn slot(&self) -> usize
        ensures { result ≡ self.now.slot }
    {
        self.slot
    }

    /// Whether a run ends before its first step where the jobs from `first` to `last` were started or continued just now: its job
    /// is one of them, stands there as its condition wants, and came there often enough.
    pub fn ends_start(&self, first: u8, last: u8) -> bool
        ensures { result ≡ is_due_at_start first last self.now }
    {
        first <= self.job && self.job <= last && self.stands && self.is_due()
    }
}

/// Whether a job stands at its breakpoint, as its condition wants.
pub fn stands(machine: &Machine, breakpoint: &Breakpoint) -> bool
    ensures { result ≡ stands machine.now breakpoint.now }
{
    let stop = WatchedStop {
        stop: breakpoint.stop(),
        stood: false,
    };
    stop.is_met(machine, None)
}

/// Why a run ends at the breakpoint in a slot, if it is set and counts, and its job stands there.
pub fn counted_cause(machine: &Machine, list: &StopList, slot: usize) -> Option<StopCause>
    ensures ends { IfSome result (λ cause. (facts : List FactView) → ends_for list.now machine.now facts (Some cause) ≡ true) }
    ensures cause { result ≡ counted_cause list.now machine.now slot }
{
    // A cause may hold a word: the prover wants its type to be named.
    let _word: Option<Word> = None;
    let slots: &[Option<Breakpoint>] = &list.breakpoints;
    if slot >= slots.len() {
        return None;
    }
    let Some(one) = &slots[slot] else {
        return None;
    };
    if one.counts() && stands(machine, one) {
        Some(StopCause::Breakpoint(slot + 1, one.job, one.address.number()))
    } else {
        None
    }
}

/// Lets some breakpoints see what happened between two rounds.
fn see_starts(counters: &mut [Counter], machine: &Machine)
    ensures { counters.new ≡ map (seen_before machine.now) counters.old }
{
    for counter in counters.iter_mut() {
        counter.see_start(machine);
    }
}

/// A slot that was found, or else this one where it is due.
fn or_due(found: Option<usize>, is_due: bool, slot: usize) -> Option<usize>
    ensures { result ≡ or_slot found (slot_if is_due slot) }
{
    if found.is_some() || !is_due {
        found
    } else {
        Some(slot)
    }
}

/// Lets some breakpoints see a round in which a job ran, and gives the slot of the first to which its job came for one of the times
/// that stop a run.
pub fn see_rounds(counters: &mut [Counter], machine: &Machine, ran: Option<u8>) -> Option<usize>
    ensures seen { counters.new ≡ map (stepped machine.now ran) counters.old }
    ensures first { result ≡ first_due machine.now ran counters.old }
{
    let mut first = None;
    for counter in counters.iter_mut() {
        let is_due = counter.see_round(machine, ran);
        first = or_due(first, is_due, counter.slot);
    }
    first
}

/// Lets some breakpoints see all that has happened to the machine of a timeline.
fn see_past(timeline: &Timeline, counters: &mut [Counter]) -> Result<(), AllocError>
    ensures { OnOk result (counters.new ≡ map (behind (history timeline.now)) counters.old) }
{
    let mut replay = Replay::of(timeline)?;
    while replay.go_before_step() {
        see_starts(counters, replay.machine());
        let ran = replay.step();
        see_rounds(counters, replay.machine(), ran);
    }
    see_starts(counters, replay.machine());
    replay.end();
    Ok(())
}

/// The breakpoints that count, to which no job came yet.
fn new_counters(alloc: Global, slots: &[Option<Breakpoint>]) -> Result<Vec<Counter>, AllocError>
    ensures { IfOk result (λ found. found.items ≡ counters_from 0 slots.now) }
{
    // A counter has a stop, and that may hold a word: the prover wants their types to be named.
    let _types: (Option<WatchedStop>, Option<StopCondition>, Option<Word>) = (None, None, None);
    let mut counters = Vec::new(alloc);
    for i in 0..slots.len() {
        if let Some(one) = &slots[i] {
            if one.counts() {
                counters.push(Counter::of(i, one))?;
            }
        }
    }
    Ok(counters)
}

/// The breakpoints that count, with how often their jobs came to them in all that has happened to the machine.
pub fn counters_of(timeline: &Timeline, list: &StopList) -> Result<Vec<Counter>, AllocError>
    ensures { IfOk result (λ found. found.items ≡ counters (history timeline.now) list.now) }
{
    let mut counters = new_counters(timeline.alloc(), &list.breakpoints)?;
    if counters.is_empty() {
        return Ok(counters);
    }
    see_past(timeline, counters.as_mut_slice())?;
    Ok(counters)
}
