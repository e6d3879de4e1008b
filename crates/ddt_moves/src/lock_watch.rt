//! A watch for grants, circles of waits, calls on a lock, and breakpoints that count.

ghost use Rattle.std.specs.Prelude.{◌≡◌, IfSome, None, false, is_some, map, true};
ghost use Rattle.std.specs.List.{list_any};
ghost use Rattle.run_events.specs.Runs.{facts_of_round};
ghost use Rattle.run_events.specs.declared.facts.Fact.{Fact as FactView};
ghost use Rattle.std.specs.Prelude.{[], IfOk, List};
ghost use Rattle.machine.specs.Between.{next_in};
ghost use Rattle.ddt_timeline.specs.Histories.{machine_of};
ghost use Rattle.ddt_timeline.specs.Stops.{round};
ghost use Rattle.ddt_timeline.specs.Views.{history};
ghost use Rattle.ddt_moves.specs.OtherEnds.{HasLooked, counted_in, due_cause, ends_for, facts_of, if_breakpoint, is_closed, is_granted, list_of, told_cause};
ghost use Rattle.ddt_moves.specs.OtherEnds.{counters_of as counters_in};
ghost use Rattle.ddt_moves.specs.Visits.{counters, first_due, stepped};

use crate::lock_calls::stands_before;
use crate::run_stops::StopCause;
use crate::stop_lists::StopList;
use crate::turns::{NUMBERS, pcs_of};
use crate::visits::{Counter, counted_cause, counters_of, see_rounds};
use concrete_machine::Machine;
use ddt_timeline::{Timeline, Watch};
use run_events::Fact;
use std::alloc::{AllocError, Global};
use uuo_calls::BlockRoom;
use word36::{Address, JOBS, Word};

/// A watch that ends a run at a breakpoint that counts, where a circle of waits closes, at a grant, or before a call on a lock.
#[derive(Drop)]
pub struct LockWatch<'a> {
    alloc: Global,
    list: &'a StopList,
    /// The breakpoints that count.
    counters: Vec<Counter>,
    /// The facts of the last round.
    pub facts: Vec<Fact>,
    /// The PC of each job before the round, where runs stop before calls.
    pcs: [Option<Address>; NUMBERS],
    /// Room for the block of a call.
    room: BlockRoom,
    /// Why the run ended, if this watch ended it.
    pub cause: Option<StopCause>,
    /// Whether there was too little memory to look.
    pub has_failed: bool,
}

/// Why a run does not begin: the first job, of those from `first` to `last`, that stands before a call on the lock of
/// `.BREAK LOCK`.
pub(crate) fn first_standing(
    machine: &Machine,
    first: u8,
    last: u8,
    list: &StopList,
) -> Option<StopCause>
    ensures ends { ends_for list.now machine.now [] result ≡ true }
    ensures other { if_breakpoint result ≡ None }
{
    let Some(name) = &list.lock else {
        return None;
    };
    let mut room = BlockRoom::new();
    for number in first..last.saturating_add(1) {
        if stands_before(machine, number, name, &mut room) {
            return Some(StopCause::Call(number));
        }
    }
    None
}

/// The first job that came to a call on the lock of `.BREAK LOCK` in a round in which a job ran: it had its turn, or a tick changed
/// its PC. `before` has the PC of each job before the round, and `pcs` after it.
fn first_caller(
    machine: &Machine,
    list: &StopList,
    before: &[Option<Address>; NUMBERS],
    pcs: &[Option<Address>; NUMBERS],
    ran: Option<u8>,
    room: &mut BlockRoom,
) -> Option<StopCause>
    ensures ends { IfSome result (λ cause. (facts : List FactView) → ends_for list.now machine.now facts (Some cause) ≡ true) }
    ensures other { if_breakpoint result ≡ None }
{
    let Some(name) = &list.lock else {
        return None;
    };
    for number in 1..JOBS + 1 {
        let slot = usize::from(number);
        let has_come = ran == Some(number) || pcs[slot] != before[slot];
        if has_come && stands_before(machine, number, name, room) {
            return Some(StopCause::Call(number));
        }
    }
    None
}

/// Whether one of some facts is a grant.
fn has_grant(facts: &[Fact]) -> bool
    ensures { result ≡ list_any is_granted facts.now }
{
    facts.iter().any(|fact| matches!(fact, Fact::Granted(_)))
}

/// Whether a circle of waits closed by one of some facts.
fn has_circle(facts: &[Fact]) -> bool
    ensures { result ≡ list_any is_closed facts.now }
{
    facts
        .iter()
        .any(|fact| matches!(fact, Fact::CircleClosed(_)))
}

/// Whether a run ends at the facts of a round, and why: where a circle of waits closed, or at a grant.
fn told_cause(list: &StopList, facts: &[Fact]) -> Option<StopCause>
    ensures { result ≡ told_cause list.now facts.now }
{
    // A cause may hold a word: the prover wants its type to be named.
    let _word: Option<Word> = None;
    if has_circle(facts) && list.circles {
        Some(StopCause::Circle)
    } else if has_grant(facts) && list.grants {
        Some(StopCause::Grant)
    } else {
        None
    }
}

/// The first breakpoint that counts to which its job came in a round, for one of the times that stop a run.
fn first_counted(
    counters: &mut [Counter],
    machine: &Machine,
    ran: Option<u8>,
    list: &StopList,
) -> Option<StopCause>
    ensures ends { IfSome result (λ cause. (facts : List FactView) → ends_for list.now machine.now facts (Some cause) ≡ true) }
    ensures seen { counters.new ≡ map (stepped machine.now ran) counters.old }
    ensures first { result ≡ counted_in list.now machine.now (first_due machine.now ran counters.old) }
{
    // A cause may hold a word: the prover wants its type to be named.
    let _word: Option<Word> = None;
    match see_rounds(counters, machine, ran) {
        Some(slot) => counted_cause(machine, list, slot),
        None => None,
    }
}

impl<'a> LockWatch<'a> {
    /// A watch of a run that begins now.
    pub fn new(timeline: &Timeline, list: &'a StopList) -> Result<Self, AllocError>
        ensures list { IfOk result (λ watch. list_of watch ≡ list.now) }
        ensures counters { IfOk result (λ watch. counters_in watch ≡ counters (history timeline.now) list.now) }
    {
        let alloc = timeline.alloc();
        Ok(LockWatch {
            alloc,
            list,
            counters: counters_of(timeline, list)?,
            facts: Vec::new(alloc),
            pcs: pcs_of(timeline.machine()),
            room: BlockRoom::new(),
            cause: None,
            has_failed: false,
        })
    }

    /// Why the run ends after a round in which a job ran, whose facts it has, if it does.
    fn look(&mut self, machine: &Machine, ran: Option<u8>) -> Option<StopCause>
        ensures list { list_of self.new ≡ list_of self.old }
        ensures facts { facts_of self.new ≡ facts_of self.old }
        ensures failed { self.new.has_failed ≡ self.old.has_failed }
        ensures cause { ends_for (list_of self.old) machine.now (facts_of self.old) result ≡ true }
        ensures counters { counters_in self.new ≡ map (stepped machine.now ran) (counters_in self.old) }
        ensures due { if_breakpoint result ≡ due_cause self.old machine.now ran }
    {
        let counted = first_counted(self.counters.as_mut_slice(), machine, ran, self.list);
        if counted.is_some() {
            return counted;
        }
        let told = told_cause(self.list, self.facts.as_slice());
        if told.is_some() {
            return told;
        }
        let pcs = pcs_of(machine);
        let cause = first_caller(machine, self.list, &self.pcs, &pcs, ran, &mut self.room);
        self.pcs = pcs;
        cause
    }
}

impl Watch for LockWatch<'_> {
    ghost looks = { λ watch. true };

    ghost Asks = { λ old new s ends. HasLooked old new s (round s) ends };

    fn looks_at_rounds(&self) -> bool {
        true
    }

    fn make_round(&mut self, machine: &mut Machine) -> (Option<u8>, bool) {
        let (ran, facts) = machine.round_facts(self.alloc, &mut self.room);
        match facts {
            Ok(facts) => self.facts = facts,
            Err(_) => self.has_failed = true,
        }
        self.cause = self.look(machine, ran);
        (ran, self.has_failed || self.cause.is_some())
    }
}
