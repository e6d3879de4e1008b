//! Runs of steps, up to the first after which a stop holds.
ghost use Rattle.std.specs.List.{list_all};
ghost use Rattle.std.specs.Prelude.{◌≡◌, ◌+◌, ◌-◌, ◌<◌, ◌≤◌, ◌&&◌, ℕ, Bool, None, false, is_none, is_some, map, position, true};
ghost use Rattle.machine.specs.Machine.{after};
ghost use Rattle.machine.specs.Rounds.{rounds};
ghost use Rattle.machine.specs.Between.{Between, is_among, next_in};
ghost use Rattle.ddt_timeline.specs.Stops.{fits, ran_of, round, has_ended, has_pc, is_at, is_at_one_of, is_input};
ghost use Rattle.ddt_timeline.specs.Stops.{is_met, is_met_at, is_within};
ghost use Rattle.ddt_timeline.specs.Stops.{is_word, noted, met_after, stands_at, waits_for_input};
ghost use Rattle.ddt_timeline.specs.Asking.{IsAsked};
ghost use Rattle.ddt_timeline.specs.Runs.{IsRun, SomeGoesOn, can_run, ends_by_ticks, goes_on, is_no_wait, some_go_on};
ghost use Rattle.machine.specs.Views.{job_view};

use concrete_machine::Machine;
use ddt_breakpoints::Condition;
use job_sched::Wait;
use monitor::{Answer, Event, Rounds};
use word36::{Address, Image, JOBS, Word};

/// Where a run stops.
#[derive(Clone, Copy)]
pub enum StopCondition {
    /// A job came to an address: it stands there and is not stopped, and it had its turn, or its PC was elsewhere before, as
    /// where a time limit ends and a tick puts the PC to the error return. Where there is a condition, that holds of the job's
    /// words there.
    At(u8, Address, Option<Condition>),
    /// A job had its turn.
    Turn(u8),
    /// A job had its turn, and is stopped by it or gone.
    End(u8),
    /// The word of a job at an address is no longer this one, which is `None` where the address is not legal.
    Word(u8, u32, Option<Word>),
    /// A job had its turn and waits for characters.
    Input,
}

/// A stop, and whether its job stood there before this round.
#[derive(Clone, Copy)]
pub struct WatchedStop {
    /// The stop.
    pub stop: StopCondition,
    /// Whether it is at an address where the PC of its job was before this round.
    pub stood: bool,
}

/// What else may end a run after one of its rounds.
pub trait Watch {
    ghost use Rattle.std.specs.Prelude.{ℕ, Option};
    ghost use Rattle.machine.specs.Machine.{S};

    /// Whether it looks at each round.
    ghost looks: { Self → Bool };

    /// How a watch changes by a round that begins in a state, and whether it ends the run after that.
    ghost Asks: { Self → Self → S → Bool → Type 0 };

    /// Whether it looks at each round; where it does not, many rounds may be made at once, and it ends no run.
    fn looks_at_rounds(&self) -> bool
        ensures { result ≡ looks self.now };

    /// Makes a round, and gives the job that ran in it, if one did, and whether the run ends after it.
    fn make_round(&mut self, machine: &mut Machine) -> (Option<u8>, bool)
        ensures state { machine.new ≡ round machine.old }
        ensures ran { result.0 ≡ next_in machine.old }
        ensures asked { Asks self.old self.new machine.old result.1 };
}

/// A watch that ends no run.
#[derive(Clone, Copy)]
pub struct NoWatch;

impl Watch for NoWatch {
    ghost looks = { λ watch. false };

    ghost Asks = { λ old new s ends. ends ≡ false };

    #[inline(always)]
    fn looks_at_rounds(&self) -> bool {
        false
    }

    #[inline(always)]
    fn make_round(&mut self, machine: &mut Machine) -> (Option<u8>, bool) {
        (round(machine), false)
    }
}

/// A run of steps, and what ended it.
#[derive(Clone, Copy)]
pub struct Run {
    /// How many steps were made, each followed by a tick.
    pub made: u32,
    /// Which of the stops ended it, if one did.
    pub stop: Option<usize>,
    /// Whether the watch ended it.
    pub by_watch: bool,
}

/// The job that ran, by the answer to a step.
fn ran_of(answer: &Answer) -> Option<u8>
    ensures { result ≡ ran_of answer.now }
{
    match answer {
        Answer::Ran(number) => Some(*number),
        _ => None,
    }
}

/// Makes a step and a tick, and gives the job that ran.
#[inline(always)]
#[tactic(auto, using(crate::proofs::RunLemmas::ran_stepped))]
pub fn round(machine: &mut Machine) -> Option<u8>
    ensures state { machine.new ≡ round machine.old }
    ensures ran { result ≡ next_in machine.old }
{
    // An event may hold an image, of which these have none: the prover wants its type to be named.
    let _image: Option<&Image> = None;
    let answer = machine.event(&Event::Step);
    machine.event(&Event::Tick);
    ran_of(&answer)
}

/// Whether two words are equal, or both missing.
fn is_word(word: Option<Word>, other: Option<Word>) -> bool
    ensures { result ≡ is_word word other }
{
    match (word, other) {
        (Some(word), Some(other)) => word == other,
        (None, None) => true,
        _ => false,
    }
}

/// Whether a wait is for characters.
fn is_input(wait: Wait) -> bool
    ensures { result ≡ is_input wait }
{
    matches!(wait, Wait::Char | Wait::Line)
}

/// Whether a job waits for characters.
#[inline(always)]
fn waits_for_input(machine: &Machine, job: u8) -> bool
    ensures { result ≡ waits_for_input (job_view machine.now.world job) }
{
    match machine.job(job) {
        Some(view) => is_input(view.wait),
        None => false,
    }
}

/// Whether the PC of a job is at an address.
#[inline(always)]
fn has_pc(machine: &Machine, job: u8, address: Address) -> bool
    ensures { result ≡ has_pc (job_view machine.now.world job) address }
{
    match machine.job(job) {
        Some(view) => view.pc == address,
        None => false,
    }
}

/// Whether a job stands at an address: its PC is there, and it is not stopped.
#[inline(always)]
pub fn stands_at(machine: &Machine, job: u8, address: Address) -> bool
    ensures { result ≡ stands_at (job_view machine.now.world job) address }
{
    match machine.job(job) {
        Some(view) => view.stop.is_none() && view.pc == address,
        None => false,
    }
}

/// Whether a job is stopped, or gone.
#[inline(always)]
fn has_ended(machine: &Machine, job: u8) -> bool
    ensures { result ≡ has_ended (job_view machine.now.world job) }
{
    match machine.job(job) {
        Some(view) => view.stop.is_some(),
        None => true,
    }
}

/// Whether a stop is at an address where the PC of its job is.
#[inline(always)]
fn is_at(machine: &Machine, stop: &StopCondition) -> bool
    ensures { result ≡ is_at machine.now stop.now }
{
    match *stop {
        StopCondition::At(job, address, _) => has_pc(machine, job, address),
        _ => false,
    }
}

impl WatchedStop {
    /// Notes whether the PC of its job is at its address now.
    #[inline(always)]
    pub fn note(&mut self, machine: &Machine)
        ensures { self.new ≡ noted machine.now self.old }
    {
        self.stood = is_at(machine, &self.stop);
    }

    /// Whether it holds after a round in which a job ran, where it was noted before the round.
    #[inline(always)]
    pub fn is_met(&self, machine: &Machine, ran: Option<u8>) -> bool
        ensures { result ≡ is_met_at machine.now ran self.now }
    {
        is_met(machine, ran, &self.stop, self.stood)
    }
}

/// Notes for each stop whether the PC of its job is at its address now.
#[inline(always)]
fn note_stood(machine: &Machine, stops: &mut [WatchedStop])
    ensures { stops.new ≡ map (noted machine.now) stops.old }
{
    for one in stops.iter_mut() {
        one.stood = is_at(machine, &one.stop);
    }
}

/// Whether a condition, if there is one, holds of the words of a job.
#[inline(always)]
fn fits(machine: &Machine, job: u8, condition: Option<Condition>) -> bool
    ensures { result ≡ fits machine.now job condition }
{
    match condition {
        Some(condition) => condition.holds_of(machine.peek(job, condition.address)),
        None => true,
    }
}

/// Whether a stop holds after a round in which a job ran, where `stood` says whether the PC of its job was at its address
/// before.
#[inline(always)]
fn is_met(machine: &Machine, ran: Option<u8>, stop: &StopCondition, stood: bool) -> bool
    ensures { result ≡ is_met stood machine.now ran stop.now }
{
    match *stop {
        StopCondition::At(job, address, condition) => {
            stands_at(machine, job, address)
                && (ran == Some(job) || !stood)
                && fits(machine, job, condition)
        }
        StopCondition::Turn(job) => ran == Some(job),
        StopCondition::End(job) => ran == Some(job) && has_ended(machine, job),
        StopCondition::Word(job, address, word) => !is_word(machine.peek(job, address), word),
        StopCondition::Input => match ran {
            Some(job) => waits_for_input(machine, job),
            None => false,
        },
    }
}

/// The first of some stops that holds after a round in which a job ran.
#[inline(always)]
fn first_met(machine: &Machine, ran: Option<u8>, stops: &[WatchedStop]) -> Option<usize>
    ensures { result ≡ position (is_met_at machine.now ran) stops.now }
{
    for (i, one) in stops.iter().enumerate() {
        if is_met(machine, ran, &one.stop, one.stood) {
            return Some(i);
        }
    }
    None
}

/// Whether a wait ends by ticks alone, or is none.
#[inline(always)]
fn ends_by_ticks(wait: Wait) -> bool
    ensures { result ≡ ends_by_ticks wait }
{
    match wait {
        Wait::None | Wait::Sleep(_) => true,
        Wait::Queue(limit, _) => limit > 0,
        Wait::Char | Wait::Line | Wait::Room(_) => false,
    }
}

/// Whether a job can go on now, or will by ticks alone.
#[inline(always)]
fn goes_on(machine: &Machine, number: u8) -> bool
    ensures { result ≡ goes_on (job_view machine.now.world number) }
{
    match machine.job(number) {
        None => false,
        Some(view) => view.stop.is_none() && ends_by_ticks(view.wait),
    }
}

/// Whether any job can go on now, or will by ticks alone.
#[inline(never)]
pub fn some_go_on(machine: &Machine) -> bool
    ensures { result ≡ some_go_on machine.now }
{
    for number in 1..JOBS + 1 {
        if goes_on(machine, number) {
            return true;
        }
    }
    false
}

/// Whether a wait is none.
fn is_no_wait(wait: Wait) -> bool
    ensures { result ≡ is_no_wait wait }
{
    matches!(wait, Wait::None)
}

/// Whether a job can run now: it is not stopped, and waits for nothing.
#[inline(always)]
fn can_run(machine: &Machine, number: u8) -> bool
    ensures { result ≡ can_run (job_view machine.now.world number) }
{
    match machine.job(number) {
        None => false,
        Some(view) => view.stop.is_none() && is_no_wait(view.wait),
    }
}

/// Whether a job, which ran last, can run now: then some job is next.
#[inline(always)]
fn can_run_again(machine: &Machine, job: Option<u8>) -> bool
    ensures { result ≡ true → is_some (next_in machine.now) ≡ true }
{
    let Some(number) = job else {
        return false;
    };
    if number == 0 || number > JOBS {
        return false;
    }
    can_run(machine, number)
}

/// Whether an address is one of some.
fn is_among(addresses: &[Address], address: Address) -> bool
    ensures { result ≡ is_among addresses.now address }
{
    for one in addresses {
        if *one == address {
            return true;
        }
    }
    false
}

/// Whether a stop is at an address, and that is one of some.
fn is_at_one_of(addresses: &[Address], stop: &StopCondition) -> bool
    ensures { result ≡ is_at_one_of addresses.now stop.now }
{
    match *stop {
        StopCondition::At(_, address, _) => is_among(addresses, address),
        _ => false,
    }
}

/// Whether all stops are at addresses, which are among these.
fn are_within(addresses: &[Address], stops: &[WatchedStop]) -> bool
    ensures { result ≡ list_all (is_within addresses.now) stops.now }
{
    for one in stops {
        if !is_at_one_of(addresses, &one.stop) {
            return false;
        }
    }
    true
}

/// How many rounds of a job may be made at once: any number where all stops are at some of these addresses, and one otherwise.
fn most_at_once(addresses: &[Address], stops: &[WatchedStop]) -> u32
    ensures least { 1 ≤ result }
    ensures many { 2 ≤ result → list_all (is_within addresses.now) stops.now ≡ true }
{
    if are_within(addresses, stops) {
        u32::MAX
    } else {
        1
    }
}

/// How many rounds may be made next, of those that are left: as many as may be made at once where a job is ready, and one
/// otherwise, as a tick may end the run.
fn most_next(at_once: u32, is_ready: bool, left: u32) -> u32
    requires some { 1 ≤ at_once }
    requires left { 1 ≤ left }
    ensures least { 1 ≤ result }
    ensures most { result ≤ left }
    ensures ready { 2 ≤ result → is_ready ≡ true }
    ensures many { 2 ≤ result → 2 ≤ at_once }
{
    if is_ready { at_once.min(left) } else { 1 }
}

/// Whether a run may go on: nothing has ended it, it has made fewer steps than it may, and some job goes on, as one does where
/// one is ready.
#[inline(always)]
fn may_go_on(machine: &Machine, ran: &Run, most: u32, is_ready: bool) -> bool
    requires { is_ready ≡ true → is_some (next_in machine.now) ≡ true }
    ensures stop { result ≡ true → ran.now.stop ≡ None }
    ensures few { result ≡ true → ran.now.made < most }
    ensures quiet { result ≡ true → ran.now.by_watch ≡ false }
    ensures going { result ≡ true → SomeGoesOn machine.now }
    ensures ends { result ≡ false → ran.now.made < most → ran.now.stop ≡ None → ran.now.by_watch ≡ false → some_go_on machine.now ≡ false }
{
    if ran.stop.is_some() || ran.by_watch || ran.made >= most {
        return false;
    }
    is_ready || some_go_on(machine)
}

/// Whether a watch ends a run, where it would and a stop may hold: a stop comes first.
fn is_ended_by(ends: bool, stop: Option<usize>) -> bool
    ensures { result ≡ (ends && is_none stop) }
{
    ends && stop.is_none()
}

/// Makes the next rounds: one by the watch, where it looks at each round, and else 1 to `most` of the job that is next, up to
/// the first after which its PC is one of `addresses`. Gives them, and whether the watch ends the run after them.
#[inline(always)]
fn make_rounds<W: Watch>(
    machine: &mut Machine,
    watch: &mut W,
    is_watched: bool,
    most: u32,
    addresses: &[Address],
) -> (Rounds, bool)
    requires { 1 ≤ most }
    ensures state { machine.new ≡ after (rounds result.0.made true) machine.old }
    ensures next { next_in machine.old ≡ result.0.job }
    ensures least { 1 ≤ result.0.made }
    ensures most { result.0.made ≤ most }
    ensures between { (k : ℕ) → 1 ≤ k → k < result.0.made
        → Between machine.old (after (rounds k true) machine.old) result.0.job (is_among addresses.now) }
    ensures one { is_watched ≡ true → result.0.made ≡ 1 }
    ensures asked { is_watched ≡ true → W.Asks watch.old watch.new machine.old result.1 }
    ensures quiet { is_watched ≡ false → result.1 ≡ false }
{
    if is_watched {
        let (job, ends) = watch.make_round(machine);
        return (Rounds { made: 1, job }, ends);
    }
    (machine.rounds_to(most, addresses), false)
}

/// Makes steps, each followed by a tick, until a stop holds, the watch ends the run, no job can go on, or `most` are made.
/// Where all stops are at these addresses and no watch looks at each round, the rounds of a job are made at once, up to the
/// first that leaves its PC at one of them. A watch that does not look at each round ends no run.
pub fn run_until<W: Watch>(
    machine: &mut Machine,
    stops: &mut [WatchedStop],
    addresses: &[Address],
    most: u32,
    watch: &mut W,
) -> Run
    ensures state { machine.new ≡ after (rounds result.made true) machine.old }
    ensures run { IsRun machine.old stops.old most result }
    ensures stood { stops.new ≡ map (noted machine.new) stops.old }
    ensures watched { result.by_watch ≡ true → W.looks watch.old ≡ true }
    ensures asked { W.looks watch.old ≡ true → 1 ≤ result.made → IsAsked W.Asks machine.old watch.old watch.new result }
{
    let is_watched = watch.looks_at_rounds();
    let at_once = most_at_once(addresses, stops);
    let mut ran = Run {
        made: 0,
        stop: None,
        by_watch: false,
    };
    let mut is_ready = false;
    note_stood(machine, stops);
    while may_go_on(machine, &ran, most, is_ready) {
        let next = most_next(at_once, is_ready, most - ran.made);
        let (rounds, ends) = make_rounds(machine, watch, is_watched, next, addresses);
        ran.made += rounds.made;
        ran.stop = first_met(machine, rounds.job, stops);
        ran.by_watch = is_ended_by(ends, ran.stop);
        is_ready = can_run_again(machine, rounds.job);
        note_stood(machine, stops);
    }
    ran
}
