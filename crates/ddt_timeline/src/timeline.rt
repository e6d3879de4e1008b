//! A machine with all that has happened to it, so that it can be put back to any of its steps.
ghost use Rattle.std.specs.Prelude.{◌≡◌, ◌+◌, ◌-◌, ◌≤◌, ◌<◌, [], ◌∷◌, None, OnErr, OnOk};
ghost use Rattle.std.specs.Prelude.{IfOk, IfSome, drop, false, take, length, min, replicate, true};
ghost use Rattle.word36.specs.declared.sizes.TheConstants.{MOST_REQUESTS};
ghost use Rattle.machine.specs.Deposits.{is_done_by_hand};
ghost use Rattle.machine.specs.Machine.{at_boot};
ghost use Rattle.ddt_timeline.specs.Histories.{is_place, is_place_in};
ghost use Rattle.ddt_timeline.specs.Timelines.{reached, steps_in, steps_of, ticks_of};

use crate::entries::{Entry, perform, play};
use crate::stops::{Run, Watch, WatchedStop, run_until};
use concrete_machine::Machine;
use ka_state::Outcome;
use monitor::{Answer, Config, is_complete};
use std::alloc::{AllocError, Global};
use std::mem;
use word36::{Address, Word};

/// A machine with all that has happened to it.
///
/// `whole` entries have happened to the machine, and `part` steps after them. The entries behind these happened before the
/// machine was put back, and are forgotten as soon as something else happens.
#[derive(Drop)]
pub struct Timeline {
    alloc: Global,
    config: Config,
    machine: Machine,
    entries: Vec<Entry>,
    whole: usize,
    part: u32,
    ghost within: { whole ≤ length entries.items },
    ghost placed: { is_place_in entries.items whole part ≡ true },
    ghost reached: { machine ≡ reached entries.items whole part (at_boot MOST_REQUESTS config.blocks config.quantum) },
}

/// How many steps an entry has.
fn steps_of(entry: &Entry) -> u32
    ensures { result ≡ steps_of entry.now }
{
    match entry {
        Entry::Rounds(count) => *count,
        _ => 0,
    }
}

/// How many ticks an entry has.
fn ticks_of(entry: &Entry) -> u32
    ensures { result ≡ ticks_of entry.now }
{
    match entry {
        Entry::Rounds(count) | Entry::Ticks(count) => *count,
        _ => 0,
    }
}

/// How many whole entries, and how many steps after them, come to so many steps. `None` where the entries have fewer.
fn position_of(entries: &[Entry], steps: u64) -> Option<(usize, u32)>
    ensures within { IfSome result (λ p. p.0 ≤ length entries.now) }
    ensures count { IfSome result (λ p. steps_in (take p.0 entries.now) + p.1 ≡ steps) }
    ensures place { IfSome result (λ p. is_place (drop p.0 entries.now) p.1 ≡ true) }
    ensures fewer { result ≡ None → steps_in entries.now < steps }
{
    let mut left = steps;
    for i in 0..entries.len() {
        let count = u64::from(steps_of(&entries[i]));
        if left < count {
            return Some((i, left as u32));
        }
        left -= count;
    }
    if left > 0 {
        return None;
    }
    Some((entries.len(), 0))
}

/// The first so many of some entries.
fn beginning(entries: &Vec<Entry>, count: usize) -> &[Entry]
    requires { count ≤ length entries.now.items }
    ensures { result.now ≡ take count entries.now.items }
{
    &entries.as_slice()[..count]
}

/// Whether an instruction was completed.
fn is_done(end: &Option<Outcome>) -> bool
    ensures { result ≡ is_done_by_hand end.now }
{
    match end {
        Some(end) => is_complete(end),
        None => false,
    }
}

/// Gives back the memory of a machine.
pub fn let_go(machine: Machine) {}

impl Timeline {
    ghost use Rattle.machine.specs.Deposits.{end_by_hand};
    ghost use Rattle.ddt_timeline.specs.Histories.{at_end, cut, done, everything};
    ghost use Rattle.ddt_timeline.specs.Histories.{history_of, is_before_step, machine_of, one_step, things_of};
    ghost use Rattle.ddt_timeline.specs.Asking.{IsAsked};
    ghost use Rattle.ddt_timeline.specs.Runs.{IsRun};
    ghost use Rattle.ddt_timeline.specs.Stops.{stops_of};
    ghost use Rattle.ddt_timeline.specs.Timelines.{answer_to, ticks_in};
    ghost use Rattle.ddt_timeline.specs.declared.entries.Entry.TheVariants.{Execute};
    ghost use Rattle.ddt_timeline.specs.Views.{history, steps_behind, whole_entries};

    /// A machine to which nothing has happened.
    pub fn new(alloc: Global, config: Config) -> Result<Self, AllocError>
        ensures boot { IfOk result (λ new. (history new).boot ≡ at_boot MOST_REQUESTS config.blocks config.quantum) }
        ensures past { IfOk result (λ new. (history new).past ≡ []) }
        ensures ahead { IfOk result (λ new. (history new).ahead ≡ []) }
    {
        let machine = Machine::boot(alloc, config)?;
        Ok(Timeline {
            alloc,
            config,
            machine,
            entries: Vec::new(alloc),
            whole: 0,
            part: 0,
        })
    }

    /// Where memory comes from.
    pub fn alloc(&self) -> Global {
        self.alloc
    }

    /// The machine: what has happened, from boot on.
    #[tactic(auto, using(crate::proofs::HistoryLemmas::past_reached))]
    pub fn machine(&self) -> &Machine
        ensures { result.now ≡ machine_of (history self.now) }
    {
        &self.machine
    }

    /// How many steps have been made, or 2 ^ 64 - 1 where there are more.
    pub fn steps(&self) -> u64
        ensures { result ≡ min u64.MAX (steps_in (history self.now).past) }
    {
        let mut steps = u64::from(self.part);
        for entry in self.entries() {
            steps = steps.saturating_add(u64::from(steps_of(entry)));
        }
        steps
    }

    /// How many ticks have gone by, or 2 ^ 64 - 1 where there are more.
    pub fn ticks(&self) -> u64
        ensures { result ≡ min u64.MAX (ticks_in (history self.now).past) }
    {
        let mut ticks = u64::from(self.part);
        for entry in self.entries() {
            ticks = ticks.saturating_add(u64::from(ticks_of(entry)));
        }
        ticks
    }

    /// How many whole entries have happened.
    pub fn happened(&self) -> usize
        ensures { result ≡ length (whole_entries self.now) }
    {
        self.whole
    }

    /// A second machine, to which nothing has happened.
    pub fn boot(&self) -> Result<Machine, AllocError>
        ensures { IfOk result (λ machine. machine ≡ (history self.now).boot) }
    {
        Machine::boot(self.alloc, self.config)
    }

    /// The whole entries that have happened.
    pub fn entries(&self) -> &[Entry]
        ensures { result.now ≡ whole_entries self.now }
    {
        beginning(&self.entries, self.whole)
    }

    /// How many steps have been made after the whole entries.
    pub fn part(&self) -> u32
        ensures { result ≡ steps_behind self.now }
    {
        self.part
    }

    /// Makes an entry of the steps after the last one.
    fn settle(&mut self) -> Result<(), AllocError>
        ensures kept { history self.new ≡ history self.old }
        ensures machine { self.new.machine ≡ self.old.machine }
        ensures place { OnOk result (is_place (drop self.new.whole self.new.entries.items) self.new.part ≡ true) }
        ensures end { OnOk result (self.old.whole ≡ length self.old.entries.items
            → (self.new.whole ≡ length self.new.entries.items) × (self.new.part ≡ 0)) }
    {
        if self.whole == self.entries.len() && self.part > 0 {
            self.entries.push(Entry::Rounds(self.part))?;
            self.whole += 1;
            self.part = 0;
        }
        Ok(())
    }

    /// Forgets what happened before the machine was put back, and leaves room for `more` steps behind the last entry: where there
    /// would be too many, those that were made there become an entry.
    fn cut(&mut self, more: u32) -> Result<(), AllocError>
        ensures kept { history self.new ≡ cut (history self.old) }
        ensures machine { self.new.machine ≡ self.old.machine }
        ensures last { OnOk result (self.new.whole ≡ length self.new.entries.items) }
        ensures room { OnOk result (self.new.part + more ≤ u32.MAX) }
    {
        self.entries.truncate(self.whole);
        if self.part > u32::MAX - more {
            self.settle()?;
        }
        Ok(())
    }

    /// Makes an entry happen, and forgets what happened before the machine was put back. Where memory is short it does not
    /// happen, and what was ahead is forgotten.
    pub fn make(&mut self, entry: Entry) -> Result<Answer, AllocError>
        ensures happened { OnOk result (history self.new ≡ done (history self.old) (things_of entry)) }
        ensures answer { IfOk result (λ answer. answer ≡ answer_to (machine_of (history self.old)) entry) }
        ensures fails { OnErr result (history self.new ≡ cut (history self.old)) }
    {
        self.cut(u32::MAX)?;
        self.entries.push(entry)?;
        let answer = perform(&mut self.machine, &self.entries[self.whole]);
        self.whole += 1;
        Ok(answer)
    }

    /// Executes an instruction for a job by hand, and forgets what happened before the machine was put back. Tells how the
    /// processor ends it; `None` where the job is not there. Where it is not complete nothing happens.
    pub fn execute(&mut self, number: u8, word: Word) -> Result<Option<Outcome>, AllocError>
        ensures end { IfOk result (λ end. end ≡ end_by_hand (machine_of (history self.old)) number word) }
        ensures happened { IfOk result (λ end. is_done_by_hand end ≡ true
            → history self.new ≡ done (history self.old) (Execute number word ∷ [])) }
        ensures nothing { IfOk result (λ end. is_done_by_hand end ≡ false → history self.new ≡ cut (history self.old)) }
        ensures fails { OnErr result (history self.new ≡ cut (history self.old)) }
    {
        self.cut(u32::MAX)?;
        self.entries.push(Entry::Execute(number, word))?;
        let end = self.machine.execute(number, word);
        if is_done(&end) {
            self.whole += 1;
        } else {
            self.entries.truncate(self.whole);
        }
        Ok(end)
    }

    /// Makes steps until a stop holds, the watch ends the run, no job can go on, or `most` are made, and forgets what happened
    /// before the machine was put back. The addresses are those of the stops at addresses.
    pub fn run<W: Watch>(
        &mut self,
        stops: &mut [WatchedStop],
        addresses: &[Address],
        most: u32,
        watch: &mut W,
    ) -> Result<Run, AllocError>
        ensures happened { IfOk result (λ ran. history self.new ≡ done (history self.old) (replicate ran.made one_step)) }
        ensures run { IfOk result (λ ran. IsRun (machine_of (history self.old)) stops.old most ran) }
        ensures stops { stops_of stops.new ≡ stops_of stops.old }
        ensures watched { IfOk result (λ ran. ran.by_watch ≡ true → W.looks watch.old ≡ true) }
        ensures asked { IfOk result (λ ran. W.looks watch.old ≡ true → 1 ≤ ran.made
            → IsAsked W.Asks (machine_of (history self.old)) watch.old watch.new ran) }
        ensures fails { OnErr result (history self.new ≡ cut (history self.old)) }
    {
        self.cut(most)?;
        let ran = run_until(&mut self.machine, stops, addresses, most, watch);
        self.part += ran.made;
        Ok(ran)
    }

    /// Puts the machine where so many whole entries have happened, and so many steps after them.
    fn go_to(&mut self, whole: usize, part: u32) -> Result<(), AllocError>
        requires within { whole ≤ length self.old.entries.items }
        requires place { is_place (drop whole self.old.entries.items) part ≡ true }
        ensures there { OnOk result (history self.new ≡ history_of (history self.old).boot self.old.entries.items whole part) }
        ensures stays { OnErr result (history self.new ≡ history self.old) }
    {
        let mut machine = Machine::boot(self.alloc, self.config)?;
        play(&mut machine, beginning(&self.entries, whole));
        machine.steps(part, true);
        let_go(mem::replace(&mut self.machine, machine));
        self.whole = whole;
        self.part = part;
        Ok(())
    }

    /// Puts the machine to the last of the places in its history before which so many steps have been made: a step is next
    /// there, or nothing. False, and nothing changes, where fewer were made in all. What has happened is kept.
    pub fn put_back(&mut self, steps: u64) -> Result<bool, AllocError>
        ensures kept { everything (history self.new) ≡ everything (history self.old) }
        ensures boot { (history self.new).boot ≡ (history self.old).boot }
        ensures there { IfOk result (λ has_so_many. has_so_many ≡ true → steps_in (history self.new).past ≡ steps) }
        ensures last { IfOk result (λ has_so_many. has_so_many ≡ true → is_before_step (history self.new).ahead ≡ true) }
        ensures fewer { IfOk result (λ has_so_many. has_so_many ≡ false → steps_in (everything (history self.old)) < steps) }
        ensures stays { IfOk result (λ has_so_many. has_so_many ≡ false → history self.new ≡ history self.old) }
        ensures fails { OnErr result (history self.new ≡ history self.old) }
    {
        self.settle()?;
        let Some((whole, part)) = position_of(self.entries.as_slice(), steps) else {
            return Ok(false);
        };
        self.go_to(whole, part)?;
        Ok(true)
    }

    /// Puts the machine where all that is kept has happened.
    pub fn forward(&mut self) -> Result<(), AllocError>
        ensures end { OnOk result (history self.new ≡ at_end (history self.old)) }
        ensures fails { OnErr result (history self.new ≡ history self.old) }
    {
        self.settle()?;
        let whole = self.entries.len();
        self.go_to(whole, 0)?;
        Ok(())
    }
}
