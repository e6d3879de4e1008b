//! What has happened to a machine, made once more, step by step.

ghost use Rattle.std.specs.Prelude.{◌≡◌, ◌+◌, ◌-◌, ◌^◌, ◌<◌, ◌∷◌, ◌++◌, [], List, None, IfOk, false};
ghost use Rattle.std.specs.Prelude.{length, min, replicate, true};
ghost use Rattle.machine.specs.Between.{next_in};
ghost use Rattle.ddt_timeline.specs.Histories.{one_step, things_of};
ghost use Rattle.ddt_timeline.specs.declared.entries.Entry.{Entry};
ghost use Rattle.ddt_timeline.specs.Stops.{round};
ghost use Rattle.ddt_timeline.specs.Views.{history};
ghost use Rattle.ddt_timeline.specs.Timelines.{steps_in};
ghost use Rattle.ddt_moves.specs.Replays.{after_steps, before_step, behind_steps, from_step, is_ready, machine_in, steps_made, to_come};

use concrete_machine::Machine;
use ddt_timeline::{Entry, Timeline, let_go, perform, round};
use std::alloc::AllocError;

/// A second machine, to which all happens once more that has happened to that of a timeline.
#[derive(Drop)]
pub struct Replay<'a> {
    machine: Machine,
    /// The whole entries that are still to happen.
    entries: &'a [Entry],
    /// How many steps are still to be made behind them.
    part: u32,
    /// How many steps of the entry at hand are left.
    left: u32,
    /// How many steps have been made.
    steps: u64,
}

/// Begins an entry, and gives how many steps it has: it happens at once where it has none.
fn begin(machine: &mut Machine, entry: &Entry) -> u32
    ensures things { (l : List Entry) → from_step (replicate result one_step ++ l) ≡ from_step (things_of entry.now ++ l) }
    ensures machine { (l : List Entry) → before_step (replicate result one_step ++ l) machine.new
        ≡ before_step (things_of entry.now ++ l) machine.old }
{
    match entry {
        Entry::Rounds(count) => *count,
        _ => {
            perform(machine, entry);
            0
        }
    }
}

impl<'a> Replay<'a> {
    /// A machine at boot, to which nothing has happened yet.
    pub fn of(timeline: &'a Timeline) -> Result<Self, AllocError>
        ensures machine { IfOk result (λ r. machine_in r ≡ (history timeline.now).boot) }
        ensures steps { IfOk result (λ r. steps_made r ≡ 0) }
        ensures to_come { IfOk result (λ r. to_come r ≡ (history timeline.now).past) }
    {
        Ok(Replay {
            machine: timeline.boot()?,
            entries: timeline.entries(),
            part: timeline.part(),
            left: 0,
            steps: 0,
        })
    }

    /// Ends the replay, and gives back its memory.
    pub fn end(self) {
        let_go(self.machine);
    }

    /// The machine.
    pub fn machine(&self) -> &Machine
        ensures { result.now ≡ machine_in self.now }
    {
        &self.machine
    }

    /// How many steps have been made.
    pub fn steps(&self) -> u64
        ensures { result ≡ steps_made self.now }
    {
        self.steps
    }

    /// Takes the next entry, where no steps are left: its steps are left then, or it happens at once. False where there is none.
    fn next_entry(&mut self) -> bool
        requires { is_ready self.old ≡ false }
        ensures to_come { from_step (to_come self.new) ≡ from_step (to_come self.old) }
        ensures machine { before_step (to_come self.new) (machine_in self.new) ≡ before_step (to_come self.old) (machine_in self.old) }
        ensures steps { steps_made self.new ≡ steps_made self.old }
        ensures end { result ≡ false → to_come self.new ≡ [] }
        ensures fewer { result ≡ true → length self.new.entries.now + self.new.part < length self.old.entries.now + self.old.part }
    {
        match self.entries {
            [] => {
                self.left = self.part;
                self.part = 0;
                self.left > 0
            }
            [entry, later @ ..] => {
                self.left = begin(&mut self.machine, entry);
                self.entries = later;
                true
            }
        }
    }

    /// Makes all entries happen before the next step; false where no step is left.
    pub fn go_before_step(&mut self) -> bool
        ensures ready { result ≡ is_ready self.new }
        ensures to_come { to_come self.new ≡ from_step (to_come self.old) }
        ensures machine { machine_in self.new ≡ before_step (to_come self.old) (machine_in self.old) }
        ensures steps { steps_made self.new ≡ steps_made self.old }
        ensures end { result ≡ false → to_come self.new ≡ [] }
    {
        while self.left == 0 {
            if !self.next_entry() {
                return false;
            }
        }
        true
    }

    /// Makes a step, if one is left, and gives the job that ran.
    pub fn step(&mut self) -> Option<u8>
        ensures made { is_ready self.old ≡ true → one_step ∷ to_come self.new ≡ to_come self.old }
        ensures machine { is_ready self.old ≡ true → machine_in self.new ≡ round (machine_in self.old) }
        ensures steps { is_ready self.old ≡ true → steps_made self.new ≡ min (2 ^ 64 - 1) (steps_made self.old + 1) }
        ensures ran { is_ready self.old ≡ true → result ≡ next_in (machine_in self.old) }
        ensures none { is_ready self.old ≡ false → result ≡ None }
        ensures stays { is_ready self.old ≡ false → self.new ≡ self.old }
    {
        if self.left == 0 {
            return None;
        }
        self.left -= 1;
        self.steps = self.steps.saturating_add(1);
        round(&mut self.machine)
    }

    /// Makes steps, and what happens between them, until so many have been made since boot or none is left.
    pub fn skip_to(&mut self, steps: u64)
        ensures to_come { to_come self.new ≡ behind_steps (steps - steps_made self.old) (to_come self.old) }
        ensures machine { machine_in self.new ≡ after_steps (steps - steps_made self.old) (to_come self.old) (machine_in self.old) }
        ensures steps { steps_made self.new
            ≡ steps_made self.old + min (steps - steps_made self.old) (steps_in (to_come self.old)) }
    {
        while self.steps < steps {
            if !self.go_before_step() {
                return;
            }
            let count = (steps - self.steps).min(u64::from(self.left)) as u32;
            self.machine.steps(count, true);
            self.left -= count;
            self.steps += u64::from(count);
        }
    }
}
