//! The stops of a run, and why it stopped.
ghost use Rattle.std.specs.Prelude.{◌≡◌, ◌++◌, [], ◌∷◌, IfOk, OnOk, map};
ghost use Rattle.std.specs.List.{flat_map};
ghost use Rattle.ddt_moves.specs.RunStops.{cause_at, cause_of, causes_from, causes_in};
ghost use Rattle.ddt_moves.specs.RunStops.{stop_at, stop_if_each, stop_of_word, stops_in, watched};

use crate::stop_lists::{Breakpoint, StopList, WatchedWord};
use concrete_machine::Machine;
use ddt_timeline::{StopCondition, WatchedStop};
use std::alloc::{AllocError, Global};
use word36::{Address, Word};

/// Why a run stopped.
#[derive(Clone, Copy)]
pub enum StopCause {
    /// A job came to the breakpoint of this number, from 1: the job and the address.
    Breakpoint(usize, u8, u32),
    /// A watched word of a job changed: the job, the address, and the word before.
    Word(u8, u32, Option<Word>),
    /// A circle of waits closed.
    Circle,
    /// The command's own stop: the open job had its turn, its call returned, or it ended.
    Own,
    /// A job waits for characters.
    Input,
    /// This job stands before a call on the lock of `.BREAK LOCK`.
    Call(u8),
    /// A request was granted.
    Grant,
}

/// The stops of a run.
#[derive(Drop)]
pub struct RunStops {
    /// The stops.
    pub stops: Vec<WatchedStop>,
    /// For each stop why a run stopped that it ended.
    pub causes: Vec<StopCause>,
    /// The addresses of the stops at addresses.
    pub addresses: Vec<Address>,
}

/// Why a run stopped that a stop ended, where it is that of the breakpoint of this number, or 0 where it is that of none.
fn cause_of(number: usize, stop: &StopCondition) -> StopCause
    ensures { result ≡ cause_of number stop.now }
{
    match *stop {
        StopCondition::At(job, address, _) => {
            if number > 0 {
                StopCause::Breakpoint(number, job, address.number())
            } else {
                StopCause::Own
            }
        }
        StopCondition::Turn(_) | StopCondition::End(_) => StopCause::Own,
        StopCondition::Word(job, address, was) => StopCause::Word(job, address, was),
        StopCondition::Input => StopCause::Input,
    }
}

impl RunStops {
    /// Adds a stop, with the number of its breakpoint, or 0.
    pub fn add(&mut self, stop: StopCondition, number: usize) -> Result<(), AllocError>
        ensures stops { OnOk result (self.new.stops.items ≡ self.old.stops.items ++ watched stop ∷ []) }
        ensures causes { OnOk result (self.new.causes.items ≡ self.old.causes.items ++ cause_of number stop ∷ []) }
    {
        // A stop may hold a word, or none: the prover wants that type to be named.
        let _word: Option<Word> = None;
        if let StopCondition::At(_, address, _) = stop {
            self.addresses.push(address)?;
        }
        self.causes.push(cause_of(number, &stop))?;
        self.stops.push(WatchedStop { stop, stood: false })?;
        Ok(())
    }

    /// Adds the stops of a command, which are no breakpoints.
    fn add_own(&mut self, own: &[StopCondition]) -> Result<(), AllocError>
        ensures stops { OnOk result (self.new.stops.items ≡ self.old.stops.items ++ map watched own.now) }
        ensures causes { OnOk result (self.new.causes.items ≡ self.old.causes.items ++ map (cause_of 0) own.now) }
    {
        for stop in own {
            self.add(*stop, 0)?;
        }
        Ok(())
    }

    /// Adds the stop of a breakpoint of a number, where each time counts.
    fn add_each(
        &mut self,
        counts: bool,
        breakpoint: &Breakpoint,
        number: usize,
    ) -> Result<(), AllocError>
        ensures stops { OnOk result (self.new.stops.items ≡ self.old.stops.items ++ map watched (stop_if_each counts breakpoint.now)) }
        ensures causes { OnOk result
            (self.new.causes.items ≡ self.old.causes.items ++ map (cause_of number) (stop_if_each counts breakpoint.now)) }
    {
        if counts {
            Ok(())
        } else {
            self.add(breakpoint.stop(), number)
        }
    }

    /// Adds the stop of a breakpoint of a number, where it is set and each time counts.
    fn add_breakpoint(
        &mut self,
        breakpoint: &Option<Breakpoint>,
        number: usize,
    ) -> Result<(), AllocError>
        ensures stops { OnOk result (self.new.stops.items ≡ self.old.stops.items ++ map watched (stop_at breakpoint.now)) }
        ensures causes { OnOk result
            (self.new.causes.items ≡ self.old.causes.items ++ map (cause_of number) (stop_at breakpoint.now)) }
    {
        match breakpoint {
            Some(one) => self.add_each(one.counts(), one, number),
            None => Ok(()),
        }
    }

    /// Adds the stops of the breakpoints that are set and for which each time counts.
    fn add_breakpoints(&mut self, breakpoints: &[Option<Breakpoint>]) -> Result<(), AllocError>
        ensures stops { OnOk result (self.new.stops.items ≡ self.old.stops.items ++ map watched (flat_map stop_at breakpoints.now)) }
        ensures causes { OnOk result (self.new.causes.items ≡ self.old.causes.items ++ causes_from 1 breakpoints.now) }
    {
        for i in 0..breakpoints.len() {
            self.add_breakpoint(&breakpoints[i], i + 1)?;
        }
        Ok(())
    }

    /// Adds the stops of watched words, as they are now.
    fn add_words(&mut self, machine: &Machine, words: &[WatchedWord]) -> Result<(), AllocError>
        ensures stops { OnOk result
            (self.new.stops.items ≡ self.old.stops.items ++ map watched (map (stop_of_word machine.now) words.now)) }
        ensures causes { OnOk result
            (self.new.causes.items ≡ self.old.causes.items ++ map (cause_of 0) (map (stop_of_word machine.now) words.now)) }
    {
        for one in words {
            let word = machine.peek(one.job, one.address);
            self.add(StopCondition::Word(one.job, one.address, word), 0)?;
        }
        Ok(())
    }

    /// Why a run stopped that the stop at this position ended, if one did.
    pub fn cause(&self, stop: Option<usize>) -> Option<StopCause>
        ensures { result ≡ cause_at self.now.causes.items stop }
    {
        match stop {
            Some(position) => self.causes.as_slice().get(position).copied(),
            None => None,
        }
    }
}

/// The stops of a run: its own, and behind them those that the user set, with the watched words as they are now.
pub fn stops_of(
    alloc: Global,
    machine: &Machine,
    own: &[StopCondition],
    list: &StopList,
) -> Result<RunStops, AllocError>
    ensures stops { IfOk result (λ run. run.stops.items ≡ map watched own.now ++ map watched (stops_in machine.now list.now)) }
    ensures causes { IfOk result (λ run. run.causes.items ≡ map (cause_of 0) own.now ++ causes_in machine.now list.now) }
{
    let mut stops = RunStops {
        stops: Vec::new(alloc),
        causes: Vec::new(alloc),
        addresses: Vec::new(alloc),
    };
    stops.add_own(own)?;
    stops.add_breakpoints(&list.breakpoints)?;
    stops.add_words(machine, list.words.as_slice())?;
    Ok(stops)
}
