//! A loop of two instructions in some jobs of the machine, for measuring.

use crate::machines::Machine;
use core_store::{CoreStore, PlainCore};
use job_sched::NO_FLAGS;
use ka_cpu::step;
use ka_state::{CoreWords, Outcome, Regs};
use monitor::{Answer, Event};
use std::alloc::{AllocError, Global};
use word36::{Address, Image, Word};

/// Counts up in AC 1 and down in AC 2.
static LOOP: [(u32, u64); 4] = [
    (0o1, 0),
    (0o2, 0o377777_777777),
    (0o140, 0o271040_000001),
    (0o141, 0o367100_000140),
];

/// Where the loop starts.
const START: u32 = 0o140;

/// What is run.
#[derive(Clone, Copy)]
pub enum Load {
    /// Bare instructions.
    Bare,
    /// Steps of the machine.
    Steps,
    /// Steps, each with a tick behind it.
    Ticked,
    /// The same as lists of two events.
    Pairs,
    /// Ticks alone.
    Ticks,
}

impl Load {
    /// The load of this name.
    pub fn of(name: &str) -> Option<Load> {
        match name {
            "bare" => Some(Load::Bare),
            "steps" => Some(Load::Steps),
            "ticked" => Some(Load::Ticked),
            "pairs" => Some(Load::Pairs),
            "ticks" => Some(Load::Ticks),
            _ => None,
        }
    }
}

/// A load, how many times it is run, in how many jobs, 1 to 63, and by what quantum.
#[derive(Clone, Copy)]
pub struct Measured {
    /// What is run.
    pub load: Load,
    /// How many times.
    pub count: u32,
    /// The jobs with the loop.
    pub jobs: u8,
    /// The ticks of a quantum.
    pub quantum: u8,
}

/// Executes so many instructions of the loop in a core of its own, and counts those that are done.
#[inline(never)]
fn bare(cores: &mut PlainCore, most: u32) -> u32 {
    if cores.blocks(1) > 0 || cores.take(1, 1).is_err() {
        return 0;
    }
    let words = cores.window(1);
    let mut regs = Regs {
        ac: [Word::new(0); 16],
        pc: Address::new(START),
        flags: NO_FLAGS,
    };
    for (address, word) in LOOP.iter() {
        let at = *address as usize;
        if at < 16 {
            regs.ac[at] = Word::low_bits(*word);
        } else if at < words.len() {
            words[at] = Word::low_bits(*word);
        }
    }
    let mut window = CoreWords { words };
    let mut done = 0u32;
    for _ in 0..most {
        if step(&mut regs, &mut window) == Outcome::Done {
            done = done.wrapping_add(1);
        }
    }
    done
}

/// So many steps with a tick behind each, as lists of two events.
#[inline(never)]
fn pairs<M: Machine>(machine: &mut M, most: u32) -> u32 {
    let mut replies = [Answer::Done, Answer::Done];
    for _ in 0..most {
        machine.happen_all(&[Event::Step, Event::Tick], &mut replies);
    }
    most
}

/// Ticks alone, beside a job of an image that cannot begin.
#[inline(never)]
fn ticks<M: Machine>(machine: &mut M, image: &Image, most: u32) -> u32 {
    machine.happen(&Event::Login(u8::MAX, image));
    for _ in 0..most {
        machine.happen(&Event::Tick);
    }
    most
}

/// So many jobs with the loop begin.
fn begin<M: Machine>(machine: &mut M, image: &Image, jobs: u8) -> bool {
    for line in 0..jobs {
        let Answer::JobNumber(number) = machine.happen(&Event::Login(line, image)) else {
            return false;
        };
        machine.happen(&Event::Start(number));
    }
    true
}

/// The image of the loop.
fn loop_image(alloc: Global) -> Result<Image, AllocError> {
    let mut words = Vec::with_capacity(alloc, LOOP.len())?;
    for (address, word) in LOOP.iter() {
        words.push((*address, Word::low_bits(*word)))?;
    }
    Ok(Image {
        words,
        start: START,
    })
}

impl Measured {
    /// Runs it on a machine, and gives how many times; `None` where the jobs cannot begin.
    pub fn count_on<M: Machine>(
        self,
        alloc: Global,
        mut machine: M,
    ) -> Result<Option<u32>, AllocError> {
        let image = loop_image(alloc)?;
        if !begin(&mut machine, &image, self.jobs) {
            return Ok(None);
        }
        let count = match self.load {
            Load::Bare => bare(&mut PlainCore::new(alloc, 1)?, self.count),
            Load::Steps => machine.make_steps(self.count, false),
            Load::Ticked => machine.make_steps(self.count, true),
            Load::Pairs => pairs(&mut machine, self.count),
            Load::Ticks => ticks(&mut machine, &image, self.count),
        };
        Ok(Some(count))
    }
}
