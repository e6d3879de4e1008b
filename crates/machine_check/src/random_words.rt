//! Sixteen jobs that execute words drawn at random, on two machines side by side.

use crate::generator::Generator;
use crate::machines::{Listed, Machine};
use crate::plain_check::count_faults;
use lock_queue::{Request, Want};
use monitor::{Answer, Event};
use std::alloc::{AllocError, Global};
use std::fmt;
use tty_lines::Char7;
use word36::{Image, JOBS};

/// Where the words stand, and where the jobs start.
const START: u32 = 0o140;

/// The jobs stand at the lines from 0 to one less than this.
const PLACES: u8 = 16;

/// How many words a job has.
const WORDS: u32 = 64;

/// What came of a run.
#[derive(Clone, Copy)]
pub struct Found {
    /// Steps in which a job ran.
    pub ran: u32,
    /// Answers in which the two machines differ, and looks at their requests or jobs that differ.
    pub differences: u32,
    /// Faults of the requests and waits by the queue's rule.
    pub faults: u32,
}

impl Found {
    /// Whether nothing was found that ought not to be.
    pub fn is_nothing(&self) -> bool {
        self.differences == 0 && self.faults == 0
    }
}

impl fmt::Display for Found {
    fn fmt<W: fmt::Write>(&self, f: &mut fmt::Formatter<W>) -> fmt::Result {
        let (ran, differences, faults) = (self.ran, self.differences, self.faults);
        write!(f, "RAN {ran} DIFFERENCES {differences} FAULTS {faults}")
    }
}

/// An image of words that the generator draws.
fn drawn_image(alloc: Global, seed: u64) -> Result<Image, AllocError> {
    let mut generator = Generator::new(seed);
    let mut words = Vec::with_capacity(alloc, WORDS as usize)?;
    for address in START..START + WORDS {
        words.push((address, generator.word()))?;
    }
    Ok(Image {
        words,
        start: START,
    })
}

/// Whether two answers are the same.
fn is_same_answer(a: &Answer, b: &Answer) -> bool {
    match (a, b) {
        (Answer::Ran(a), Answer::Ran(b)) => a == b,
        (Answer::Idle, Answer::Idle) => true,
        (Answer::Done, Answer::Done) => true,
        (Answer::Text(a), Answer::Text(b)) => a.as_slice() == b.as_slice(),
        (Answer::JobNumber(a), Answer::JobNumber(b)) => a == b,
        (Answer::Refused(a), Answer::Refused(b)) => a == b,
        _ => false,
    }
}

/// Whether two wants are the same.
fn is_same_want(v: &Want, w: &Want) -> bool {
    v.key.is_same(&w.key)
        && v.shared == w.shared
        && v.group == w.group
        && v.bypass == w.bypass
        && v.level == w.level
        && v.pool == w.pool
}

/// Whether two requests are the same.
fn is_same_request(a: &Request, b: &Request) -> bool {
    let is_same_head = a.job == b.job
        && a.id == b.id
        && a.kind == b.kind
        && a.notified == b.notified;
    if !is_same_head || a.wants.len() != b.wants.len() {
        return false;
    }
    for (v, w) in a.wants.iter().zip(b.wants.iter()) {
        if !is_same_want(v, w) {
            return false;
        }
    }
    true
}

/// Counts what differs between two lists of requests.
fn differing_in(a: &[Listed], b: &[Listed]) -> u32 {
    if a.len() != b.len() {
        return 1;
    }
    let mut differing = 0u32;
    for i in 0..a.len().min(b.len()) {
        if a[i].granted != b[i].granted || !is_same_request(a[i].request, b[i].request) {
            differing = differing.saturating_add(1);
        }
    }
    differing
}

/// Counts what differs between the requests of two machines; one where there is no memory to list them.
fn differing_requests<A: Machine, B: Machine>(alloc: Global, a: &A, b: &B) -> u32 {
    match (a.list_requests(alloc), b.list_requests(alloc)) {
        (Ok(a), Ok(b)) => differing_in(a.as_slice(), b.as_slice()),
        _ => 1,
    }
}

/// Whether the looking calls tell the same of a job on two machines.
fn is_same_job<A: Machine, B: Machine>(a: &A, b: &B, job: u8) -> bool {
    let address = START + u32::from(job);
    a.view(job) == b.view(job)
        && a.word(job, 0) == b.word(job, 0)
        && a.word(job, address) == b.word(job, address)
}

/// Two machines to which the same happens.
#[derive(Drop)]
struct Pair<A: Machine, B: Machine> {
    first: A,
    second: B,
    found: Found,
}

impl<A: Machine, B: Machine> Pair<A, B> {
    /// One event on both.
    fn happen(&mut self, event: &Event) {
        let first = self.first.happen(event);
        let second = self.second.happen(event);
        if let Answer::Ran(_) = first {
            self.found.ran = self.found.ran.saturating_add(1);
        }
        if !is_same_answer(&first, &second) {
            self.found.differences = self.found.differences.saturating_add(1);
        }
    }

    /// A job begins at a line on both, and starts.
    fn begin(&mut self, line: u8, image: &Image) {
        self.happen(&Event::Login(line, image));
        self.happen(&Event::Start(line.saturating_add(1)));
    }

    /// Looks at both.
    fn look(&mut self, alloc: Global) {
        let mut differing = differing_requests(alloc, &self.first, &self.second);
        for job in 1..=JOBS {
            if !is_same_job(&self.first, &self.second, job) {
                differing = differing.saturating_add(1);
            }
        }
        self.found.differences = self.found.differences.saturating_add(differing);
        self.found.faults = self
            .found
            .faults
            .saturating_add(count_faults(alloc, &self.first));
    }

    /// The least job that is stopped.
    fn stopped_job(&self) -> Option<u8> {
        for job in 1..=JOBS {
            if let Some(view) = self.first.view(job)
                && view.stop.is_some()
            {
                return Some(job);
            }
        }
        None
    }

    /// One round: a step, a tick, now and then a character, more rarely a stopped job goes on.
    fn round(&mut self, alloc: Global, round: u32) {
        self.happen(&Event::Step);
        self.happen(&Event::Tick);
        if round % 9 == 0 {
            let line = (round % u32::from(PLACES)) as u8;
            self.happen(&Event::Typed(line, Char7::low_bits(u64::from(round))));
        }
        if round % 100 == 0
            && let Some(job) = self.stopped_job()
        {
            self.happen(&Event::Continue(job));
        }
        self.look(alloc);
    }
}

/// A job at each of so many lines begins with words of its own, and then so many rounds go by.
pub fn random_words<A: Machine, B: Machine>(
    alloc: Global,
    first: A,
    second: B,
    rounds: u32,
) -> Result<Found, AllocError> {
    let found = Found {
        ran: 0,
        differences: 0,
        faults: 0,
    };
    let mut pair = Pair {
        first,
        second,
        found,
    };
    for line in 0..PLACES {
        let image = drawn_image(alloc, u64::from(line) + 1)?;
        pair.begin(line, &image);
    }
    for round in 0..rounds {
        pair.round(alloc, round);
    }
    Ok(pair.found)
}
