//! The rows of a test, and the machine that they are walked on, with each store of core.

use core_store::{BlockCore, CoreStore, PlainCore};
use job_sched::{Stop, Wait};
use mac_asm::assemble;
use monitor::{Answer, Config, Event, RefusedEvent, System};
use plain_table::PlainTable;
use std::alloc::Global;
use std::process::Abort;
use tty_lines::Char7;
use word36::{Image, MOST_REQUESTS};

/// An event that happens to the machine, as plain data.
#[derive(Clone, Copy)]
pub enum Act {
    Kill(u8),
    Restart,
    /// A character is typed at a line.
    Typed(u8, u8),
}

/// What an event must answer.
#[derive(Clone, Copy)]
pub enum Reply {
    Done,
    JobNumber(u8),
    Refused(RefusedEvent),
}

/// Something that happens to the machine and what it must answer, or something that must be seen.
pub enum Row {
    /// The image of a source begins at a line as the job of this number, and starts.
    Begins(u8, &'static str, u8),
    /// The image of a source comes at a line, and the answer.
    LogsIn(u8, &'static str, Reply),
    /// An event, and its answer.
    Happens(Act, Reply),
    /// Steps with a tick behind each: the numbers of the jobs that run, 0 where none does.
    Turns(&'static [u8]),
    /// So many steps with a tick behind each, in so many of which a job runs.
    Rounds(u32, u32),
    /// A job's PC, why it is stopped, and the wait that holds.
    Job(u8, u32, Option<Stop>, Wait),
    /// The word at an address of a job; `None` where the address is not legal.
    Word(u8, u32, Option<u64>),
    /// All words of a job from an address on and below another are this one.
    All(u8, u32, u32, u64),
}

impl Act {
    /// The event.
    fn event(self) -> Event<'static> {
        match self {
            Act::Kill(job) => Event::Kill(job),
            Act::Restart => Event::Restart,
            Act::Typed(line, character) => {
                Event::Typed(line, Char7::low_bits(u64::from(character)))
            }
        }
    }
}

impl Reply {
    /// Whether an answer is this one.
    fn is(self, answer: &Answer) -> bool {
        match (self, answer) {
            (Reply::Done, Answer::Done) => true,
            (Reply::JobNumber(job), Answer::JobNumber(number)) => job == *number,
            (Reply::Refused(reason), Answer::Refused(refused)) => reason == *refused,
            _ => false,
        }
    }
}

/// Whether an event answers so.
pub fn answers<C: CoreStore>(
    system: &mut System<PlainTable<MOST_REQUESTS>, C>,
    event: &Event,
    reply: Reply,
) -> bool {
    reply.is(&system.event(event))
}

/// Whether an image is answered so at a line.
fn logs_in<C: CoreStore>(
    system: &mut System<PlainTable<MOST_REQUESTS>, C>,
    line: u8,
    image: &Image,
    reply: Reply,
) -> bool {
    answers(system, &Event::Login(line, image), reply)
}

/// Whether an image begins at a line as the job of that number, and starts.
pub fn begins<C: CoreStore>(
    system: &mut System<PlainTable<MOST_REQUESTS>, C>,
    line: u8,
    image: &Image,
    number: u8,
) -> bool {
    logs_in(system, line, image, Reply::JobNumber(number))
        && answers(system, &Event::Start(number), Reply::Done)
}

/// The image of a source, if it is right.
pub fn assembled(alloc: Global, source: &str) -> Option<Image> {
    assemble(alloc, source.as_bytes()).ok()
}

/// Whether a source is assembled, and its image is answered so.
fn logs_in_source<C: CoreStore>(
    system: &mut System<PlainTable<MOST_REQUESTS>, C>,
    alloc: Global,
    line: u8,
    source: &str,
    reply: Reply,
) -> bool {
    match assembled(alloc, source) {
        Some(image) => logs_in(system, line, &image, reply),
        None => false,
    }
}

/// Whether a source begins at a line as the job of that number, and starts.
fn begins_source<C: CoreStore>(
    system: &mut System<PlainTable<MOST_REQUESTS>, C>,
    alloc: Global,
    line: u8,
    source: &str,
    number: u8,
) -> bool {
    logs_in_source(system, alloc, line, source, Reply::JobNumber(number))
        && answers(system, &Event::Start(number), Reply::Done)
}

/// A step, and a tick behind it.
const ROUND: [Event<'static>; 2] = [Event::Step, Event::Tick];

/// The number of the job that runs in a step, behind which comes a tick; 0 where none does.
pub fn turn<C: CoreStore>(system: &mut System<PlainTable<MOST_REQUESTS>, C>) -> u8 {
    let answer = system.event(&ROUND[0]);
    system.event(&ROUND[1]);
    match answer {
        Answer::Ran(number) => number,
        _ => 0,
    }
}

/// Whether the jobs of these numbers run in so many steps, with a tick behind each.
fn turns<C: CoreStore>(system: &mut System<PlainTable<MOST_REQUESTS>, C>, numbers: &[u8]) -> bool {
    for number in numbers {
        if turn(system) != *number {
            return false;
        }
    }
    true
}

/// Whether a job is at that PC, stopped so, and waits so.
fn is_at<C: CoreStore>(
    system: &System<PlainTable<MOST_REQUESTS>, C>,
    number: u8,
    pc: u32,
    stop: Option<Stop>,
    wait: Wait,
) -> bool {
    match system.job(number) {
        Some(job) => job.pc.number() == pc && job.stop == stop && job.wait == wait,
        None => false,
    }
}

/// Whether the word at an address of a job is this one, or there is none.
fn is_word<C: CoreStore>(
    system: &System<PlainTable<MOST_REQUESTS>, C>,
    number: u8,
    address: u32,
    word: Option<u64>,
) -> bool {
    match (system.peek(number, address), word) {
        (Some(there), Some(word)) => there.number() == word,
        (None, None) => true,
        _ => false,
    }
}

/// Whether all words of a job from an address on and below another are this one.
fn are_words<C: CoreStore>(
    system: &System<PlainTable<MOST_REQUESTS>, C>,
    number: u8,
    from: u32,
    until: u32,
    word: u64,
) -> bool {
    for address in from..until {
        if !is_word(system, number, address, Some(word)) {
            return false;
        }
    }
    true
}

impl Row {
    /// Whether the row holds of the machine.
    fn holds<C: CoreStore>(
        &self,
        system: &mut System<PlainTable<MOST_REQUESTS>, C>,
        alloc: Global,
    ) -> bool {
        match self {
            Row::Begins(line, source, number) => {
                begins_source(system, alloc, *line, source, *number)
            }
            Row::LogsIn(line, source, reply) => {
                logs_in_source(system, alloc, *line, source, *reply)
            }
            Row::Happens(act, reply) => answers(system, &act.event(), *reply),
            Row::Turns(numbers) => turns(system, numbers),
            Row::Rounds(most, ran) => system.steps(*most, true) == *ran,
            Row::Job(number, pc, stop, wait) => is_at(system, *number, *pc, *stop, *wait),
            Row::Word(number, address, word) => is_word(system, *number, *address, *word),
            Row::All(number, from, until, word) => {
                are_words(system, *number, *from, *until, *word)
            }
        }
    }
}

/// A machine of so many blocks with a quantum of one tick.
pub fn machine<C: CoreStore>(
    rt: &impl Abort,
    alloc: Global,
    blocks: u32,
) -> System<PlainTable<MOST_REQUESTS>, C> {
    let config = Config::new(blocks, 1).expect(rt, "no machine is of that size");
    System::boot(alloc, config).expect(rt, "memory for the machine")
}

/// The rows of a test, its name, and the blocks of the machines that they are walked on.
pub struct Table {
    pub name: &'static str,
    pub blocks: u32,
    pub rows: &'static [Row],
}

/// Walks the rows of a table on a machine with one of the stores, which the message names.
fn walk_on<C: CoreStore>(rt: &impl Abort, alloc: Global, store: &str, table: &Table) {
    let mut system: System<PlainTable<MOST_REQUESTS>, C> = machine(rt, alloc, table.blocks);
    for (i, row) in table.rows.iter().enumerate() {
        let holds = row.holds(&mut system, alloc);
        assert!(rt; holds, "{}, {store}, row {i}", table.name);
    }
}

/// Walks the rows of a table on two machines, one with each store.
pub fn walk(rt: &impl Abort, alloc: Global, table: &Table) {
    walk_on::<PlainCore>(rt, alloc, "PlainCore", table);
    walk_on::<BlockCore>(rt, alloc, "BlockCore", table);
}
