//! The rows of a test, and the machine that they are walked on.

ghost use Rattle.std.specs.Prelude.{◌≤◌};
ghost use Rattle.word36.specs.declared.sizes.TheConstants.{MOST_REQUESTS};

use core_store::PlainCore;
use job_sched::{Stop, Wait};
use lock_queue::{EnqueueKind, LockTable};
use mac_asm::assemble;
use monitor::{Answer, Config, Event, RefusedEvent, System};
use plain_table::PlainTable;
use std::alloc::{AllocError, Global};
use std::process::Abort;
use tty_lines::Char7;
use word36::{Address, Image, MOST_REQUESTS, Word};

/// The character that stops a line's job.
pub const CTRL_C: u8 = 3;

/// An event other than a login, as plain data.
#[derive(Clone, Copy)]
pub enum Act {
    Step,
    Tick,
    Typed(u8, u8),
    Take(u8, usize),
    Start(u8),
    Continue(u8),
    Kill(u8),
    Restart,
}

/// What an event must answer.
#[derive(Clone, Copy)]
pub enum Reply {
    Ran(u8),
    Idle,
    Done,
    Text(&'static [u8]),
    JobNumber(u8),
    Refused(RefusedEvent),
}

/// Words with their addresses.
pub type Words = &'static [(u32, u64)];

/// A request in the table of locks: its job, its kind, its id, and whether it is granted.
pub type Entry = (u8, EnqueueKind, u32, bool);

/// Something that happens to the machine and what it must answer, or something that must be seen.
pub enum Row {
    /// The image of a source begins at a line as the job of this number, and starts.
    Begins(u8, &'static str, u8),
    /// An image of these words begins at a line. It starts at its first address.
    Loads(u8, Words, Reply),
    /// An image of these words begins at each of so many first lines, as the job of the number that is one more.
    LoadsEach(u8, Words),
    /// MOVEI 1,@200 begins at line 0 as job 1, with so many words from 200 octal on: each names the next, and the last
    /// has no indirect bit.
    LoadsChain(u32),
    /// At each of so many first lines in turn the image of a source begins as the job of the number that is one more,
    /// runs so many steps and waits for a character at this PC; and there are so many requests more.
    Fills(u8, &'static str, u32, u32, usize),
    /// An event, and its answer.
    Happens(Act, Reply),
    /// An event so many times, and its answer each time.
    Repeats(u32, Act, Reply),
    /// Four events that happen by one call, and their answers.
    Together(&'static [(Act, Reply); 4]),
    /// So many steps, in so many of which a job runs.
    Steps(u32, u32),
    /// So many steps with a tick behind each, in so many of which a job runs.
    Rounds(u32, u32),
    /// Steps with a tick behind each: the numbers of the jobs that run, 0 where none does.
    Turns(&'static [u8]),
    /// At most so many rounds to one of these addresses: the job that runs, and how many are made.
    RoundsTo(u32, &'static [u32], Option<u8>, u32),
    /// A word is put at an address of a job, and whether the job has that address.
    Deposits(u8, u32, u64, bool),
    /// A job starts at an address, and the answer.
    StartsAt(u8, u32, Reply),
    /// A job's PC, why it is stopped, and the wait that holds.
    Job(u8, u32, Option<Stop>, Wait),
    /// No job has that number.
    NoJob(u8),
    /// The word at an address of a job; `None` where the address is not legal.
    Word(u8, u32, Option<u64>),
    /// A word that all jobs share; `None` where there is none of that number.
    Shared(usize, Option<u64>),
    /// The requests, in order of arrival.
    Locks(&'static [Entry]),
    /// How many requests there are.
    Requests(usize),
}

/// The rows of a test, and the machine that they are walked on: so many blocks, and a quantum of so many ticks.
pub struct Table {
    pub name: &'static str,
    pub blocks: u32,
    pub quantum: u8,
    pub rows: &'static [Row],
}

impl Act {
    /// The event.
    fn event(self) -> Event<'static> {
        match self {
            Act::Step => Event::Step,
            Act::Tick => Event::Tick,
            Act::Typed(line, character) => {
                Event::Typed(line, Char7::low_bits(u64::from(character)))
            }
            Act::Take(line, most) => Event::Take(line, most),
            Act::Start(job) => Event::Start(job),
            Act::Continue(job) => Event::Continue(job),
            Act::Kill(job) => Event::Kill(job),
            Act::Restart => Event::Restart,
        }
    }
}

/// Whether characters are a text.
fn is_text(characters: &[Char7], text: &[u8]) -> bool {
    if characters.len() != text.len() {
        return false;
    }
    for (character, byte) in characters.iter().zip(text) {
        if character.number() != *byte {
            return false;
        }
    }
    true
}

impl Reply {
    /// Whether an answer is this one.
    fn is(&self, answer: &Answer) -> bool {
        match (self, answer) {
            (Reply::Ran(job), Answer::Ran(number)) => job == number,
            (Reply::Idle, Answer::Idle) | (Reply::Done, Answer::Done) => true,
            (Reply::JobNumber(job), Answer::JobNumber(number)) => job == number,
            (Reply::Refused(reason), Answer::Refused(refused)) => reason == refused,
            (Reply::Text(text), Answer::Text(taken)) => is_text(taken.as_slice(), text),
            _ => false,
        }
    }
}

/// Whether an event answers so.
fn answers<L: LockTable>(system: &mut System<L, PlainCore>, event: &Event, reply: &Reply) -> bool {
    reply.is(&system.event(event))
}

/// Whether an event is answered so, so many times.
fn repeats<L: LockTable>(
    system: &mut System<L, PlainCore>,
    times: u32,
    act: Act,
    reply: &Reply,
) -> bool {
    let event = act.event();
    for _ in 0..times {
        if !answers(system, &event, reply) {
            return false;
        }
    }
    true
}

/// Whether an image begins at a line as the job of that number, and starts.
fn begins<L: LockTable>(
    system: &mut System<L, PlainCore>,
    line: u8,
    image: &Image,
    number: u8,
) -> bool {
    let login = Event::Login(line, image);
    answers(system, &login, &Reply::JobNumber(number))
        && answers(system, &Event::Start(number), &Reply::Done)
}

/// Whether a source is assembled, and its image begins at a line as the job of that number and starts.
fn begins_source<L: LockTable>(
    system: &mut System<L, PlainCore>,
    alloc: Global,
    line: u8,
    source: &str,
    number: u8,
) -> bool {
    match assemble(alloc, source.as_bytes()) {
        Ok(image) => begins(system, line, &image, number),
        Err(_) => false,
    }
}

/// The address of the first word, 0 where there is none.
fn first_place(words: &[(u32, u64)]) -> u32 {
    match words.first() {
        Some(word) => word.0,
        None => 0,
    }
}

/// An image of these words, which starts at its first address.
fn image_of(alloc: Global, words: &[(u32, u64)]) -> Result<Image, AllocError> {
    let mut image = Image {
        words: Vec::new(alloc),
        start: first_place(words),
    };
    for (address, word) in words {
        image.words.push((*address, Word::low_bits(*word)))?;
    }
    Ok(image)
}

/// Whether an image of these words is answered so.
fn loads<L: LockTable>(
    system: &mut System<L, PlainCore>,
    alloc: Global,
    line: u8,
    words: &[(u32, u64)],
    reply: &Reply,
) -> bool {
    match image_of(alloc, words) {
        Ok(image) => answers(system, &Event::Login(line, &image), reply),
        Err(_) => false,
    }
}

/// Whether an image of these words begins at each of so many first lines, as the job of the number that is one more.
fn loads_each<L: LockTable>(
    system: &mut System<L, PlainCore>,
    alloc: Global,
    lines: u8,
    words: &[(u32, u64)],
) -> bool {
    for line in 0..lines {
        if !loads(system, alloc, line, words, &Reply::JobNumber(line + 1)) {
            return false;
        }
    }
    true
}

/// The image of `LoadsChain`.
fn chain(alloc: Global, words: u32) -> Result<Image, AllocError> {
    let mut image = Image {
        words: Vec::new(alloc),
        start: 0o140,
    };
    image.words.push((0o140, Word::new(0o201060_000200)))?;
    for i in 1..words.min(1000) {
        let word = Word::join(0o20, 0o200 + i);
        image.words.push((0o177 + i, word))?;
    }
    let last = (0o177 + words.min(1000), Word::new(0o123));
    image.words.push(last)?;
    Ok(image)
}

/// Whether that image begins at line 0 as job 1.
fn loads_chain<L: LockTable>(system: &mut System<L, PlainCore>, alloc: Global, words: u32) -> bool {
    match chain(alloc, words) {
        Ok(image) => answers(system, &Event::Login(0, &image), &Reply::JobNumber(1)),
        Err(_) => false,
    }
}

/// Whether a row `Fills` holds.
fn fills<L: LockTable>(
    system: &mut System<L, PlainCore>,
    alloc: Global,
    lines: u8,
    source: &str,
    steps: u32,
    pc: u32,
    requests: usize,
) -> bool {
    for line in 0..lines {
        let before = system.locks().len();
        if !begins_source(system, alloc, line, source, line + 1)
            || system.steps(steps, false) != steps
            || !is_at(system, line + 1, pc, None, Wait::Char)
            || system.locks().len() != before.saturating_add(requests)
        {
            return false;
        }
    }
    true
}

/// Whether four events that happen by one call are answered so.
fn happen_together<L: LockTable>(
    system: &mut System<L, PlainCore>,
    acts: &[(Act, Reply); 4],
) -> bool {
    let [a, b, c, d] = acts;
    let events = [a.0.event(), b.0.event(), c.0.event(), d.0.event()];
    let mut answers = [Answer::Idle, Answer::Idle, Answer::Done, Answer::Done];
    system.run(&events, &mut answers);
    for (answer, act) in answers.iter().zip(acts) {
        if !act.1.is(answer) {
            return false;
        }
    }
    true
}

/// Whether the jobs of these numbers run in so many steps with a tick behind each; 0 where none does.
fn turns<L: LockTable>(system: &mut System<L, PlainCore>, numbers: &[u8]) -> bool {
    for number in numbers {
        let ran = match system.event(&Event::Step) {
            Answer::Ran(job) => job,
            _ => 0,
        };
        system.event(&Event::Tick);
        if ran != *number {
            return false;
        }
    }
    true
}

/// The address of a number.
fn address(number: u32) -> Address {
    Address::new(number & 0o777_777)
}

/// Whether this job runs in so many rounds to one of these addresses, of which there are at most two.
fn makes_rounds<L: LockTable>(
    system: &mut System<L, PlainCore>,
    most: u32,
    addresses: &[u32],
    job: Option<u8>,
    made: u32,
) -> bool {
    let first = address(addresses.first().copied().unwrap_or(0));
    let second = address(addresses.get(1).copied().unwrap_or(0));
    let both = [first, second];
    let rounds = system.rounds_to(most.max(1), &both[..addresses.len().min(2)]);
    rounds.job == job && rounds.made == made
}

/// Whether a job is at that PC, stopped so, and waits so.
fn is_at<L: LockTable>(
    system: &System<L, PlainCore>,
    number: u8,
    pc: u32,
    stop: Option<Stop>,
    wait: Wait,
) -> bool {
    match system.job(number) {
        Some(job) => job.pc.number() == pc && job.stop == stop && job.wait == wait,
        None => false,
    }
}

/// Whether the request at a position of the table is that one.
fn is_entry<L: LockTable>(locks: &L, i: usize, entry: &Entry) -> bool {
    if i >= locks.len() {
        return false;
    }
    let request = locks.request(i);
    request.job == entry.0
        && request.kind == entry.1
        && request.id.number() == entry.2
        && locks.granted(i) == entry.3
}

/// Whether the requests are these.
fn are_locks<L: LockTable>(locks: &L, entries: &[Entry]) -> bool {
    for (i, entry) in entries.iter().enumerate() {
        if !is_entry(locks, i, entry) {
            return false;
        }
    }
    locks.len() == entries.len()
}

/// Whether a word is this one, or there is none.
fn is_word(word: Option<Word>, number: Option<u64>) -> bool {
    match (word, number) {
        (Some(word), Some(number)) => word.number() == number,
        (None, None) => true,
        _ => false,
    }
}

impl Row {
    /// Whether something is seen of the machine.
    fn is_seen<L: LockTable>(&self, system: &System<L, PlainCore>) -> bool {
        match self {
            Row::Job(number, pc, stop, wait) => is_at(system, *number, *pc, *stop, *wait),
            Row::NoJob(number) => system.job(*number).is_none(),
            Row::Word(number, address, word) => is_word(system.peek(*number, *address), *word),
            Row::Shared(i, word) => is_word(system.data_word(*i), *word),
            Row::Locks(entries) => are_locks(system.locks(), entries),
            Row::Requests(count) => system.locks().len() == *count,
            _ => false,
        }
    }

    /// Whether the row holds of the machine.
    fn holds<L: LockTable>(&self, system: &mut System<L, PlainCore>, alloc: Global) -> bool {
        match self {
            Row::Begins(line, source, job) => begins_source(system, alloc, *line, source, *job),
            Row::Loads(line, words, reply) => loads(system, alloc, *line, words, reply),
            Row::LoadsEach(lines, words) => loads_each(system, alloc, *lines, words),
            Row::LoadsChain(words) => loads_chain(system, alloc, *words),
            Row::Fills(lines, source, steps, pc, requests) => {
                fills(system, alloc, *lines, source, *steps, *pc, *requests)
            }
            Row::Happens(act, reply) => answers(system, &act.event(), reply),
            Row::Repeats(times, act, reply) => repeats(system, *times, *act, reply),
            Row::Together(acts) => happen_together(system, acts),
            Row::Steps(most, ran) => system.steps(*most, false) == *ran,
            Row::Rounds(most, ran) => system.steps(*most, true) == *ran,
            Row::Turns(numbers) => turns(system, numbers),
            Row::RoundsTo(most, addresses, job, made) => {
                makes_rounds(system, *most, addresses, *job, *made)
            }
            Row::Deposits(job, address, word, there) => {
                system.deposit(*job, *address, Word::low_bits(*word)) == *there
            }
            Row::StartsAt(job, at, reply) => reply.is(&system.start_at(*job, address(*at))),
            _ => self.is_seen(system),
        }
    }
}

/// Walks the rows of a table on a machine: each must hold.
fn walk_rows<L: LockTable>(
    rt: &impl Abort,
    alloc: Global,
    mut system: System<L, PlainCore>,
    table: &Table,
) {
    for (i, row) in table.rows.iter().enumerate() {
        assert!(rt; row.holds(&mut system, alloc), "{}, row {i}", table.name);
    }
}

/// Walks the rows of a table on a machine that holds so many requests.
pub fn walk_with<const REQS: usize>(rt: &impl Abort, alloc: Global, table: &Table)
    requires least { 1 ≤ REQS }
    requires most { REQS ≤ MOST_REQUESTS }
{
    let config = Config::new(table.blocks, table.quantum).expect(rt, "no machine is of that size");
    let system: System<PlainTable<REQS>, PlainCore> = System::boot(alloc, config).expect(
        rt,
        "memory for the machine",
    );
    walk_rows(rt, alloc, system, table);
}

/// Walks the rows of each table on a new machine that holds the most requests.
pub fn walk_all(rt: &impl Abort, alloc: Global, tables: &[Table]) {
    for table in tables {
        walk_with::<MOST_REQUESTS>(rt, alloc, table);
    }
}

/// Walks the rows of a table on the machine that holds the most requests.
pub fn walk(rt: &impl Abort, alloc: Global, table: &Table) {
    walk_with::<MOST_REQUESTS>(rt, alloc, table);
}
