//! The rows of a test, and how they are walked on a machine.

ghost use Rattle.std.specs.Prelude.{◌≤◌};
ghost use Rattle.word36.specs.declared.sizes.TheConstants.{MOST_BLOCKS};

use crate::listed::{calls_rightly, is_listed};
use crate::machine::Machine;
use job_sched::{JobError, NO_INTERRUPTS, Stop, Wait};
use std::alloc::Global;
use std::process::Abort;
use uuo_calls::CallOutcome;

/// The three words of a lock in a block.
pub type Lock = [u64; 3];

/// Something that is done to a machine. The numbers come first: of a job, or of a line.
#[derive(Clone, Copy)]
pub enum Act {
    /// A job of one block comes at a line, and is not stopped.
    Comes(u8, u8),
    /// A job is taken away.
    Goes(u8),
    /// Words are stored in a job's core from an address on.
    Stores(u8, usize, &'static [u64]),
    /// A block is stored in a job's core at an address, with an id and at most 16 locks.
    Block(u8, usize, u64, &'static [Lock]),
    /// A word is put in an AC of a job.
    PutsAc(u8, u8, u64),
    /// So many ticks of the day have gone by.
    Day(u32),
    /// One more tick of the day goes by.
    DayGoesOn,
    /// A job waits.
    Waits(u8, Wait),
    /// A job may have so many requests.
    HasQuota(u8, u16),
    /// A job is at its call again, and an interrupt of it is in progress.
    Interrupts(u8),
    /// A text is typed at line 0.
    Types(&'static [u8]),
    /// So many characters X are put in the output of line 0, each by itself.
    Outputs(u32),
    /// The input of line 0 is cleared.
    ClearsInput,
    /// The output of line 0 is cleared.
    ClearsOutput,
    /// CTRL-C is typed at a line.
    Breaks(u8),
    /// A tick of the jobs, and of the limits of their requests.
    Tick,
}

/// Something that is seen of a machine. The number of a job comes first.
#[derive(Clone, Copy)]
pub enum Sight {
    /// The word at an address of a job's core, if the address is legal.
    Word(u8, u32, Option<u64>),
    /// The word in an AC of a job.
    Ac(u8, u8, u64),
    /// How many blocks a job has.
    Blocks(u8, u32),
    /// How many requests there are.
    Requests(usize),
    /// Whether the request of this position in the order of arrival is granted.
    Granted(usize, bool),
    /// The id of the grant that a job is yet to be notified of.
    Pending(u8, Option<u32>),
    /// What a job waits for.
    WaitsFor(u8, Wait),
    /// Why a job is stopped, if it is.
    Stopped(u8, Option<Stop>),
    /// The PC of a job.
    Pc(u8, u32),
    /// Overflow and No Divide of a job.
    Flags(u8, (bool, bool)),
    /// Whether a job is there.
    IsThere(u8, bool),
    /// Whether a job is ready.
    IsReady(u8, bool),
    /// Whether the interrupts of a job are on, if it has a vector.
    Switch(u8, Option<bool>),
    /// A job has no vector, and takes no interrupts.
    NoInterrupts(u8),
    /// Whether an interrupt of a job is in progress.
    InProgress(u8, bool),
    /// Job 1 is stopped at its call as an illegal instruction, and nothing else has changed.
    IsRefused,
    /// How many characters more the output of line 0 can hold.
    Room(usize),
    /// The ticks that are left of the quantum.
    Left(u8),
}

/// Something that is done, something that is asked and its answer, or something that must be seen.
#[derive(Clone, Copy)]
pub enum Row {
    Does(Act),
    /// A job makes a CALLI of this number with AC field 1 and this word in AC 1; the PC and AC 1 after it.
    Asks(u8, u32, u64, (u32, u64)),
    /// Job 1 makes an ENQ. 1 of this lock, by a block at 300 octal with the id 1; the PC and AC 1 after it,
    /// and how many requests there are then.
    AsksFor(Lock, (u32, u64), usize),
    /// Job 1 makes such an ENQ. 1 of this user code, which bypasses the order of levels.
    AsksBypassing(u64, (u32, u64), usize),
    /// Job 1, without requests, makes such ENQ. 1 of the user codes below a number, and all are granted.
    Fills(usize),
    /// ENQ., DEQ. and ENQC. of job 1 with this word in AC 1; the PC and AC 1 after each.
    LockCalls(u64, (u32, u64)),
    /// A job makes a CALLI of this AC field and number; how it ends, and the PC.
    Calls(u8, u8, u32, (CallOutcome, u32)),
    /// A CALLI of this AC field and number stops job 1 as an illegal instruction.
    Refuses(u8, u32),
    /// A CALLI of this number stops job 1 so exactly where it is not listed, and takes it away exactly where it is
    /// LOGOUT.
    Calli(u32),
    /// A TTCALL of this function stops job 1 so exactly where it is not listed.
    Ttcall(u8),
    /// Job 1 makes a TTCALL of this function and E; how it ends, the PC and the wait.
    Tty(u8, u32, (CallOutcome, u32, Wait)),
    /// At most so many characters are taken from the output of line 0: these.
    Takes(usize, &'static [u8]),
    /// Characters A are typed at line 0, one by one: job 1 is ready behind the last of so many, and behind none before.
    ReadyBehind(u32),
    /// Steps of the scheduler with this quantum, each followed by a tick: the jobs that run, 0 for none.
    Turns(u8, &'static [u8]),
    /// A step of the scheduler with this quantum and no tick: the job that runs, 0 for none.
    Runs(u8, u8),
    /// A job starts, or why it cannot.
    Starts(u8, Result<(), JobError>),
    /// A job goes on, or why it cannot.
    GoesOn(u8, Result<(), JobError>),
    Sees(Sight),
}

impl Act {
    /// Does it.
    fn does(&self, machine: &mut Machine) {
        match self {
            Act::Comes(job, line) => machine.log_in(*job, *line, 1),
            Act::Goes(job) => machine.remove(*job),
            Act::Stores(job, from, words) => machine.store(*job, *from, words),
            Act::Block(job, at, id, locks) => machine.put_block(*job, *at, *id, locks),
            Act::PutsAc(job, ac, word) => machine.set_ac(*job, *ac, *word),
            Act::Day(ticks) => machine.set_day(*ticks),
            Act::DayGoesOn => machine.time.advance(),
            Act::Waits(job, wait) => machine.set_wait(*job, *wait),
            Act::HasQuota(job, quota) => machine.set_quota(*job, *quota),
            Act::Interrupts(job) => machine.interrupt(*job),
            Act::Types(text) => machine.type_in(text),
            Act::Outputs(count) => machine.put_out(*count),
            Act::ClearsInput => machine.clear_input(),
            Act::ClearsOutput => machine.clear_output(),
            Act::Breaks(line) => machine.break_at(*line),
            Act::Tick => machine.tick(),
        }
    }
}

impl Sight {
    /// Whether it is seen.
    fn is_seen(&self, machine: &Machine) -> bool {
        match self {
            Sight::Word(job, address, word) => machine.word(*job, *address) == *word,
            Sight::Ac(job, ac, word) => machine.ac(*job, *ac) == *word,
            Sight::Blocks(job, blocks) => machine.blocks(*job) == *blocks,
            Sight::Requests(count) => machine.requests() == *count,
            Sight::Granted(i, granted) => machine.is_granted(*i) == *granted,
            Sight::Pending(job, id) => machine.pending(*job) == *id,
            Sight::WaitsFor(job, wait) => machine.wait(*job) == *wait,
            Sight::Stopped(job, stop) => machine.stop(*job) == *stop,
            Sight::Pc(job, pc) => machine.pc(*job) == *pc,
            Sight::Flags(job, flags) => machine.two_flags(*job) == *flags,
            Sight::IsThere(job, there) => machine.is_there(*job) == *there,
            Sight::IsReady(job, ready) => machine.is_ready(*job) == *ready,
            Sight::Switch(job, on) => machine.switch(*job) == *on,
            Sight::NoInterrupts(job) => machine.interrupts(*job) == NO_INTERRUPTS,
            Sight::InProgress(job, progress) => machine.interrupts(*job).in_progress == *progress,
            Sight::IsRefused => machine.is_refused(),
            Sight::Room(count) => machine.room() == *count,
            Sight::Left(ticks) => machine.table.left == *ticks,
        }
    }
}

impl Row {
    /// Whether the row holds of a machine.
    fn holds(&self, machine: &mut Machine) -> bool {
        match self {
            Row::Does(act) => {
                act.does(machine);
                true
            }
            Row::Asks(job, call, word, answer) => machine.ask(*job, *call, *word) == *answer,
            Row::AsksFor(lock, answer, requests) => {
                machine.ask_for(*lock) == *answer && machine.requests() == *requests
            }
            Row::AsksBypassing(code, answer, requests) => {
                machine.ask_bypassing(*code) == *answer && machine.requests() == *requests
            }
            Row::Fills(count) => machine.fills(*count),
            Row::LockCalls(word, answer) => machine.lock_calls(*word, *answer),
            Row::Calls(job, ac, call, answer) => machine.calls(*job, *ac, *call) == *answer,
            Row::Refuses(ac, call) => {
                machine.calls(1, *ac, *call);
                machine.is_refused()
            }
            Row::Calli(call) => calls_rightly(machine, *call),
            Row::Ttcall(function) => {
                machine.tty(*function, 0o200);
                machine.is_refused() != is_listed(*function)
            }
            Row::Tty(function, e, answer) => machine.tty(*function, *e) == *answer,
            Row::Takes(most, text) => machine.takes(*most, text),
            Row::ReadyBehind(count) => machine.is_ready_behind(*count),
            Row::Turns(quantum, jobs) => machine.turns(*quantum, jobs),
            Row::Runs(quantum, job) => machine.step(*quantum) == *job,
            Row::Starts(job, answer) => machine.table.start(*job) == *answer,
            Row::GoesOn(job, answer) => machine.table.go_on(*job) == *answer,
            Row::Sees(sight) => sight.is_seen(machine),
        }
    }
}

/// The first of the rows that does not hold on a machine.
fn first_wrong_on(mut machine: Machine, rows: &[Row]) -> Option<usize> {
    for (i, row) in rows.iter().enumerate() {
        if !row.holds(&mut machine) {
            return Some(i);
        }
    }
    None
}

/// The first of the rows that does not hold on a new machine of so many blocks with job 1 at line 0.
pub fn first_wrong(rt: &impl Abort, alloc: Global, blocks: u32, rows: &[Row]) -> Option<usize>
    requires least { 1 ≤ blocks }
    requires most { blocks ≤ MOST_BLOCKS }
{
    let machine = Machine::with_job(alloc, blocks).expect(rt, "memory for the machine");
    first_wrong_on(machine, rows)
}

/// Walks the rows on a machine of so many blocks with job 1 at line 0: each must hold.
pub fn walk_in(rt: &impl Abort, alloc: Global, blocks: u32, rows: &[Row])
    requires least { 1 ≤ blocks }
    requires most { blocks ≤ MOST_BLOCKS }
{
    if let Some(i) = first_wrong(rt, alloc, blocks, rows) {
        panic!(rt; "row {i}");
    }
}

/// The rows of a test, and its name.
pub struct Table {
    pub name: &'static str,
    pub rows: &'static [Row],
}

/// Walks the rows of each table on a new machine of 64 blocks with job 1 at line 0: each must hold.
pub fn walk_all(rt: &impl Abort, alloc: Global, tables: &[Table]) {
    for table in tables {
        if let Some(i) = first_wrong(rt, alloc, 64, table.rows) {
            panic!(rt; "{}, row {i}", table.name);
        }
    }
}

/// Walks the rows on a machine of 64 blocks with job 1 at line 0: each must hold.
pub fn walk(rt: &impl Abort, alloc: Global, rows: &[Row]) {
    walk_in(rt, alloc, 64, rows);
}
