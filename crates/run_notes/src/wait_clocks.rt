//! How long requests wait for their grants, by the facts of a run. Times are in ticks.
ghost use Rattle.std.specs.Prelude.{◌≡◌, ◌++◌, ◌<◌, ◌-◌, ◌^◌, [], IfOk, IfSome, Ok, OnOk, Some, length, position, string_bytes};
ghost use Rattle.word36.specs.Words.{left_half};
ghost use Rattle.run_notes.specs.Waits.{IsDueText, after_call, after_end, after_fact, after_facts, after_request, clock_at, ends, granted_after, is_due, kind_of, least_due, makes_request, request_made};
ghost use Rattle.run_notes.specs.Waits.{lock_line, started_at, still_waiting, stopped_by, table_of, table_words, wait_line, wait_lines, waits_by, with_waits};

use crate::fact_lines::{push_wants, stays};
use crate::lock_rows::{Count, LockRow, count_locks};
use crate::wait_lines::push_lock_wait;
use call_block::Block;
use concrete_machine::Machine;
use lock_queue::steps::{names_key, write_request};
use lock_queue::{Asking, EnqueueKind, Key, LockReply, Request};
use run_events::{Called, Fact, is_rest_of};
use std::alloc::{AllocError, Global};
use std::marker::Model;

/// The clock of a request that waits for its grant.
#[derive(Drop)]
pub struct WaitClock {
    /// The tick of the call that made the request.
    pub since: u64,
    /// The request, as the call made it.
    pub request: Request,
}

/// Clocks that measure how long requests wait for their grants.
#[derive(Drop)]
pub struct WaitClocks {
    /// A wait of more ticks than these is reported.
    most: u64,
    /// A clock for each request that waits, the last first.
    waiting: Vec<WaitClock>,
    /// The table by lock.
    rows: Vec<LockRow>,
}

impl Model for WaitClocks {
    ghost use Rattle.run_notes.specs.Waits.{Clocks};

    ghost Value = { Clocks };

    ghost view = { λ w. record { most = w.most; waiting = w.waiting.items; rows = w.rows.items } };
}

/// Whether a lock call made a request.
fn makes_request(called: &Called) -> bool
    ensures { result ≡ makes_request called.now.asked.service (left_half called.now.asked.word) called.now.reply }
{
    let asked = called.asked;
    match called.reply {
        LockReply::Granted | LockReply::Queued => true,
        LockReply::Refused(refusal) => stays(asked.service, asked.word.left(), refusal),
        LockReply::Done => false,
    }
}

/// Whether the request of a lock call that was answered so waits.
fn waits_by(reply: LockReply) -> bool
    ensures { result ≡ waits_by reply }
{
    match reply {
        LockReply::Granted => false,
        LockReply::Queued | LockReply::Refused(_) | LockReply::Done => true,
    }
}

/// What the request of an ENQ. of this function does where it is not granted at once.
fn kind_of(function: u32) -> EnqueueKind
    ensures { result ≡ kind_of function }
{
    match function {
        0 => EnqueueKind::Blocking,
        1 => EnqueueKind::AtOnce,
        _ => EnqueueKind::Interrupt,
    }
}

/// The request that a lock call made.
fn request_made(called: &Called, block: &Block) -> Request
    ensures { result ≡ request_made called.now block.now }
{
    let asking = Asking {
        kind: kind_of(called.asked.word.left()),
        id: block.id,
        armed: false,
        quota: 0,
    };
    let mut request = Request::default();
    write_request(&mut request, called.job, &asking, false, &block.wants);
    request
}

/// Whether a fact ends the wait of a request.
fn ends(fact: &Fact, clock: &WaitClock) -> bool
    ensures { result ≡ ends fact.now clock.now }
{
    match fact {
        Fact::Granted(request) | Fact::Left(request) => is_rest_of(request, &clock.request),
        Fact::LimitEnded(job, _) => {
            clock.request.job == *job && matches!(clock.request.kind, EnqueueKind::Blocking)
        }
        _ => false,
    }
}

/// Adds the line on a request that is granted, and has waited since a tick.
#[tactic(auto, using(std::proofs::Common::append_assoc))]
fn push_granted(
    text: &mut String,
    tick: u64,
    since: u64,
    request: &Request,
) -> Result<(), AllocError>
    ensures { OnOk result (string_bytes text.new ≡ string_bytes text.old ++ granted_after tick request.now (Some since)) }
{
    let (job, ticks) = (request.job, tick.saturating_sub(since));
    write!(text, "tick {tick}, job {job}: granted after {ticks} ticks")?;
    push_wants(text, request.wants.as_slice())?;
    text.push_str("\n")
}

/// Whether a wait, for which its job waits too, is long from this tick on.
fn is_due(most: u64, tick: u64, clock: &WaitClock) -> bool
    ensures { result ≡ is_due most tick clock.now }
{
    let due = clock.since.saturating_add(most).saturating_add(1);
    matches!(clock.request.kind, EnqueueKind::Blocking) && due == tick
}

/// The line on a wait that is long from this tick on.
#[tactic(auto, using(std::proofs::Common::append_assoc))]
fn due_text(
    alloc: Global,
    tick: u64,
    clock: &WaitClock,
    requests: &[Request],
) -> Result<String, AllocError>
    ensures { IfOk result (λ text. IsDueText requests.now tick (Some clock.now) (string_bytes text)) }
{
    let job = clock.request.job;
    let ticks = tick.saturating_sub(clock.since);
    let mut text = String::new(alloc);
    write!(text, "tick {tick}, job {job}: ")?;
    push_lock_wait(alloc, &mut text, requests, job)?;
    write!(text, ", for {ticks} ticks\n")?;
    Ok(text)
}

/// Counts the waits of these clocks, which still go on, up to this tick.
fn add_waits(rows: &mut Vec<LockRow>, tick: u64, waiting: &[WaitClock]) -> Result<(), AllocError>
    ensures { OnOk result (rows.new.items ≡ with_waits tick waiting.now rows.old.items) }
{
    for clock in waiting {
        let ticks = tick.saturating_sub(clock.since);
        let wants = clock.request.wants.as_slice();
        count_locks(rows, Count::Waited(ticks), wants)?;
    }
    Ok(())
}

/// How many of these clocks are of requests that name a lock.
fn still_waiting(waiting: &[WaitClock], key: &Key) -> usize
    ensures { result ≡ still_waiting waiting.now key.now }
{
    waiting
        .iter()
        .filter(|clock| names_key(clock.request.wants.as_slice(), key))
        .count()
}

/// Adds the line of a row, where the requests of these clocks still wait.
fn push_row(
    alloc: Global,
    text: &mut String,
    waiting: &[WaitClock],
    row: &LockRow,
) -> Result<(), AllocError>
    ensures { OnOk result (string_bytes text.new ≡ string_bytes text.old ++ lock_line waiting.now row.now) }
{
    row.push_line(alloc, text, still_waiting(waiting, &row.key))
}

/// The table of these rows, where the requests of these clocks still wait.
#[tactic(auto, using(std::proofs::Common::append_assoc))]
fn table_text(alloc: Global, waiting: &[WaitClock], rows: &[LockRow]) -> Result<String, AllocError>
    ensures { IfOk result (λ text. string_bytes text ≡ table_of waiting.now rows.now) }
{
    let mut text = String::new(alloc);
    if rows.is_empty() {
        return Ok(text);
    }
    text.push_str("lock                 requests   waited  longest     mean  still waiting\n")?;
    for row in rows {
        push_row(alloc, &mut text, waiting, row)?;
    }
    Ok(text)
}

impl WaitClocks {
    /// Clocks by which waits of more than `most` ticks are long, before any request.
    pub fn new(alloc: Global, most: u64) -> Self
        ensures { result ≡ record { most = most; waiting = []; rows = [] } }
    {
        WaitClocks {
            most,
            waiting: Vec::new(alloc),
            rows: Vec::new(alloc),
        }
    }

    /// Counts a request that a lock call made with this block, and starts its clock if it waits.
    fn add_request(&mut self, tick: u64, called: &Called, block: &Block) -> Result<(), AllocError>
        ensures { OnOk result (self.new ≡ after_request tick called.now (Some (Ok block.now)) self.old) }
    {
        let waits = waits_by(called.reply);
        count_locks(&mut self.rows, Count::Asked(waits), block.wants.as_slice())?;
        if waits {
            let request = request_made(called, block);
            self.waiting.insert(
                0,
                WaitClock {
                    since: tick,
                    request,
                },
            )?;
        }
        Ok(())
    }

    /// Counts the request of a lock call, if the call made one, and starts its clock if it waits.
    fn start(&mut self, tick: u64, called: &Called) -> Result<(), AllocError>
        ensures { OnOk result (self.new ≡ after_call tick called.now self.old) }
    {
        if !makes_request(called) {
            return Ok(());
        }
        match &called.block {
            Some(Ok(block)) => self.add_request(tick, called, block),
            Some(Err(_)) | None => Ok(()),
        }
    }

    /// The position of the clock that a fact stops, if it stops one.
    fn stopped_at(&self, fact: &Fact) -> Option<usize>
        ensures value { result ≡ position (ends fact.now) self.now.waiting }
        ensures within { IfSome result (λ i. i < length self.now.waiting) }
    {
        self.waiting.iter().position(|clock| ends(fact, clock))
    }

    /// Stops the clock that a fact stops, if it stops one, counts the wait, and gives the tick in which that began.
    fn stop(&mut self, tick: u64, fact: &Fact) -> Result<Option<u64>, AllocError>
        ensures clocks { OnOk result (self.new ≡ after_end tick fact.now self.old) }
        ensures since { IfOk result (λ since. since ≡ started_at (stopped_by fact.now self.old.waiting)) }
    {
        let Some(position) = self.stopped_at(fact) else {
            return Ok(None);
        };
        let clock = self.waiting.remove(position);
        let ticks = tick.saturating_sub(clock.since);
        let wants = clock.request.wants.as_slice();
        count_locks(&mut self.rows, Count::Waited(ticks), wants)?;
        Ok(Some(clock.since))
    }

    /// Takes note of a fact of this tick, and adds how long a grant took.
    fn note(&mut self, tick: u64, fact: &Fact, text: &mut String) -> Result<(), AllocError>
        ensures clocks { OnOk result (self.new ≡ after_fact tick fact.now self.old) }
        ensures text { OnOk result (string_bytes text.new ≡ string_bytes text.old ++ wait_line tick fact.now self.old.waiting) }
    {
        match fact {
            Fact::Called(called) => self.start(tick, called),
            Fact::Granted(request) => match self.stop(tick, fact)? {
                Some(since) => push_granted(text, tick, since, request),
                None => Ok(()),
            },
            _ => {
                self.stop(tick, fact)?;
                Ok(())
            }
        }
    }

    /// Takes note of the facts of this tick, and gives lines on how long grants took.
    pub fn note_all(
        &mut self,
        alloc: Global,
        tick: u64,
        facts: &[Fact],
    ) -> Result<String, AllocError>
        ensures clocks { OnOk result (self.new ≡ after_facts tick facts.now self.old) }
        ensures text { IfOk result (λ text. string_bytes text ≡ wait_lines tick facts.now self.old) }
    {
        let mut text = String::new(alloc);
        for fact in facts {
            self.note(tick, fact, &mut text)?;
        }
        Ok(text)
    }

    /// In how many ticks the first of these waits is long; a great number if none will be.
    pub fn ticks_to_overdue(&self, tick: u64) -> u64
        ensures { result ≡ least_due self.now.most tick (2 ^ 64 - 1) self.now.waiting }
    {
        let mut least = u64::MAX;
        for clock in &self.waiting {
            let due = clock.since.saturating_add(self.most).saturating_add(1);
            if matches!(clock.request.kind, EnqueueKind::Blocking) && due > tick {
                least = least.min(due - tick);
            }
        }
        least
    }

    /// The position of the clock of a wait that is long from this tick on, if there is one.
    fn due_at(&self, tick: u64) -> Option<usize>
        ensures value { result ≡ position (is_due self.now.most tick) self.now.waiting }
        ensures within { IfSome result (λ i. i < length self.now.waiting) }
    {
        let most = self.most;
        self.waiting
            .iter()
            .position(|clock| is_due(most, tick, clock))
    }

    /// A line on the job that waits for long from this tick on, if there is one: at most one job begins to wait in a tick.
    pub fn overdue(&self, alloc: Global, tick: u64, machine: &Machine) -> Result<String, AllocError>
        ensures { IfOk result (λ text. IsDueText machine.now.world.requests tick
            (clock_at self.now.waiting (position (is_due self.now.most tick) self.now.waiting)) (string_bytes text)) }
    {
        match self.due_at(tick) {
            Some(position) => {
                let requests = machine.requests(alloc)?;
                due_text(alloc, tick, &self.waiting[position], requests.as_slice())
            }
            None => Ok(String::new(alloc)),
        }
    }

    /// The table by lock, in the order in which locks were first asked for; empty where none was. Waits that
    /// still go on are counted up to this tick.
    pub fn table(&self, alloc: Global, tick: u64) -> Result<String, AllocError>
        ensures { IfOk result (λ text. string_bytes text ≡ table_words tick self.now) }
    {
        let waiting = self.waiting.as_slice();
        let mut rows = Vec::from_slice(alloc, self.rows.as_slice())?;
        add_waits(&mut rows, tick, waiting)?;
        table_text(alloc, waiting, rows.as_slice())
    }
}
