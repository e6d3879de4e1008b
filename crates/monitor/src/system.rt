//! The machine, which is safe at all times.
ghost use Rattle.std.specs.Prelude.{ℕ, ◌≡◌, ◌≢◌, ◌≤◌, ◌<◌, ◌⊎◌, ◌+◌, ◌-◌, true, false, is_some, Some, length, IfOk, slice_get};
ghost use Rattle.word36.specs.declared.sizes.TheConstants.{MOST_REQUESTS};
ghost use Rattle.job_sched.specs.Changes.{ticked_table};
ghost use Rattle.job_sched.specs.Limits.{expires};
ghost use Rattle.lock_queue.specs.Jobs.{is_among as is_in_set};
ghost use Rattle.machine.specs.Between.{Between, is_among, next_in};
ghost use Rattle.machine.specs.Deposits.{deposited, end_by_hand, executed_by_hand, is_done_by_hand, started_at};
ghost use Rattle.machine.specs.Machine.{happens, after, answers, at_boot};
ghost use Rattle.machine.specs.Next.{asked_next, block_next, effective_in, executed_in};
ghost use Rattle.machine.specs.Rounds.{rounds, runs_in};
ghost use Rattle.machine.specs.Told.{before_in, read_in, told_in};
ghost use Rattle.machine.specs.Views.{job_view, word_in};
ghost use Rattle.machine.specs.Waits.{ungranted};
ghost use Rattle.machine.specs.declared.event.Event.TheVariants.{Step, Tick};
ghost use Rattle.monitor_laws.specs.Quiet.{IsQuiet};
ghost use Rattle.progress_laws.specs.Kept.{IsSound};
ghost use Rattle.progress_laws.specs.Promises.{EventKeeps, RunKeeps};

use crate::parts::Parts;
use crate::rounds::Rounds;
use core_store::CoreStore;
use ka_state::Outcome;
use lock_queue::{LockTable, Request};
use machine::{Answer, Config, Event, JobView, Told};
use std::alloc::{AllocError, Global};
use std::marker::Model;
use uuo_calls::{Asked, BlockRoom, World};
use word36::{Address, Word};

/// A DECsystem-10 with up to 63 jobs and 64 terminal lines (this project's profile).
///
/// Only `boot` takes memory. Every other call returns what is defined for it, whatever the jobs'
/// programs are and in whatever order events come.
#[derive(Drop)]
pub struct System<L: LockTable, C: CoreStore> {
    parts: Parts<L, C>,
}

impl<L: LockTable, C: CoreStore> Model for System<L, C> {
    ghost use Rattle.machine.specs.Machine.{S};
    ghost use Rattle.progress_laws.specs.Kept.{IsSound};

    ghost Value = { S };

    ghost view = { λ s. s.parts };

    ghost invariant = { λ s. IsSound s.parts };
}

impl<L: LockTable, C: CoreStore> System<L, C> {
    /// Makes a machine without jobs, with the blocks and the quantum of a `Config`. Its lock table holds 1 to
    /// 1,024 requests.
    pub fn boot(alloc: Global, config: Config) -> Result<Self, AllocError>
        requires { (1 ≤ L.REQS) × (L.REQS ≤ MOST_REQUESTS) }
        ensures { IfOk result (λ s. s ≡ at_boot L.REQS config.blocks config.quantum) }
    {
        let parts = Parts::boot(alloc, config)?;
        Ok(System { parts })
    }

    /// Makes one event happen. A refused event changes nothing. `keeps` has what is promised of every event.
    #[inline(always)]
    pub fn event(&mut self, event: &Event) -> Answer
        ensures state { self.new ≡ (happens self.old event.now).state }
        ensures answer { result ≡ (happens self.old event.now).answer }
        ensures keeps { EventKeeps self.old event.now self.new }
    {
        self.happen(event)
    }

    /// Makes one event happen. A step, a tick and a typed character are inlined here, so that they cost no
    /// space for the answers of other events, which would be cleared and copied.
    #[inline(always)]
    fn happen(&mut self, event: &Event) -> Answer
        ensures state { self.new ≡ (happens self.old event.now).state }
        ensures answer { result ≡ (happens self.old event.now).answer }
        ensures sound { IsSound self.old × IsSound self.new }
    {
        match event {
            Event::Step => match self.parts.step() {
                Some(n) => Answer::Ran(n),
                None => Answer::Idle,
            },
            Event::Tick => {
                self.parts.tick();
                Answer::Done
            }
            Event::Typed(line, character) => self.parts.typed(*line, *character),
            _ => self.parts.event(event),
        }
    }

    /// Makes events happen one after the other, and writes the answer to each at its index. `keeps` has what
    /// is promised of every run.
    pub fn run(&mut self, events: &[Event], replies: &mut [Answer])
        requires { length replies.old ≡ length events.now }
        ensures state { self.new ≡ after events.now self.old }
        ensures answers { replies.new ≡ answers events.now self.old }
        ensures keeps { RunKeeps self.old events.now }
    {
        let _ = &self.parts;
        for i in 0..events.len() {
            replies[i] = self.event(&events[i]);
        }
    }

    /// Makes `most` steps, each followed by a tick where `ticking`, and counts those in which a job ran. The
    /// loop stands here twice, so that neither looks at `ticking` again; the one with ticks, by which most
    /// programs run, inlines a round of one instruction.
    pub fn steps(&mut self, most: u32, ticking: bool) -> u32
        ensures state { self.new ≡ after (rounds most ticking) self.old }
        ensures count { result ≡ runs_in (answers (rounds most ticking) self.old) }
    {
        if ticking {
            self.parts.run_rounds::<true>(most)
        } else {
            self.parts.run_rounds::<false>(most)
        }
    }

    /// Makes 1 to `most` rounds at once, each a step and a tick: those of the job that is next, as long as
    /// it computes, and its quantum lasts or no other job is ready, up to the first after which its PC is
    /// one of `addresses`. Where no job is ready, one round passes. A debugger runs to an address by this.
    pub fn rounds_to(&mut self, most: u32, addresses: &[Address]) -> Rounds
        requires { 1 ≤ most }
        ensures state { self.new ≡ after (rounds result.made true) self.old }
        ensures next { next_in self.old ≡ result.job }
        ensures least { 1 ≤ result.made }
        ensures most { result.made ≤ most }
        ensures between { (k : ℕ) → 1 ≤ k → k < result.made
            → Between self.old (after (rounds k true) self.old) result.job (is_among addresses.now) }
    {
        self.parts.rounds_to(most, addresses)
    }

    /// Makes a step, and tells what it makes known, from the parts that decide it: whose turn it was, the call
    /// that the job made, what it asked of the lock queue, and what it was answered; nothing where no job is
    /// ready. The block that a lock call read is left in `room`. It gives copies of the requests that were not granted
    /// before the call, where that may grant some.
    pub fn step_told(
        &mut self,
        alloc: Global,
        room: &mut BlockRoom,
    ) -> (Option<Told>, Result<Vec<Request>, AllocError>)
        ensures state { self.new ≡ (happens self.old Step).state }
        ensures told { result.0 ≡ told_in self.old }
        ensures before { IfOk result.1 (λ v. v.items ≡ before_in self.old) }
        ensures read { room.new ≡ read_in self.old }
    {
        self.parts.step_told(alloc, room)
    }

    /// Makes 1 to `most` rounds at once, each a step and a tick, as `rounds_to` does, but leaves the last tick to the
    /// caller. Tells what the last step makes known, and the job's PC before that, of which no clause speaks; the rounds
    /// before it are quiet. A caller that wants the facts of a run makes this and `tick_told` in turn.
    #[inline(always)]
    pub fn rounds_told(
        &mut self,
        alloc: Global,
        most: u32,
        room: &mut BlockRoom,
    ) -> (u32, Option<Told>, Result<Vec<Request>, AllocError>, Address)
        requires { 1 ≤ most }
        ensures least { 1 ≤ result.0 }
        ensures most { result.0 ≤ most }
        ensures quiet { (k : ℕ) → k + 1 < result.0 → IsQuiet (after (rounds k true) self.old) }
        ensures state { self.new ≡ (happens (after (rounds (result.0 - 1) true) self.old) Step).state }
        ensures told { result.1 ≡ told_in (after (rounds (result.0 - 1) true) self.old) }
        ensures before { IfOk result.2 (λ v. v.items ≡ before_in (after (rounds (result.0 - 1) true) self.old)) }
        ensures read { room.new ≡ read_in (after (rounds (result.0 - 1) true) self.old) }
    {
        self.parts.rounds_told(alloc, most, room)
    }

    /// Makes a tick, and tells the set of the jobs whose limits end, which has bit 2^j for each job j.
    /// It gives copies of the requests that were not granted before these left, where there are some.
    pub fn tick_told(&mut self, alloc: Global) -> (u64, Result<Vec<Request>, AllocError>)
        ensures state { self.new ≡ (happens self.old Tick).state }
        ensures ended { (n : ℕ) → is_in_set result.0 n ≡ expires self.old.world.requests (ticked_table self.old.world.table).jobs n }
        ensures before { result.0 ≢ 0 → IfOk result.1 (λ v. v.items ≡ ungranted self.old.world.requests) }
    {
        self.parts.tick_told(alloc)
    }

    /// What there is to see of a job, if it is there. It is inlined, so that a caller pays only for the
    /// parts that it reads.
    #[inline(always)]
    pub fn job(&self, n: u8) -> Option<JobView>
        ensures { result ≡ job_view self.now.world n }
    {
        self.parts.job(n)
    }

    /// The word at an address of a job: a register below 20 octal, and its core from there on. `None` where
    /// the job is not there or the address is not legal.
    pub fn peek(&self, n: u8, a: u32) -> Option<Word>
        ensures { result ≡ word_in self.now.world n a }
    {
        self.parts.peek(n, a)
    }

    /// What a job asks of the lock queue by its next instruction, if that is a lock call: ENQ., DEQ. or ENQC., and the
    /// word in its AC. The block that the call reads, or the block's first refusal, is left in `room`. The instruction
    /// is found over indirect words and XCTs, as the processor finds it, and is not executed. `None`,
    /// and no block, where the job is not there, or its next instruction is no lock call or is refused. An interrupt
    /// that is due comes before that instruction.
    pub fn asked_next(&self, n: u8, room: &mut BlockRoom) -> Option<Asked>
        ensures asked { result ≡ asked_next self.now.world n }
        ensures block { room.new ≡ block_next self.now.world n }
    {
        self.parts.asked_next(n, room)
    }

    /// The word that is executed where a job executes this one: itself, unless it is XCT. `None` where the job is not
    /// there, or the processor refuses the XCT.
    pub fn executed_word(&self, n: u8, word: Word) -> Option<Word>
        ensures { result ≡ executed_in self.now.world n word }
    {
        self.parts.executed_word(n, word)
    }

    /// The effective address of a word of a job, over indirect words, as the processor finds it. `None` where the job
    /// is not there, or the processor refuses the address.
    pub fn effective_address(&self, n: u8, word: Word) -> Option<Address>
        ensures { result ≡ effective_in self.now.world n word }
    {
        self.parts.effective_address(n, word)
    }

    /// Stores a word at an address of a job, as a debugger does: in a register below 20 octal, and in its
    /// core from there on. False where the job is not there or the address is not legal: then nothing
    /// changes. This is not an event, and the promises on runs speak of events alone; but the machine is as
    /// safe as before.
    pub fn deposit(&mut self, n: u8, a: u32, w: Word) -> bool
        ensures state { self.new ≡ deposited self.old n a w }
        ensures found { result ≡ is_some (word_in self.old.world n a) }
        ensures there { result ≡ true → word_in self.new.world n a ≡ Some w }
        ensures others { (m b : ℕ) → (m ≢ n) ⊎ (b ≢ a) → word_in self.new.world m b ≡ word_in self.old.world m b }
        ensures kept { result ≡ false → self.new ≡ self.old }
    {
        self.parts.deposit(n, a, w)
    }

    /// Executes a word for a job, as a debugger does with an instruction that is typed: as an XCT before the instruction at
    /// the job's PC would, so that this one comes next, unless the word skips it or jumps. It takes no turn and no time,
    /// and the job's stop and wait stay. Tells how the processor ends it; `None` where the job is not there. Nothing
    /// changes where it is not complete: at a stop, unless that is a pushdown overflow, and where it would call the
    /// monitor. This is not an event.
    pub fn execute(&mut self, n: u8, word: Word) -> Option<Outcome>
        ensures state { self.new ≡ executed_by_hand self.old n word }
        ensures end { result ≡ end_by_hand self.old n word }
        ensures others { (m b : ℕ) → m ≢ n → word_in self.new.world m b ≡ word_in self.old.world m b }
        ensures kept { is_done_by_hand result ≡ false → self.new ≡ self.old }
    {
        self.parts.execute(n, word)
    }

    /// Starts a job at an address, as a debugger does: makes the event `Start`, and sets the job's PC to the
    /// address where the answer is `Done`. This is not an event either.
    pub fn start_at(&mut self, n: u8, a: Address) -> Answer
        ensures state { self.new ≡ (started_at self.old n a).state }
        ensures answer { result ≡ (started_at self.old n a).answer }
    {
        // The prover takes from here that the address is below 2^18, as the invariant asks.
        let _address = a.number();
        self.parts.start_at(n, a)
    }

    /// A word that all jobs share, if there is one of that number.
    pub fn data_word(&self, i: usize) -> Option<Word>
        ensures { result ≡ slice_get self.now.world.shared i }
    {
        self.parts.data_word(i)
    }

    /// What calls work on, without the machine round it, for whoever lets jobs take their turns in other orders.
    pub fn into_world(self) -> World<L, C>
        ensures world { result ≡ self.world }
        ensures sound { IsSound self }
    {
        self.parts.world
    }

    /// The lock table, with the requests of all jobs.
    pub fn locks(&self) -> &L
        ensures { L.requests result.now ≡ self.now.world.requests }
    {
        self.parts.locks()
    }
}
