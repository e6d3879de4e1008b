//! The machine with the lock table and the core store of the programs.
ghost use Rattle.std.specs.Prelude.{ℕ, ◌≡◌, ◌≢◌, ◌≤◌, ◌<◌, ◌⊎◌, true, false, is_some, Some, IfOk};
ghost use Rattle.word36.specs.declared.sizes.TheConstants.{MOST_REQUESTS};
ghost use Rattle.machine.specs.Between.{Between, is_among, next_in};
ghost use Rattle.machine.specs.Deposits.{deposited, end_by_hand, executed_by_hand, is_done_by_hand, started_at};
ghost use Rattle.machine.specs.Machine.{happens, after, answers, at_boot};
ghost use Rattle.machine.specs.Next.{asked_next, block_next, effective_in, executed_in};
ghost use Rattle.machine.specs.Rounds.{rounds, runs_in};
ghost use Rattle.machine.specs.Views.{job_view, word_in};
ghost use Rattle.machine.specs.declared.event.Event.TheVariants.{Tick};
ghost use Rattle.progress_laws.specs.Promises.{EventKeeps};
ghost use Rattle.run_events.specs.Facts.{facts_of_tick};
ghost use Rattle.run_events.specs.Runs.{LeadsTo, facts_of_round};

use core_store::BlockCore;
use ka_state::Outcome;
use lock_queue::LockTable;
use lock_table::ProgramTable;
use monitor::{Answer, Config, Event, JobView, Rounds, System};
use run_events::{Fact, RoundsMade, round_facts, rounds_facts, tick_facts};
use std::alloc::{AllocError, Global};
use std::marker::Model;
use uuo_calls::{Asked, BlockRoom};
use word36::{Address, Word};

/// A `System` with the lock table and the core store of the programs. Its methods are those of `System`.
#[derive(Drop)]
pub struct Machine {
    system: System<ProgramTable, BlockCore>,
}

impl Model for Machine {
    ghost use Rattle.machine.specs.Machine.{S};

    ghost Value = { S };

    ghost view = { λ machine. machine.system };
}

impl Machine {
    /// Makes a machine without jobs, with the blocks and the quantum of a `Config`.
    pub fn boot(alloc: Global, config: Config) -> Result<Self, AllocError>
        ensures { IfOk result (λ s. s ≡ at_boot MOST_REQUESTS config.blocks config.quantum) }
    {
        let system = System::boot(alloc, config)?;
        Ok(Machine { system })
    }

    /// Makes one event happen. A refused event changes nothing. `keeps` has what is promised of every event.
    #[inline(always)]
    pub fn event(&mut self, event: &Event) -> Answer
        ensures state { self.new ≡ (happens self.old event.now).state }
        ensures answer { result ≡ (happens self.old event.now).answer }
        ensures keeps { EventKeeps self.old event.now self.new }
    {
        self.system.event(event)
    }

    /// Makes `most` steps, each followed by a tick where `ticking`, and counts those in which a job ran.
    pub fn steps(&mut self, most: u32, ticking: bool) -> u32
        ensures state { self.new ≡ after (rounds most ticking) self.old }
        ensures count { result ≡ runs_in (answers (rounds most ticking) self.old) }
    {
        self.system.steps(most, ticking)
    }

    /// Makes 1 to `most` rounds at once, each a step and a tick: those of the job that is next, up to the
    /// first after which its PC is one of `addresses`.
    pub fn rounds_to(&mut self, most: u32, addresses: &[Address]) -> Rounds
        requires { 1 ≤ most }
        ensures state { self.new ≡ after (rounds result.made true) self.old }
        ensures next { next_in self.old ≡ result.job }
        ensures least { 1 ≤ result.made }
        ensures most { result.made ≤ most }
        ensures between { (k : ℕ) → 1 ≤ k → k < result.made
            → Between self.old (after (rounds k true) self.old) result.job (is_among addresses.now) }
    {
        self.system.rounds_to(most, addresses)
    }

    /// Makes 1 to `most` rounds of the job that is next, but for the last tick, up to the first that may have a fact;
    /// the facts of the last step are with them.
    pub fn rounds_facts(
        &mut self,
        alloc: Global,
        room: &mut BlockRoom,
        most: u32,
    ) -> Result<RoundsMade, AllocError>
        requires { 1 ≤ most }
        ensures rounds { IfOk result (λ r. LeadsTo self.old self.new r) }
        ensures most { IfOk result (λ r. r.made ≤ most) }
    {
        rounds_facts(alloc, &mut self.system, room, most)
    }

    /// Makes a round, a step and a tick, and gives the job that ran in it, if one was ready, and the facts of the round.
    pub fn round_facts(
        &mut self,
        alloc: Global,
        room: &mut BlockRoom,
    ) -> (Option<u8>, Result<Vec<Fact>, AllocError>)
        ensures state { self.new ≡ after (rounds 1 true) self.old }
        ensures job { result.0 ≡ next_in self.old }
        ensures facts { IfOk result.1 (λ facts. facts.items ≡ facts_of_round self.old) }
    {
        round_facts(alloc, &mut self.system, room)
    }

    /// Makes a tick, and gives its facts.
    pub fn tick_facts(&mut self, alloc: Global) -> Result<Vec<Fact>, AllocError>
        ensures state { self.new ≡ (happens self.old Tick).state }
        ensures facts { IfOk result (λ facts. facts.items ≡ facts_of_tick self.old) }
    {
        tick_facts(alloc, &mut self.system)
    }

    /// What there is to see of a job, if it is there.
    #[inline(always)]
    pub fn job(&self, n: u8) -> Option<JobView>
        ensures { result ≡ job_view self.now.world n }
    {
        self.system.job(n)
    }

    /// The word at an address of a job: a register below 20 octal, and its core from there on. `None` where
    /// the job is not there or the address is not legal.
    pub fn peek(&self, n: u8, a: u32) -> Option<Word>
        ensures { result ≡ word_in self.now.world n a }
    {
        self.system.peek(n, a)
    }

    /// The word that is executed where a job executes this one: itself, unless it is XCT. `None` where the job is not there,
    /// or the processor refuses the XCT.
    pub fn executed_word(&self, n: u8, word: Word) -> Option<Word>
        ensures { result ≡ executed_in self.now.world n word }
    {
        self.system.executed_word(n, word)
    }

    /// The effective address of a word of a job, over indirect words. `None` where the job is not there, or the processor
    /// refuses the address.
    pub fn effective_address(&self, n: u8, word: Word) -> Option<Address>
        ensures { result ≡ effective_in self.now.world n word }
    {
        self.system.effective_address(n, word)
    }

    /// What a job asks of the lock queue by its next instruction, if that is a lock call. The block that it reads, or the
    /// block's first refusal, is left in `room`.
    pub fn asked_next(&self, n: u8, room: &mut BlockRoom) -> Option<Asked>
        ensures asked { result ≡ asked_next self.now.world n }
        ensures block { room.new ≡ block_next self.now.world n }
    {
        self.system.asked_next(n, room)
    }

    /// Stores a word at an address of a job, as a debugger does. False where the job is not there or the
    /// address is not legal: then nothing changes. This is not an event.
    pub fn deposit(&mut self, n: u8, a: u32, w: Word) -> bool
        ensures state { self.new ≡ deposited self.old n a w }
        ensures found { result ≡ is_some (word_in self.old.world n a) }
        ensures there { result ≡ true → word_in self.new.world n a ≡ Some w }
        ensures others { (m b : ℕ) → (m ≢ n) ⊎ (b ≢ a) → word_in self.new.world m b ≡ word_in self.old.world m b }
        ensures kept { result ≡ false → self.new ≡ self.old }
    {
        self.system.deposit(n, a, w)
    }

    /// Executes a word for a job, as a debugger does with an instruction that is typed: as if it stood before the instruction
    /// at the job's PC. It takes no turn and no time, and the job's stop and wait stay. Tells how the processor ends it; `None`
    /// where the job is not there. Nothing changes where it is not complete. This is not an event.
    pub fn execute(&mut self, n: u8, word: Word) -> Option<Outcome>
        ensures state { self.new ≡ executed_by_hand self.old n word }
        ensures end { result ≡ end_by_hand self.old n word }
        ensures others { (m b : ℕ) → m ≢ n → word_in self.new.world m b ≡ word_in self.old.world m b }
        ensures kept { is_done_by_hand result ≡ false → self.new ≡ self.old }
    {
        self.system.execute(n, word)
    }

    /// Starts a job at an address, as a debugger does. This is not an event either.
    pub fn start_at(&mut self, n: u8, a: Address) -> Answer
        ensures state { self.new ≡ (started_at self.old n a).state }
        ensures answer { result ≡ (started_at self.old n a).answer }
    {
        self.system.start_at(n, a)
    }

    /// The table of the requests of all jobs.
    pub fn locks(&self) -> &ProgramTable
        ensures { ⟦<ProgramTable as LockTable>⟧.requests result.now ≡ self.now.world.requests }
    {
        self.system.locks()
    }
}
