//! What a machine does with its jobs' core, for any store.

ghost use Rattle.std.specs.Prelude.{◌≡◌, ◌≢◌, ◌≤◌, ◌<◌, ◌+◌, ◌-◌, ◌*◌, ◌↔◌, ℕ, [], length, slice_get, slice_set};
ghost use Rattle.std.specs.Prelude.{replicate, nat_lt, take, OnOk, OnErr, IfOk, IsOk, IsTrue};
ghost use Rattle.ka_cpu.specs.Exec.{exec};
ghost use Rattle.ka_state.specs.Memory.{word_at};
ghost use Rattle.core_store.specs.Cores.{IsJob, IsStore, Cores, core_of, blocks_of, with_core};
ghost use Rattle.core_store.specs.Cores.{all_free, taken, resized, given, resized_words};
ghost use Rattle.std.specs.Prelude.{Some, None};

use core_store::{CoreStore, NoCore};
use ka_cpu::step;
use ka_state::{CoreWords, JobMemory, Outcome, Regs, fetch_kept};
use std::alloc::{AllocError, Global};
use word36::{BLOCK_WORDS, Word};

/// Stores a word in any memory.
fn store_word<M: JobMemory>(memory: &mut M, a: u32, word: Word) -> bool
    ensures stored { M.words memory.new ≡ slice_set (M.words memory.old) a word }
    ensures told { result ≡ nat_lt a (length (M.words memory.old)) }
    ensures place { M.place memory.new ≡ M.place memory.old }
{
    memory.write(a, word)
}

/// Stores a word in a job's core.
pub fn write_in<C: CoreStore>(cores: &mut C, job: u8, a: u32, word: Word) -> bool
    requires { IsJob job }
    ensures told { result ≡ nat_lt a (length (core_of (C.meaning cores.old) job)) }
    ensures words { core_of (C.meaning cores.new) job ≡ slice_set (core_of (C.meaning cores.old) job) a word }
    ensures others { (k : ℕ) → k ≢ job → core_of (C.meaning cores.new) k ≡ core_of (C.meaning cores.old) k }
    ensures free { (C.meaning cores.new).free ≡ (C.meaning cores.old).free }
{
    let words = cores.window(job);
    let mut window = CoreWords { words };
    store_word(&mut window, a, word)
}

/// Executes one instruction of a job in its core.
pub fn step_in<C: CoreStore>(cores: &mut C, job: u8, regs: &mut Regs) -> Outcome
    requires { IsJob job }
    ensures exec { record { regs = regs.new; core = core_of (C.meaning cores.new) job; outcome = result }
        ≡ exec regs.old (core_of (C.meaning cores.old) job) }
    ensures cores { C.meaning cores.new ≡ with_core (C.meaning cores.old) job (exec regs.old (core_of (C.meaning cores.old) job)).core }
{
    let words = cores.window(job);
    let mut window = CoreWords { words };
    step(regs, &mut window)
}

/// Executes one instruction of a job, which does not touch another's core.
pub fn step_beside<C: CoreStore>(cores: &mut C, job: u8, other: u8, regs: &mut Regs) -> Outcome
    requires job { IsJob job }
    requires other { IsJob other }
    requires apart { job ≢ other }
    ensures executed { core_of (C.meaning cores.new) job ≡ (exec regs.old (core_of (C.meaning cores.old) job)).core }
    ensures beside { core_of (C.meaning cores.new) other ≡ core_of (C.meaning cores.old) other }
    ensures free { (C.meaning cores.new).free ≡ (C.meaning cores.old).free }
{
    step_in(cores, job, regs)
}

/// Gives a job core, and its first word a value.
pub fn log_in<C: CoreStore>(cores: &mut C, job: u8, blocks: u32, word: Word) -> Result<(), NoCore>
    requires number { IsJob job }
    requires some { 1 ≤ blocks }
    requires none_yet { core_of (C.meaning cores.old) job ≡ [] }
    ensures cases { IsOk result ↔ (blocks ≤ (C.meaning cores.old).free) }
    ensures words { OnOk result (core_of (C.meaning cores.new) job ≡ slice_set (replicate (blocks * BLOCK_WORDS) 0) 0 word) }
    ensures others { OnOk result ((k : ℕ) → k ≢ job → core_of (C.meaning cores.new) k ≡ core_of (C.meaning cores.old) k) }
    ensures free { OnOk result ((C.meaning cores.new).free + blocks ≡ (C.meaning cores.old).free) }
    ensures none { OnErr result (C.meaning cores.new ≡ C.meaning cores.old) }
{
    cores.take(job, blocks)?;
    write_in(cores, job, 0, word);
    Ok(())
}

/// Copies a word from one job's core to another's, where both have its address.
pub fn copy_word<C: CoreStore>(cores: &mut C, from: u8, to: u8, a: u32) -> bool
    requires from { IsJob from }
    requires to { IsJob to }
    requires apart { from ≢ to }
    ensures source { core_of (C.meaning cores.new) from ≡ core_of (C.meaning cores.old) from }
    ensures told { IsTrue result ↔ (a < length (core_of (C.meaning cores.old) from)) × (a < length (core_of (C.meaning cores.old) to)) }
    ensures copied { IsTrue result → slice_get (core_of (C.meaning cores.new) to) a ≡ slice_get (core_of (C.meaning cores.old) from) a }
{
    let Some(word) = cores.read(from, a) else {
        return false;
    };
    write_in(cores, to, a, word)
}

/// Cuts a job's core to fewer blocks and gives them all to another, which has none.
pub fn hand_over<C: CoreStore>(cores: &mut C, from: u8, to: u8, blocks: u32) -> Result<(), NoCore>
    requires from { IsJob from }
    requires to { IsJob to }
    requires apart { from ≢ to }
    requires some { 1 ≤ blocks }
    requires fewer { blocks < blocks_of (C.meaning cores.old) from }
    requires none_yet { core_of (C.meaning cores.old) to ≡ [] }
    ensures done { IsOk result }
    ensures kept { core_of (C.meaning cores.new) from ≡ take (blocks * BLOCK_WORDS) (core_of (C.meaning cores.old) from) }
    ensures zeros { core_of (C.meaning cores.new) to ≡ replicate ((blocks_of (C.meaning cores.old) from - blocks) * BLOCK_WORDS) 0 }
    ensures free { (C.meaning cores.new).free ≡ (C.meaning cores.old).free }
{
    let had = cores.blocks(from);
    cores.resize(from, blocks)?;
    cores.take(to, had - blocks)
}

/// Gives a job one block more.
pub fn grow<C: CoreStore>(cores: &mut C, job: u8) -> Result<(), NoCore>
    requires number { IsJob job }
    requires has_core { core_of (C.meaning cores.old) job ≢ [] }
    ensures cases { IsOk result ↔ (1 ≤ (C.meaning cores.old).free) }
    ensures kept { OnOk result
        ((a : ℕ) → a < length (core_of (C.meaning cores.old) job)
        → slice_get (core_of (C.meaning cores.new) job) a ≡ slice_get (core_of (C.meaning cores.old) job) a) }
    ensures long { OnOk result (length (core_of (C.meaning cores.new) job) ≡ length (core_of (C.meaning cores.old) job) + BLOCK_WORDS) }
    ensures others { OnOk result ((k : ℕ) → k ≢ job → core_of (C.meaning cores.new) k ≡ core_of (C.meaning cores.old) k) }
    ensures free { OnOk result ((C.meaning cores.new).free + 1 ≡ (C.meaning cores.old).free) }
{
    let blocks = cores.blocks(job) + 1;
    cores.resize(job, blocks)
}

/// Makes a job's core so many blocks, whether it has any or not.
pub fn set_blocks<C: CoreStore>(cores: &mut C, job: u8, blocks: u32) -> Result<(), NoCore>
    requires number { IsJob job }
    requires some { 1 ≤ blocks }
    ensures cases { IsOk result ↔ (blocks ≤ (C.meaning cores.old).free + blocks_of (C.meaning cores.old) job) }
    ensures ok { OnOk result (C.meaning cores.new ≡ resized (C.meaning cores.old) job blocks) }
    ensures err { OnErr result (C.meaning cores.new ≡ C.meaning cores.old) }
{
    if cores.blocks(job) == 0 {
        cores.take(job, blocks)
    } else {
        cores.resize(job, blocks)
    }
}

/// Two jobs come, each with a word stored in its core; the first grows, and the second goes.
pub fn come_and_go<C: CoreStore>(
    cores: &mut C,
    stays: u8,
    goes: u8,
    blocks: u32,
    word: Word,
) -> Result<(), NoCore>
    requires stays { IsJob stays }
    requires goes { IsJob goes }
    requires apart { stays ≢ goes }
    requires some { 1 ≤ blocks }
    requires stays_has_none { core_of (C.meaning cores.old) stays ≡ [] }
    requires goes_has_none { core_of (C.meaning cores.old) goes ≡ [] }
    ensures cases { IsOk result ↔ (2 * blocks + 1 ≤ (C.meaning cores.old).free) }
    ensures stored { OnOk result (slice_get (core_of (C.meaning cores.new) stays) 0 ≡ Some word) }
    ensures grown { OnOk result (length (core_of (C.meaning cores.new) stays) ≡ (blocks + 1) * BLOCK_WORDS) }
    ensures gone { OnOk result (core_of (C.meaning cores.new) goes ≡ []) }
    ensures free { OnOk result ((C.meaning cores.new).free + blocks + 1 ≡ (C.meaning cores.old).free) }
{
    log_in(cores, stays, blocks, word)?;
    log_in(cores, goes, blocks, word)?;
    grow(cores, stays)?;
    cores.give(goes);
    Ok(())
}

/// Reads a word where a job's instructions would find it, and changes nothing.
pub fn fetch_in<C: CoreStore>(cores: &mut C, job: u8, regs: &Regs, a: u32) -> Option<Word>
    requires { IsJob job }
    ensures word { result ≡ word_at regs.now.ac (core_of (C.meaning cores.old) job) a }
    ensures same { C.meaning cores.new ≡ C.meaning cores.old }
{
    let words = cores.window(job);
    let mut window = CoreWords { words };
    fetch_kept(regs, &mut window, a)
}
