//! What a store of core offers.

ghost use Rattle.std.specs.Prelude.{◌≡◌, ◌<◌, ◌≤◌, ◌+◌, ◌*◌, ◌↔◌, ◌≢◌, ℕ, List, [], length, slice_get, IfOk, IsOk, OnOk, OnErr};
ghost use Rattle.std.specs.Borrow.{sem, Lends, Array};
ghost use Rattle.word36.specs.contracts.Word.{the_row as word_row};
ghost use Rattle.core_store.specs.Cores.{Cores, IsJob, IsStore, core_of, blocks_of, with_core, all_free, taken, resized, given};

use std::alloc::{AllocError, Global};
use word36::{BLOCK_WORDS, MOST_BLOCKS, Word};

/// There are fewer free blocks than a job lacks.
#[derive(Clone, Copy, Debug, PartialEq, Eq)]
pub struct NoCore;

impl NoCore {
    /// The number of this refusal (this project's profile).
    pub fn code(self) -> u32
        ensures { result ≡ 1 }
    {
        1
    }
}

/// Core for jobs 1 to 63, in blocks of 1024 words (this project's profile).
///
/// A store keeps a list of words for each job, which is empty where the job has no core, and counts
/// the blocks that no job has. No call changes another job's words, and only `new` takes memory.
pub trait CoreStore: Drop {
    /// The words of each job, and the free blocks.
    ghost meaning: { Self → Cores };

    /// The store after a loan of a job's words that left these behind; `put_meaning` says what it
    /// means.
    ghost put: { Self → ℕ → List ℕ → Self };

    /// A store of 1 to 256 blocks, all of them free.
    fn new(alloc: Global, blocks: u32) -> Result<Self, AllocError>
        requires least { 1 ≤ blocks }
        requires most { blocks ≤ MOST_BLOCKS }
        ensures { IfOk result (λ s. meaning s ≡ all_free blocks) };

    /// How many blocks are free.
    fn free(&self) -> u32
        ensures value { result ≡ (meaning self.now).free }
        ensures store { IsStore (meaning self.now) };

    /// How many blocks a job has.
    fn blocks(&self, job: u8) -> u32
        requires { IsJob job }
        ensures value { result ≡ blocks_of (meaning self.now) job }
        ensures whole { result * BLOCK_WORDS ≡ length (core_of (meaning self.now) job) }
        ensures most { result + (meaning self.now).free ≤ MOST_BLOCKS };

    /// The word at an address of a job's core. None where the job has no such address.
    fn read(&self, job: u8, a: u32) -> Option<Word>
        requires { IsJob job }
        ensures { result ≡ slice_get (core_of (meaning self.now) job) a };

    /// Gives a job without core so many blocks, at least 1, of zeros. It is refused where fewer are
    /// free, and then nothing changes.
    fn take(&mut self, job: u8, blocks: u32) -> Result<(), NoCore>
        requires number { IsJob job }
        requires some { 1 ≤ blocks }
        requires none_yet { core_of (meaning self.old) job ≡ [] }
        ensures cases { IsOk result ↔ (blocks ≤ (meaning self.old).free) }
        ensures ok { OnOk result (meaning self.new ≡ taken (meaning self.old) job blocks) }
        ensures err { OnErr result (meaning self.new ≡ meaning self.old) }
        ensures store { IsStore (meaning self.old) };

    /// Makes the core of a job that has some so many blocks, at least 1. The words that fit stay,
    /// and new ones are zero. It is refused where fewer blocks are free than it lacks, and then
    /// nothing changes.
    fn resize(&mut self, job: u8, blocks: u32) -> Result<(), NoCore>
        requires number { IsJob job }
        requires some { 1 ≤ blocks }
        requires has_core { core_of (meaning self.old) job ≢ [] }
        ensures cases { IsOk result ↔ (blocks ≤ (meaning self.old).free + blocks_of (meaning self.old) job) }
        ensures ok { OnOk result (meaning self.new ≡ resized (meaning self.old) job blocks) }
        ensures err { OnErr result (meaning self.new ≡ meaning self.old) }
        ensures store { IsStore (meaning self.old) };

    /// Takes a job's core away, if it has any, and frees its blocks.
    fn give(&mut self, job: u8)
        requires { IsJob job }
        ensures core { meaning self.new ≡ given (meaning self.old) job }
        ensures store { IsStore (meaning self.old) };

    /// Lends a job's words, to be read and written. After the loan the job has the words that were
    /// left there, and all else is as it was.
    fn window(&mut self, job: u8) -> &mut [Word]
        requires { IsJob job }
        ensures* writes_back { sem 𝓛 (Lends Self.row (Array word_row 0) self.entry result (put self.old job)) }
        ensures value { result.now ≡ core_of (meaning self.old) job }
        ensures store { IsStore (meaning self.old) };

    ghost put_meaning: { (s : Self) (job : ℕ) (words : List ℕ) → IsJob job → length words ≡ length (core_of (meaning s) job)
        → meaning (put s job words) ≡ with_core (meaning s) job words };
}
