//! A store with a vector for each job.

ghost use Rattle.std.specs.Prelude.{ℕ, ◌≡◌, ◌≤◌, ◌*◌, vec_capacity};
ghost use Rattle.core_store.specs.Cores.{Cores, core_of, with_core, resized_words};
ghost use Rattle.core_store.specs.Fitted.{fitted, fitted-same};
ghost use Rattle.std.proofs.Common.{ap};

use crate::{CoreStore, NoCore};
use std::alloc::{AllocError, Global};
use std::marker::Model;
use word36::{BLOCK_WORDS, JOBS, Word};

/// A store that keeps each job's words in a vector of its own, with room for all blocks.
#[derive(Drop)]
pub struct PlainCore {
    /// The words of each job, by its number.
    cores: Vec<Vec<Word>>,
    /// How many blocks there are.
    blocks: u32,
    /// How many of them no job has.
    free: u32,
}

impl Model for PlainCore {
    ghost use Rattle.std.specs.Prelude.{map};
    ghost use Rattle.core_store.specs.Cores.{Cores};
    ghost use Rattle.core_store.specs.Plain.{IsPlain};

    ghost Value = { Cores };

    ghost view = { λ s. record { cores = map (λ v. v.items) s.cores.items; free = s.free } };

    ghost invariant = { λ s. IsPlain s.cores.items s.blocks s.free };
}

impl CoreStore for PlainCore {
    ghost meaning = { λ s. s };

    ghost put = { λ s job words. with_core s job (fitted (core_of s job) words) };

    fn new(alloc: Global, blocks: u32) -> Result<Self, AllocError> {
        let room = blocks as usize * BLOCK_WORDS;
        let mut cores = Vec::with_capacity(alloc, JOBS as usize + 1)?;
        for _ in 0..=JOBS {
            cores.push(Vec::with_capacity(alloc, room)?)?;
        }
        Ok(PlainCore {
            cores,
            blocks,
            free: blocks,
        })
    }

    fn free(&self) -> u32 {
        self.free
    }

    fn blocks(&self, job: u8) -> u32 {
        let words = &self.cores[job as usize];
        (words.len() / BLOCK_WORDS) as u32
    }

    fn read(&self, job: u8, a: u32) -> Option<Word> {
        let words = &self.cores[job as usize];
        words.get(a as usize).copied()
    }

    fn take(&mut self, job: u8, blocks: u32) -> Result<(), NoCore> {
        if blocks > self.free {
            return Err(NoCore);
        }
        fill(&mut self.cores[job as usize], blocks);
        self.free -= blocks;
        Ok(())
    }

    fn resize(&mut self, job: u8, blocks: u32) -> Result<(), NoCore> {
        let had = self.blocks(job);
        if blocks > self.free + had {
            return Err(NoCore);
        }
        fill(&mut self.cores[job as usize], blocks);
        self.free = self.free + had - blocks;
        Ok(())
    }

    fn give(&mut self, job: u8) {
        self.free += self.blocks(job);
        self.cores[job as usize].clear();
    }

    fn window(&mut self, job: u8) -> &mut [Word] {
        self.cores[job as usize].as_mut_slice()
    }

    ghost put_meaning = { λ s job words b l. ap (λ x. with_core s job x) (fitted-same (core_of s job) words l) };
}

/// Makes words so many blocks long: it keeps those that fit, and the others are zero.
fn fill(words: &mut Vec<Word>, blocks: u32)
    requires { blocks * BLOCK_WORDS ≤ vec_capacity words.old }
    ensures words { words.new.items ≡ resized_words words.old.items blocks }
    ensures capacity { vec_capacity words.old ≤ vec_capacity words.new }
{
    let room = blocks as usize * BLOCK_WORDS;
    if words.resize(room, Word::new(0)).is_err() {
        unreachable!();
    }
}
