//! A store with one memory for all jobs.

ghost use Rattle.core_store.specs.Layout.{IsBlockCore};
ghost use Rattle.std.specs.Prelude.{length};
ghost use Rattle.std.proofs.Props.{props};

use crate::areas::Area;
use crate::rooms::{allot, resize};
use crate::{CoreStore, NoCore};
use std::alloc::{AllocError, Global};
use word36::{BLOCK_WORDS, JOBS, Word};

/// The areas of a table: one for each job, by its number, and number 0, which is no job's.
const AREAS: usize = JOBS as usize + 1;

/// A store that keeps the words of all jobs in one vector, each job's together, from its base on.
///
/// A job that goes leaves a hole. Where no hole is large enough for what a job needs, jobs are moved
/// together within the vector.
#[derive(Drop)]
pub struct BlockCore {
    /// The words of all blocks.
    words: Vec<Word>,
    /// The area of each job, by its number.
    areas: [Area; AREAS],
    /// How many blocks there are.
    blocks: u32,
    /// How many of them no job has.
    free: u32,
    ghost laid_out: { IsBlockCore (length words.items) areas blocks free } by { Prim.hlevel props },
}

impl CoreStore for BlockCore {
    ghost use Rattle.core_store.specs.BlockMeaning.{meant, written, meant-written};

    ghost meaning = { λ s. meant s };

    ghost put = { λ s job words. written s job words };

    fn new(alloc: Global, blocks: u32) -> Result<Self, AllocError> {
        let words = vec![in alloc; Word::new(0); blocks as usize * BLOCK_WORDS]?;
        Ok(BlockCore {
            words,
            areas: [Area::NONE; AREAS],
            blocks,
            free: blocks,
        })
    }

    fn free(&self) -> u32 {
        self.free
    }

    fn blocks(&self, job: u8) -> u32 {
        self.areas[job as usize].blocks
    }

    fn read(&self, job: u8, a: u32) -> Option<Word> {
        let Area { base, blocks } = self.areas[job as usize];
        let at = a as usize;
        if at < blocks as usize * BLOCK_WORDS {
            Some(self.words[base as usize * BLOCK_WORDS + at])
        } else {
            None
        }
    }

    fn take(&mut self, job: u8, blocks: u32) -> Result<(), NoCore> {
        if blocks > self.free {
            return Err(NoCore);
        }
        allot(
            &mut self.words,
            &mut self.areas,
            self.blocks,
            job as usize,
            blocks,
        );
        self.free -= blocks;
        Ok(())
    }

    fn resize(&mut self, job: u8, blocks: u32) -> Result<(), NoCore> {
        let had = self.areas[job as usize].blocks;
        if blocks > self.free + had {
            return Err(NoCore);
        }
        resize(
            &mut self.words,
            &mut self.areas,
            self.blocks,
            job as usize,
            blocks,
        );
        self.free = self.free + had - blocks;
        Ok(())
    }

    fn give(&mut self, job: u8) {
        self.free += self.areas[job as usize].blocks;
        self.areas[job as usize] = Area::NONE;
    }

    fn window(&mut self, job: u8) -> &mut [Word] {
        let Area { base, blocks } = self.areas[job as usize];
        let from = base as usize * BLOCK_WORDS;
        let until = from + blocks as usize * BLOCK_WORDS;
        let words = &mut self.words;
        words.slice_mut(from..until)
    }

    ghost put_meaning = { meant-written };
}
