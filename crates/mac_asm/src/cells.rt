//! The words of a program in the cells of a memory.

ghost use Rattle.std.specs.Prelude.{◌≡◌, ◌<◌, ◌≤◌, ◌^◌, IfOk, OnOk, Some, length, replicate, set};
ghost use Rattle.mac_asm.specs.Filled.{empty_cells, put_from, words_in_cells};

use mac_layout::{MEMORY_SIZE, clamped};
use std::alloc::{AllocError, Global};
use std::marker::Model;
use whole_numbers::Natural;
use word36::Word;

/// The cells of a memory of 1000000 octal addresses: the word of each, if it has one.
#[derive(Drop)]
pub struct Cells {
    /// The first cells; none behind them has a word.
    first: Vec<Option<Word>>,
}

impl Model for Cells {
    ghost use Rattle.std.specs.Prelude.{◌≤◌, ◌^◌, ℕ, List, Option, length};
    ghost use Rattle.mac_asm.specs.Filled.{all_cells};

    ghost Value = { List (Option ℕ) };

    ghost view = { λ c. all_cells c.first.items };

    ghost invariant = { λ c. length c.first.items ≤ 2 ^ 18 };
}

impl Cells {
    /// Empty cells; memory for the first `cells` is reserved.
    #[tactic(auto, using(crate::proofs::CellLemmas::all_none))]
    pub fn with_room(alloc: Global, cells: usize) -> Result<Cells, AllocError>
        ensures { IfOk result (λ cells. cells ≡ empty_cells (2 ^ 18)) }
    {
        Ok(Cells {
            first: Vec::with_capacity(alloc, cells.min(MEMORY_SIZE))?,
        })
    }

    /// How many cells there are.
    #[tactic(auto, using(crate::proofs::CellLemmas::all_length))]
    #[inline(always)]
    fn len(&self) -> usize
        ensures cells { result ≡ length self.now }
        ensures addresses { result ≡ 2 ^ 18 }
    {
        prove!(self.first.len() <= MEMORY_SIZE);
        MEMORY_SIZE
    }

    /// Puts a word in cell `at`.
    #[tactic(auto, using(crate::proofs::CellLemmas::set_behind))]
    #[inline(always)]
    fn set(&mut self, at: usize, word: Word) -> Result<(), AllocError>
        requires { at < 2 ^ 18 }
        ensures { OnOk result (self.new ≡ set self.old at (Some word)) }
    {
        if at < self.first.len() {
            self.first[at] = Some(word);
            return Ok(());
        }
        self.first.resize(at, None)?;
        self.first.push(Some(word))?;
        Ok(())
    }

    /// Puts a word at an address; a word without a cell is dropped.
    #[inline(always)]
    pub fn put_one(&mut self, address: &Natural, word: Word) -> Result<(), AllocError>
        ensures { OnOk result (self.new ≡ set self.old address.now (Some word)) }
    {
        let at = clamped(address, self.len());
        if at < self.len() {
            self.set(at, word)?;
        }
        Ok(())
    }

    /// Puts words from an address on; words without a cell are dropped.
    pub fn put(&mut self, address: &Natural, words: &[Word]) -> Result<(), AllocError>
        ensures { OnOk result (self.new ≡ put_from self.old address.now words.now) }
    {
        let len = self.len();
        let mut at = clamped(address, len);
        for word in words {
            if at == len {
                return Ok(());
            }
            self.set(at, *word)?;
            at += 1;
        }
        Ok(())
    }

    /// Puts `count` words of 0 from an address on; words without a cell are dropped.
    pub fn put_zeros(&mut self, address: &Natural, count: &Natural) -> Result<(), AllocError>
        ensures { OnOk result (self.new ≡ put_from self.old address.now (replicate count.now 0)) }
    {
        let len = self.len();
        let first = clamped(address, len);
        let end = first + clamped(count, len - first);
        for at in first..end {
            self.set(at, Word::new(0))?;
        }
        Ok(())
    }

    /// The words of the cells that have one, with their addresses.
    pub fn words(&self, alloc: Global) -> Result<Vec<(u32, Word)>, AllocError>
        ensures { IfOk result (λ words. words.items ≡ words_in_cells 0 self.now) }
    {
        words_in_cells(alloc, self.first.as_slice())
    }
}

/// The words of cells that have one, counted from the first.
fn words_in_cells(alloc: Global, cells: &[Option<Word>]) -> Result<Vec<(u32, Word)>, AllocError>
    requires { length cells.now ≤ 2 ^ 18 }
    ensures { IfOk result (λ words. words.items ≡ words_in_cells 0 cells.now) }
{
    let mut words = Vec::new(alloc);
    for (address, cell) in cells.iter().enumerate() {
        if let Some(word) = cell {
            words.push((address as u32, *word))?;
        }
    }
    Ok(words)
}
