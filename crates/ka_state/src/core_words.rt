//! A slice of words as the core of a job.

ghost use Rattle.std.specs.Prelude.{◌≡◌, ◌+◌, ◌≤◌, length};
ghost use Rattle.ka_state.specs.Copies.{copied};

use crate::{JobMemory, ReadMemory};
use word36::Word;

/// Copies `count` words of a slice from one position to another, one after the other: later reads see
/// what was copied before. It is not inlined, so that the processor's own loop keeps its registers.
#[inline(never)]
#[tactic(auto, using(crate::proofs::CopySteps::copy_steps))]
fn copy_within(words: &mut [Word], from: usize, to: usize, count: usize)
    requires from { from + count ≤ length words.old }
    requires to { to + count ≤ length words.old }
    ensures { words.new ≡ copied count words.old from to }
{
    for i in 0..count {
        words[to + i] = words[from + i];
    }
}

/// A lent slice of words as the core of a job.
#[derive(Drop)]
pub struct CoreWords<'a> {
    /// The words, from address 0 on.
    pub words: &'a mut [Word],
}

impl<'a> ReadMemory for CoreWords<'a> {
    ghost words = { λ s. s.words.now };

    #[inline(always)]
    fn size(&self) -> usize {
        self.words.len()
    }

    #[inline(always)]
    fn read(&self, a: u32) -> Option<Word> {
        if (a as usize) < self.words.len() {
            Some(self.words[a as usize])
        } else {
            None
        }
    }

    #[inline(always)]
    fn get(&self, a: u32) -> Word {
        self.words[a as usize]
    }
}

impl<'a> JobMemory for CoreWords<'a> {
    ghost place = { λ s. s.words.ghost_name };

    #[inline(always)]
    fn write(&mut self, a: u32, word: Word) -> bool {
        let inside = (a as usize) < self.words.len();
        if inside {
            self.words[a as usize] = word;
        }
        inside
    }

    #[inline(always)]
    fn put(&mut self, a: u32, word: Word) {
        self.words[a as usize] = word;
    }

    fn copy_words(&mut self, from: u32, to: u32, count: u32) {
        copy_within(self.words, from as usize, to as usize, count as usize);
    }
}
