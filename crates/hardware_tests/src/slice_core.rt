//! A job with one block of core.

ghost use Rattle.std.specs.Prelude.{◌≡◌};

use ka_state::{JobMemory, ReadMemory};
use word36::Word;

/// A lent slice as the core of a job.
#[derive(Drop)]
pub struct SliceCore<'a> {
    words: &'a mut [Word],
}

impl<'a> SliceCore<'a> {
    /// Lends the words to a job.
    pub fn new(words: &'a mut [Word]) -> SliceCore<'a>
        ensures { result.words.now ≡ words.entry.now }
    {
        SliceCore { words }
    }
}

impl<'a> ReadMemory for SliceCore<'a> {
    ghost words = { λ s. s.words.now };

    fn size(&self) -> usize {
        self.words.len()
    }

    fn read(&self, a: u32) -> Option<Word> {
        self.words.get(a as usize).copied()
    }
}

impl<'a> JobMemory for SliceCore<'a> {
    ghost place = { λ s. s.words.ghost_name };

    fn write(&mut self, a: u32, word: Word) -> bool {
        let inside = (a as usize) < self.words.len();
        if inside {
            self.words[a as usize] = word;
        }
        inside
    }
}

#[cfg(test)]
pub use job::{USER, fresh, look, put};

#[cfg(test)]
mod job {
    use ka_state::{Flags, Regs};
    use word36::{Address, Word};

    /// The left half of a PC word with the flag User alone.
    pub const USER: u32 = 0o010_000;

    /// The flags in the left half of a PC word.
    fn flags_of(half: u32) -> Flags {
        Flags {
            overflow: half & 0o400_000 != 0,
            carry0: half & 0o200_000 != 0,
            carry1: half & 0o100_000 != 0,
            no_divide: half & 0o40 != 0,
        }
    }

    /// Registers that hold zero, with PC 140 octal and these flags.
    pub fn fresh(flags: u32) -> Regs {
        Regs {
            ac: [Word::new(0); 16],
            pc: Address::new(0o140),
            flags: flags_of(flags),
        }
    }

    /// Puts a word at an address.
    pub fn put(regs: &mut Regs, core: &mut [Word], address: usize, number: u64) {
        if address < 16 {
            regs.ac[address] = Word::low_bits(number);
        } else if address < core.len() {
            core[address] = Word::low_bits(number);
        }
    }

    /// The number at an address.
    pub fn look(regs: &Regs, core: &[Word], address: usize) -> u64 {
        if address < 16 {
            regs.ac[address].number()
        } else if address < core.len() {
            core[address].number()
        } else {
            0
        }
    }
}
