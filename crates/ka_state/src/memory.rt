//! Registers and core as one memory.

ghost use Rattle.std.specs.Prelude.{IsTrue, ◌↔◌, slice_index, ◌≡◌, ◌+◌, ◌<◌, ◌≤◌, ◌^◌};
ghost use Rattle.std.specs.Prelude.{false, ℕ, List, slice_get, slice_set, nat_lt, length};
ghost use Rattle.std.specs.Borrow.{GName};
ghost use Rattle.ka_state.specs.Copies.{copied};
ghost use Rattle.ka_state.specs.Memory.{word_at, is_legal, ac_with, core_with};

use crate::Regs;
use word36::Word;

/// The core of a job as it is read, seen as a list of words.
pub trait ReadMemory {
    /// The words, from address 0 on.
    ghost words: { Self → List ℕ };

    /// The number of words.
    fn size(&self) -> usize
        ensures { result ≡ length (words self.now) };

    /// The word at an address of core. None from the size on.
    fn read(&self, a: u32) -> Option<Word>
        ensures { result ≡ slice_get (words self.now) a };

    /// The word at an address of core below the size.
    #[inline(always)]
    fn get(&self, a: u32) -> Word
        requires { a < length (words self.now) }
        ensures { result ≡ slice_index (words self.now) a }
    {
        match self.read(a) {
            Some(word) => word,
            None => unreachable!(),
        }
    }
}

/// The core of a job.
pub trait JobMemory: ReadMemory {
    /// Which loan the words come from, where they are lent: it stays the same, so that the lender
    /// gets back what was written. A memory that owns its words says 0.
    ghost place: { Self → GName };

    /// Stores a word at an address of core. From the size on it stores nothing and answers false.
    fn write(&mut self, a: u32, word: Word) -> bool
        ensures stored { Self.words self.new ≡ slice_set (Self.words self.old) a word }
        ensures answer { result ≡ nat_lt a (length (Self.words self.old)) }
        ensures place { place self.new ≡ place self.old };

    /// Stores a word at an address of core below the size.
    #[inline(always)]
    fn put(&mut self, a: u32, word: Word)
        requires { a < length (Self.words self.old) }
        ensures stored { Self.words self.new ≡ slice_set (Self.words self.old) a word }
        ensures place { place self.new ≡ place self.old }
    {
        self.write(a, word);
    }

    /// Copies `count` words of core from one address to another, one after the other: later reads see
    /// what was copied before.
    #[tactic(auto, using(crate::proofs::CopySteps::copy_steps))]
    fn copy_words(&mut self, from: u32, to: u32, count: u32)
        requires few { count < 2 ^ 20 }
        requires from { from + count ≤ length (Self.words self.old) }
        requires to { to + count ≤ length (Self.words self.old) }
        requires addresses { (from < 2 ^ 18) × (to < 2 ^ 18) }
        ensures copied { Self.words self.new ≡ copied count (Self.words self.old) from to }
        ensures place { place self.new ≡ place self.old }
    {
        for i in 0..count {
            if let Some(word) = self.read(from + i) {
                self.write(to + i, word);
            }
        }
    }
}

/// Whether an address lies in core, behind the registers. One comparison says it: below 16 the subtraction
/// wraps to a number that is larger than any size of core.
#[inline(always)]
pub fn is_in_core<M: ReadMemory>(memory: &M, a: u32) -> bool
    ensures { IsTrue result ↔ ((16 ≤ a) × (a < length (M.words memory.now))) }
{
    (a as usize).wrapping_sub(16) < memory.size().saturating_sub(16)
}

/// The word at an address, if it is legal: registers lie at the addresses below 20 octal. A register's word is
/// masked, so that the compiler does not read both by one instruction from an address that it has to choose.
#[inline(always)]
pub fn fetch<M: ReadMemory>(regs: &Regs, memory: &M, a: u32) -> Option<Word>
    ensures { result ≡ word_at regs.now.ac (M.words memory.now) a }
{
    if is_in_core(memory, a) {
        Some(memory.get(a))
    } else if a < 16 {
        Some(Word::low_bits(regs.ac[a as usize].number()))
    } else {
        None
    }
}

/// The word of a register, and 0 for an address from 20 octal on. It is not inlined, so that its code stands
/// out of the way.
#[cold]
#[inline(never)]
fn read_register(ac: &[Word; 16], a: u32) -> Word
    ensures { a < 16 → result ≡ slice_index ac.now a }
{
    if a < 16 { ac[a as usize] } else { Word::new(0) }
}

/// As `fetch`, for an address that is seldom that of a register.
#[inline(always)]
pub fn fetch_code<M: ReadMemory>(regs: &Regs, memory: &M, a: u32) -> Option<Word>
    ensures { result ≡ word_at regs.now.ac (M.words memory.now) a }
{
    if is_in_core(memory, a) {
        Some(memory.get(a))
    } else {
        let word = read_register(&regs.ac, a);
        if a < 16 { Some(word) } else { None }
    }
}

/// Stores a word at an address. At one that is not legal nothing changes.
#[inline(always)]
pub fn store<M: JobMemory>(regs: &mut Regs, memory: &mut M, a: u32, word: Word)
    ensures regs { regs.new ≡ record regs.old { ac = ac_with regs.old.ac a word } }
    ensures core { M.words memory.new ≡ core_with (M.words memory.old) a word }
    ensures place { M.place memory.new ≡ M.place memory.old }
{
    if is_in_core(memory, a) {
        memory.put(a, word);
    } else if a < 16 {
        regs.ac[a as usize] = word;
    }
}

/// Stores a word at an address. At one that is not legal nothing changes, and the answer is false.
#[inline(always)]
pub fn try_store<M: JobMemory>(regs: &mut Regs, memory: &mut M, a: u32, word: Word) -> bool
    ensures regs { regs.new ≡ record regs.old { ac = ac_with regs.old.ac a word } }
    ensures core { M.words memory.new ≡ core_with (M.words memory.old) a word }
    ensures answer { result ≡ is_legal (M.words memory.old) a }
    ensures kept { result ≡ false → (regs.new ≡ regs.old) × (M.words memory.new ≡ M.words memory.old) }
    ensures place { M.place memory.new ≡ M.place memory.old }
{
    if is_in_core(memory, a) {
        memory.put(a, word);
        true
    } else if a < 16 {
        regs.ac[a as usize] = word;
        true
    } else {
        false
    }
}
