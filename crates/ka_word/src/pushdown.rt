//! Words that count in both halves: pushdown pointers.

ghost use Rattle.std.specs.Prelude.{◌≡◌};
ghost use Rattle.ka_word.specs.Pushdown.{counted_down, counted_up, runs_over, runs_under};

use word36::Word;

/// 1000001 octal, which counts both halves of a word.
const BOTH: u64 = 0o1_000_001;

/// A word with both halves counted up.
#[inline(always)]
pub fn count_up(word: Word) -> Word
    ensures { result ≡ counted_up word }
{
    word.sum(Word::new(BOTH), false)
}

/// Whether counting a pushdown pointer down borrows out of bit 0.
#[inline(always)]
pub fn runs_under(pointer: Word) -> bool
    ensures { result ≡ runs_under pointer }
{
    pointer.number() < BOTH
}

/// A pushdown pointer counted up, and whether that carries out of bit 0.
#[inline(always)]
pub fn push_down(pointer: Word) -> (Word, bool)
    ensures word { result.0 ≡ counted_up pointer }
    ensures runs_out { result.1 ≡ runs_over pointer }
{
    let word = count_up(pointer);
    (word, word.number() < BOTH)
}

/// A pushdown pointer counted down.
#[inline(always)]
pub fn pop_up(pointer: Word) -> Word
    ensures { result ≡ counted_down pointer }
{
    pointer.sum(Word::new(0o777_776_777_777), false)
}
