//! Words that are put together.

ghost use Rattle.std.specs.Prelude.{◌≡◌, ◌*◌, ◌^◌, ◌<◌};
ghost use Rattle.macro_values.specs.Values.{halves_sum};
ghost use Rattle.macro_expressions.specs.Reading.{Gives};
ghost use Rattle.macro_statements.specs.Words.{as_half, halves_of, index_of, with_indirect};

use macro_expressions::{Fault, WRONG};
use macro_values::{Whole, add_halves};
use std::alloc::Global;
use word36::Word;

/// The bit of `@`.
const INDIRECT: u64 = 1 << 22;

/// A word with `@` joined in, if it is there.
pub fn with_indirect(indirect: bool, word: Word) -> Word
    ensures { result ≡ with_indirect indirect word }
{
    if indirect {
        word.or(Word::new(INDIRECT))
    } else {
        word
    }
}

/// The word of an instruction: the fields that are written, added to the operation's word half by half.
pub fn instruction_word(own: Word, indirect: bool, fields: Word) -> Word
    ensures { result ≡ with_indirect indirect (halves_sum own fields) }
{
    with_indirect(indirect, add_halves(own, fields))
}

/// The field of an accumulator, as a word.
pub fn accumulator_field(accumulator: u32) -> Word
    requires { accumulator < 2 ^ 4 }
    ensures { result ≡ accumulator * 2 ^ 23 }
{
    Word::new(u64::from(accumulator) * 0o40_000_000)
}

/// A half, and an index that is added to it.
pub fn indexed(half: u32, index: Word) -> Word
    requires { half < 2 ^ 18 }
    ensures { result ≡ halves_sum half index }
{
    add_halves(Word::new(u64::from(half)), index)
}

/// The half of a word, or the address, of a number, if it has one.
pub fn as_half(alloc: Global, number: &Whole) -> Result<u32, Fault>
    ensures { Gives (λ half. half) result (as_half number.now) }
{
    match number.half(alloc)? {
        Some(half) => Ok(half),
        None => Err(WRONG),
    }
}

/// Two halves.
pub fn halves(alloc: Global, left: &Whole, right: &Whole) -> Result<Word, Fault>
    ensures { Gives (λ w. w) result (halves_of left.now right.now) }
{
    let l = as_half(alloc, left)?;
    let r = as_half(alloc, right)?;
    Ok(Word::join(l, r))
}

/// The word of an index, whose halves are swapped. Its right half has to be a register.
pub fn index_of(word: Word) -> Result<Word, Fault>
    ensures { Gives (λ w. w) result (index_of word) }
{
    if word.right() <= 15 {
        Ok(word.swapped())
    } else {
        Err(WRONG)
    }
}
