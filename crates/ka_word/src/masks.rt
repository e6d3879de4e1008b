//! The masks of the tests.

ghost use Rattle.std.specs.Prelude.{◌≡◌};
ghost use Rattle.ka_word.specs.Tests.{mask_of, skips_on};

use word36::Word;

/// The mask of a test by a word of memory: the word, or its halves exchanged in an odd operation.
#[inline(always)]
pub fn turn_mask(op: u32, word: Word) -> Word
    ensures { result ≡ mask_of op word }
{
    if op % 2 == 0 { word } else { word.swapped() }
}

/// Whether a test skips; `none_set` says that none of the masked bits is set.
#[inline(always)]
pub fn skips(op: u32, none_set: bool) -> bool
    ensures { result ≡ skips_on op none_set }
{
    let chosen = op / 2 % 2 == 1 && none_set;
    chosen != (op / 4 % 2 == 1)
}
