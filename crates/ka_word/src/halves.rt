//! Halves of words.

ghost use Rattle.std.specs.Prelude.{◌≡◌, ◌<◌, ◌^◌};
ghost use Rattle.ka_word.specs.Halves.{extended, halfword_of};

use word36::Word;

/// A half that is full of ones.
const ONES: u32 = 0o777_777;

/// A half full of the top bit of another.
#[inline(always)]
fn extend(half: u32) -> u32
    requires { half < 2 ^ 18 }
    ensures value { result ≡ extended half }
    ensures below { result < 2 ^ 18 }
{
    if half < 0o400_000 { 0 } else { ONES }
}

/// Half of a word, put into one half of a destination, by the
/// number of the operation, 0 HLL to 15 HLRE.
#[inline(always)]
#[tactic(auto, unfolding(crate::specs::Halves::halfword_of))]
pub fn move_half(kind: u32, word: Word, old: Word) -> Word
    requires { kind < 16 }
    ensures { result ≡ halfword_of kind word old }
{
    match kind {
        0 => Word::join(word.left(), old.right()),
        1 => Word::join(word.right(), old.right()),
        2 => Word::join(word.left(), 0),
        3 => Word::join(word.right(), 0),
        4 => Word::join(word.left(), ONES),
        5 => Word::join(word.right(), ONES),
        6 => Word::join(word.left(), extend(word.left())),
        7 => Word::join(word.right(), extend(word.right())),
        8 => Word::join(old.left(), word.right()),
        9 => Word::join(old.left(), word.left()),
        10 => Word::join(0, word.right()),
        11 => Word::join(0, word.left()),
        12 => Word::join(ONES, word.right()),
        13 => Word::join(ONES, word.left()),
        14 => Word::join(extend(word.right()), word.right()),
        _ => Word::join(extend(word.left()), word.left()),
    }
}
