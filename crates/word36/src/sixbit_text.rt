//! SIXBIT, the character code of names: six characters in a word.

ghost use Rattle.std.specs.Prelude.{◌≡◌, ◌<◌, ◌≤◌, IsTrue, length, slice_index};
ghost use Rattle.std.specs.List.{list_all};
ghost use Rattle.word36.specs.Sixbit.{sixbit_word, six_codes, is_sixbit};

use crate::Word;

/// The characters of a full word.
const MOST_CHARACTERS: usize = 6;

fn is_sixbit(character: u8) -> bool
    ensures { result ≡ is_sixbit character }
{
    (0o40..=0o137).contains(&character)
}

fn are_sixbit(text: &[u8]) -> bool
    ensures { result ≡ list_all is_sixbit text.now }
{
    text.iter().all(|character| is_sixbit(*character))
}

/// The code at a position of a full word: spaces follow a shorter text.
#[tactic(auto, using(crate::proofs::SixbitLemmas::sixbit_codes))]
fn code_at(text: &[u8], position: usize) -> u8
    requires codes { IsTrue (list_all is_sixbit text.now) }
    requires fits { length text.now ≤ 6 }
    requires position { position < 6 }
    ensures value { result ≡ slice_index (six_codes text.now) position }
    ensures below { result < 64 }
{
    if position < text.len() {
        text[position] - 0o40
    } else {
        0
    }
}

/// The word of a name of at most six characters, each of space to underline (40 to 137 octal): each
/// gives the six bits of its code less 40 octal, from the left, and a shorter name is filled up with
/// spaces. None for any other text (MACRO-10 Assembler Manual, SIXBIT).
pub fn sixbit(text: &[u8]) -> Option<Word>
    ensures { result ≡ sixbit_word text.now }
{
    if text.len() > MOST_CHARACTERS || !are_sixbit(text) {
        return None;
    }
    let mut number = 0;
    for position in 0..MOST_CHARACTERS {
        number = number * 64 + code_at(text, position) as u64;
    }
    Some(Word::new(number))
}
