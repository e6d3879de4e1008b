//! The name of a lock in a block.
ghost use Rattle.std.specs.Prelude.{◌≡◌, ◌<◌, nat_le};
ghost use Rattle.word36.specs.Words.{right_half};
ghost use Rattle.ka_word.specs.Bytes.{byte_of, incremented, position_of, size_of};
ghost use Rattle.ka_state.specs.Memory.{word_at};
ghost use Rattle.call_block.specs.Names.{characters, AreLegalCharacters, text_at, name_at};

use crate::bits::bits;
use ka_state::{ReadMemory, Regs, fetch};
use lock_queue::{Name, NameCharacters, NameText, Refusal, UserCode};
use word36::{NAME_LENGTH, Word};

/// How many characters of a name are read at most: one more than it may have, to find a name that is too
/// long.
const NAME_ROOM: usize = NAME_LENGTH + 1;

/// The bits of a character.
const CHARACTER_BITS: u64 = 7;

/// What is subtracted from a pointer to reach the next character of the same word.
const CHARACTER_STEP: u64 = CHARACTER_BITS << 30;

/// Whether the next character is in the same word.
fn is_next_here(pointer: Word) -> bool
    ensures { result ≡ nat_le 7 (position_of pointer) }
{
    CHARACTER_BITS <= pointer.number() >> 30
}

/// The pointer to the next character, as ILDB increments it.
#[tactic(auto, using(crate::proofs::PointerLemmas::size_of_next, crate::proofs::PointerLemmas::incremented_here))]
fn increment(pointer: Word) -> Word
    requires { size_of pointer ≡ 7 }
    ensures value { result ≡ incremented pointer }
    ensures size { size_of result ≡ 7 }
{
    if is_next_here(pointer) {
        Word::new(pointer.number() - CHARACTER_STEP)
    } else {
        ka_word::increment(pointer)
    }
}

/// The word of the next character, given the word of this one; `None` where its address is not legal.
fn next_word<M: ReadMemory>(
    regs: &Regs,
    memory: &M,
    pointer: Word,
    word: Option<Word>,
) -> Option<Word>
    requires size { size_of pointer ≡ 7 }
    requires word { word ≡ word_at regs.now.ac (M.words memory.now) (right_half pointer) }
    ensures { result ≡ word_at regs.now.ac (M.words memory.now) (right_half (incremented pointer)) }
{
    if is_next_here(pointer) {
        word
    } else {
        fetch(regs, memory, increment(pointer).right())
    }
}

/// The character of a word at the pointer's position.
#[tactic(auto, using(crate::proofs::PointerLemmas::byte_masked, crate::proofs::PointerLemmas::byte_below))]
fn character_of(pointer: Word, word: Word) -> u8
    requires { size_of pointer ≡ 7 }
    ensures value { result ≡ byte_of pointer word }
    ensures ascii { result < 128 }
{
    (word.number() >> (pointer.number() >> 30) & 0o177) as u8
}

/// The characters after a pointer, up to the first zero, and at most one more than a name may have. `None`
/// where the address of one of them is not legal.
#[inline(always)]
fn read_characters<M: ReadMemory>(regs: &Regs, memory: &M, pointer: Word) -> Option<NameCharacters>
    requires { size_of pointer ≡ 7 }
    ensures { AreLegalCharacters result (characters regs.now.ac (M.words memory.now) pointer NAME_ROOM) }
{
    let mut pointer = pointer;
    let mut word = fetch(regs, memory, pointer.right());
    let mut text = NameCharacters::new();
    for _count in 0..NAME_ROOM {
        word = next_word(regs, memory, pointer, word);
        pointer = increment(pointer);
        let character = character_of(pointer, word?);
        if character == 0 {
            return Some(text);
        }
        text.push(character);
    }
    Some(text)
}

/// The text after a pointer, or its refusal.
#[inline(always)]
fn read_text<M: ReadMemory>(regs: &Regs, memory: &M, pointer: Word) -> Result<NameText, Refusal>
    requires { size_of pointer ≡ 7 }
    ensures { result ≡ text_at regs.now.ac (M.words memory.now) pointer }
{
    let Some(text) = read_characters(regs, memory, pointer) else {
        return Err(Refusal::BadPointer);
    };
    text.name().ok_or(Refusal::BadName)
}

/// The name that a word of a block gives: a user code, or the text at a pointer; or its refusal.
#[inline(always)]
pub fn read_name<M: ReadMemory>(regs: &Regs, memory: &M, word: Word) -> Result<Name, Refusal>
    ensures { result ≡ name_at regs.now.ac (M.words memory.now) word }
{
    if bits(word, 0, 2) == 5 {
        return Ok(Name::Code(UserCode::new(bits(word, 3, 35))));
    }
    let size = bits(word, 6, 11);
    let position = word.number() >> 30;
    let indirect_and_index = bits(word, 13, 17);
    if size != CHARACTER_BITS || position > 36 || indirect_and_index != 0 {
        return Err(Refusal::BadPointer);
    }
    let text = read_text(regs, memory, word)?;
    Ok(Name::Text(text))
}
