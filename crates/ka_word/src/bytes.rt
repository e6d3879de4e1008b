//! Bytes of a word, and the pointers to them.

ghost use Rattle.std.specs.Prelude.{◌≡◌, ◌<◌, ◌≤◌, ◌^◌, ◌+◌, ◌%◌};
ghost use Rattle.ka_word.specs.Bytes.{byte_of, deposited, incremented, position_of, replaced, size_of};

use word36::Word;

/// The pointer to the next byte: to the right in the word, or the leftmost of the next word.
#[inline(always)]
#[tactic(auto, unfolding(crate::specs::Bytes::incremented))]
pub fn increment(pointer: Word) -> Word
    ensures { result ≡ incremented pointer }
{
    let number = pointer.number();
    let position = number >> 30;
    let size = number >> 24 & 63;
    if size <= position {
        Word::new(number - size * 0o10_000_000_000)
    } else {
        let fields = (number >> 18 & 0o7777) * 0o1_000_000;
        Word::new((36 - size.min(36)) * 0o10_000_000_000 + fields + ((number + 1) & 0o777_777))
    }
}

/// The low bits of a number.
#[inline(always)]
#[tactic(auto, using(crate::proofs::ByteBounds::low_bits_of))]
pub fn low_part(number: u64, bits: u64) -> u64
    requires { bits < 64 }
    ensures value { result ≡ number % 2 ^ bits }
    ensures below { result < 2 ^ bits }
    ensures most { result ≤ number }
{
    number & ((1 << bits) - 1)
}

/// The number of bits to the right of the byte.
#[inline(always)]
fn position(pointer: Word) -> u64
    ensures value { result ≡ position_of pointer }
    ensures below { result < 64 }
{
    pointer.number() >> 30
}

/// The number of bits of the byte.
#[inline(always)]
fn size(pointer: Word) -> u64
    ensures value { result ≡ size_of pointer }
    ensures below { result < 64 }
{
    pointer.number() >> 24 & 63
}

/// The byte of a word that a pointer names.
#[inline(always)]
#[tactic(auto, unfolding(crate::specs::Bytes::byte_of))]
pub fn load_byte(pointer: Word, word: Word) -> Word
    ensures { result ≡ byte_of pointer word }
{
    Word::low_bits(low_part(word.number() >> position(pointer), size(pointer)))
}

/// The low `count` bits of a, put in place of the bits of a word from p on.
#[inline(always)]
#[tactic(auto, using(crate::proofs::ByteBounds::deposits))]
fn replace_bits(word: Word, a: Word, p: u64, count: u64) -> Word
    requires { p + count ≤ 36 }
    ensures { result ≡ replaced p count a word }
{
    let number = word.number();
    let old = low_part(number >> p, count) << p;
    let new = low_part(a.number(), count) << p;
    Word::new(number - old + new)
}

/// A word with the byte that a pointer names replaced by the low bits of another.
#[inline(always)]
#[tactic(auto, unfolding(crate::specs::Bytes::deposited))]
pub fn deposit_byte(pointer: Word, a: Word, word: Word) -> Word
    ensures { result ≡ deposited pointer a word }
{
    let p = position(pointer);
    if p >= 36 {
        return word;
    }
    let count = size(pointer).min(36 - p);
    replace_bits(word, a, p, count)
}
