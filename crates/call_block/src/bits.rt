//! Bits of a word.
ghost use Rattle.std.specs.Prelude.{◌≡◌, ◌+◌, ◌-◌, ◌^◌, ◌<◌, ◌≤◌};
ghost use Rattle.call_block.specs.Bits.{bits};

use word36::Word;

/// The number in bits `first` to `last` of a word. Bit 0 is the leftmost, bit 35 the rightmost.
pub fn bits(word: Word, first: u32, last: u32) -> u64
    requires order { first ≤ last }
    requires within { last ≤ 35 }
    ensures value { result ≡ bits first last word }
    ensures below { result < 2 ^ (last + 1 - first) }
{
    word.number() >> (35 - last) & ((1 << (last + 1 - first)) - 1)
}
