//! Texts packed into words.

ghost use Rattle.std.specs.Prelude.{◌≡◌, ◌<◌, ◌%◌, ◌^◌, slice_index};
ghost use Rattle.mac_asm.specs.Packing.{ascii_word, sixbit_word};

use mac_text::folded;
use word36::{Word, sixbit};

/// Character `at` of a text, 0 where there is none.
fn character(text: &[u8], at: usize) -> u64
    ensures value { result ≡ slice_index text.now at % 128 }
    ensures below { result < 128 }
{
    if at < text.len() {
        u64::from(text[at]) % 128
    } else {
        0
    }
}

/// Five characters of seven bits from the left; the last bit is 0.
#[tactic(auto, unfolding(crate::specs::Packing::ascii_word))]
pub fn ascii_word(text: &[u8], from: usize) -> Word
    requires { from < 2 ^ 63 }
    ensures { result ≡ ascii_word text.now from }
{
    Word::new(
        character(text, from) * (1 << 29)
            + character(text, from + 1) * (1 << 22)
            + character(text, from + 2) * (1 << 15)
            + character(text, from + 3) * (1 << 8)
            + character(text, from + 4) * (1 << 1),
    )
}

/// Six characters of six bits, where each has a code; letters are folded to upper case, and spaces stand behind the last.
#[tactic(auto, unfolding(crate::specs::Packing::sixbit_word))]
pub fn sixbit_word(text: &[u8], from: usize) -> Option<Word>
    ensures { result ≡ sixbit_word text.now from }
{
    let rest = &text[from.min(text.len())..];
    sixbit(folded(rest).as_slice())
}
