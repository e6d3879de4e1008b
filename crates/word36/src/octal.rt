//! Numbers in octal, as texts of a fixed size that take no memory.

ghost use Rattle.std.specs.Prelude.{◌≡◌, ℕ, ◌+◌, ◌<◌, ◌≤◌, ◌^◌, IsUtf8, length};
ghost use Rattle.std.specs.Str.Parse.{digits_value};
ghost use Rattle.word36.specs.Octal.{octal, octal_text};

use arrayvec::ArrayString;
use std::str;

/// The digits of the largest `u64`.
const MOST_DIGITS: usize = 22;

/// The last `N` octal digits of a number as ASCII, the highest first: `000140` of 140 octal, where
/// `N` is 6.
pub fn octal_digits<const N: usize>(number: u64) -> [u8; N]
    ensures { result ≡ octal N number }
{
    let mut digits = [b'0'; N];
    let mut rest = number;
    for position in (0..N).rev() {
        digits[position] = b'0' + (rest % 8) as u8;
        rest /= 8;
    }
    digits
}

/// Digits as a text.
fn text_of(digits: &[u8]) -> ArrayString<22>
    requires digits { IsUtf8 digits.now }
    requires fits { length digits.now ≤ 22 }
    ensures { result.bytes ≡ digits.now }
{
    let text = str::from_utf8(digits).unwrap();
    ArrayString::from(text).unwrap()
}

/// The six octal digits of a half of a word, or of an address, as the manuals print them:
/// `000140`.
#[tactic(auto, using(crate::proofs::OctalLemmas::octal_texts))]
pub fn octal_half(half: u32) -> ArrayString<6>
    requires { half < 2 ^ 18 }
    ensures text { result.bytes ≡ octal 6 half }
    ensures read_back { digits_value 8 result.bytes ≡ half }
    ensures length { length result.bytes ≡ 6 }
{
    ArrayString::from_byte_string(&octal_digits(half as u64)).unwrap()
}

/// A number in octal without leading zeros: `777`, and `0` for zero.
pub fn octal_text(number: u64) -> ArrayString<22>
    ensures text { result.bytes ≡ octal_text number }
    ensures read_back { digits_value 8 result.bytes ≡ number }
    ensures short { (k : ℕ) → 0 < k → number < 8 ^ k → length result.bytes ≤ k }
{
    let mut digits = [b'0'; MOST_DIGITS];
    let mut first = MOST_DIGITS;
    let mut rest = number;
    loop {
        first -= 1;
        digits[first] = b'0' + (rest % 8) as u8;
        rest /= 8;
        if rest == 0 {
            break;
        }
    }
    text_of(&digits[first..])
}
