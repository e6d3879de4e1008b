//! Numbers, words and characters as text.
ghost use Rattle.std.specs.Prelude.{◌≡◌, ◌++◌, decimal, OnOk};
ghost use Rattle.word36.specs.Octal.{octal, word_text};
ghost use Rattle.script_io.specs.Printing.{escaped};

use itoa::{Buffer, Integer};
use std::alloc::AllocError;
use word36::Word;

/// Adds a number in decimal.
pub fn push_decimal<I: Integer>(out: &mut Vec<u8>, number: I) -> Result<(), AllocError>
    ensures { OnOk result (out.new.items ≡ out.old.items ++ I.text number) }
{
    let mut buffer = Buffer::new();
    out.extend_from_slice(buffer.format(number).as_bytes())?;
    Ok(())
}

/// The two octal digits of each number below 64.
static PAIRS: [u8; 128] = [
    b'0', b'0', b'0', b'1', b'0', b'2', b'0', b'3', b'0', b'4', b'0', b'5', b'0', b'6', b'0', b'7',
    b'1', b'0', b'1', b'1', b'1', b'2', b'1', b'3', b'1', b'4', b'1', b'5', b'1', b'6', b'1', b'7',
    b'2', b'0', b'2', b'1', b'2', b'2', b'2', b'3', b'2', b'4', b'2', b'5', b'2', b'6', b'2', b'7',
    b'3', b'0', b'3', b'1', b'3', b'2', b'3', b'3', b'3', b'4', b'3', b'5', b'3', b'6', b'3', b'7',
    b'4', b'0', b'4', b'1', b'4', b'2', b'4', b'3', b'4', b'4', b'4', b'5', b'4', b'6', b'4', b'7',
    b'5', b'0', b'5', b'1', b'5', b'2', b'5', b'3', b'5', b'4', b'5', b'5', b'5', b'6', b'5', b'7',
    b'6', b'0', b'6', b'1', b'6', b'2', b'6', b'3', b'6', b'4', b'6', b'5', b'6', b'6', b'6', b'7',
    b'7', b'0', b'7', b'1', b'7', b'2', b'7', b'3', b'7', b'4', b'7', b'5', b'7', b'6', b'7', b'7',
];

/// The six octal digits of a half of a word, or of an address: two at a time, from a table.
#[inline(always)]
#[tactic(auto, using(crate::proofs::OctalLemmas::pairs_are))]
pub fn half_digits(half: u32) -> [u8; 6]
    ensures { result ≡ octal 6 half }
{
    let first = 2 * (half / 4096 % 64) as usize;
    let middle = 2 * (half / 64 % 64) as usize;
    let last = 2 * (half % 64) as usize;
    [
        PAIRS[first],
        PAIRS[first + 1],
        PAIRS[middle],
        PAIRS[middle + 1],
        PAIRS[last],
        PAIRS[last + 1],
    ]
}

/// Adds a word in octal, its two halves.
pub fn push_word(out: &mut Vec<u8>, word: Word) -> Result<(), AllocError>
    ensures { OnOk result (out.new.items ≡ out.old.items ++ word_text word) }
{
    out.extend_from_slice(&half_digits(word.left()))?;
    out.extend_from_slice(b",,")?;
    out.extend_from_slice(&half_digits(word.right()))?;
    Ok(())
}

/// Adds a character as a backslash and three octal digits.
pub fn push_escaped(out: &mut Vec<u8>, character: u8) -> Result<(), AllocError>
    ensures { OnOk result (out.new.items ≡ out.old.items ++ escaped character) }
{
    let digits = [
        b'\\',
        b'0' + character / 64,
        b'0' + character / 8 % 8,
        b'0' + character % 8,
    ];
    out.extend_from_slice(&digits)?;
    Ok(())
}
