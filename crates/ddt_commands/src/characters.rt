//! The characters that a word holds.
ghost use Rattle.std.specs.Prelude.{◌≡◌, ◌%◌, ◌+◌};
ghost use Rattle.ddt_commands.specs.Characters.{ascii_codes, shown_character, sixbit_codes};

use std::fmt;
use word36::Word;

/// The ASCII code in the lowest seven bits; a point for a character that does not print.
fn ascii_code(bits: u64) -> u8
    ensures { result ≡ shown_character (bits % 128) }
{
    let code = (bits % 128) as u8;
    if code == b' ' || code.is_ascii_graphic() {
        code
    } else {
        b'.'
    }
}

/// The five ASCII characters of a word; a point for each that does not print.
pub fn ascii_codes(word: Word) -> [u8; 5]
    ensures { result ≡ ascii_codes word }
{
    let bits = word.number();
    [
        ascii_code(bits / (1 << 29)),
        ascii_code(bits / (1 << 22)),
        ascii_code(bits / (1 << 15)),
        ascii_code(bits / (1 << 8)),
        ascii_code(bits / 2),
    ]
}

/// The ASCII code of the SIXBIT character in the lowest six bits.
fn sixbit_code(bits: u64) -> u8
    ensures { result ≡ bits % 64 + 32 }
{
    (bits % 64) as u8 + b' '
}

/// The six SIXBIT characters of a word, as ASCII codes.
pub fn sixbit_codes(word: Word) -> [u8; 6]
    ensures { result ≡ sixbit_codes word }
{
    let bits = word.number();
    [
        sixbit_code(bits / (1 << 30)),
        sixbit_code(bits / (1 << 24)),
        sixbit_code(bits / (1 << 18)),
        sixbit_code(bits / (1 << 12)),
        sixbit_code(bits / (1 << 6)),
        sixbit_code(bits),
    ]
}

/// Characters that are written one after the other.
#[derive(Clone, Copy)]
pub struct Codes<'a> {
    /// The ASCII code of each.
    pub codes: &'a [u8],
}

impl fmt::Display for Codes<'_> {
    ghost use Rattle.std.specs.Char.{encode_utf8};
    ghost use Rattle.std.specs.List.{flat_map};
    ghost use Rattle.std.specs.Prelude.{Some};

    ghost output = { λ c. Some (flat_map encode_utf8 c.codes.now) };

    fn fmt<W: fmt::Write>(&self, f: &mut fmt::Formatter<W>) -> fmt::Result {
        for code in self.codes {
            f.write_char(char::from(*code))?;
        }
        Ok(())
    }
}
