//! What a comment says of a word.
ghost use Rattle.std.specs.Prelude.{◌≡◌, ◌++◌, OnOk};
ghost use Rattle.std.specs.List.{list_all};
ghost use Rattle.word36.specs.Octal.{word_text};
ghost use Rattle.mac_source.specs.Notes.{ascii_text, characters_text, is_printing, note_of, numbers_text, quoted_if, sixbit_text};

use std::alloc::AllocError;
use word36::{Word, octal_digits};

/// The six characters of a word in SIXBIT.
fn sixbit_text(word: Word) -> [u8; 6]
    ensures { result ≡ sixbit_text word }
{
    let number = word.number();
    [
        32 + (number >> 30 & 63) as u8,
        32 + (number >> 24 & 63) as u8,
        32 + (number >> 18 & 63) as u8,
        32 + (number >> 12 & 63) as u8,
        32 + (number >> 6 & 63) as u8,
        32 + (number & 63) as u8,
    ]
}

/// The five characters of 7 bits of a word.
pub fn ascii_text(word: Word) -> [u8; 5]
    ensures { result ≡ ascii_text word }
{
    let number = word.number();
    [
        (number >> 29 & 127) as u8,
        (number >> 22 & 127) as u8,
        (number >> 15 & 127) as u8,
        (number >> 8 & 127) as u8,
        (number >> 1 & 127) as u8,
    ]
}

/// Whether a character prints, from space to `~`.
fn is_printing(character: u8) -> bool
    ensures { result ≡ is_printing character }
{
    (32..=126).contains(&character)
}

/// Whether all characters print.
fn are_printing(text: &[u8]) -> bool
    ensures { result ≡ list_all is_printing text.now }
{
    text.iter().all(|character| is_printing(*character))
}

/// Adds a text in quotes, where that is wanted.
#[tactic(auto, using(std::proofs::Common::append_assoc))]
fn push_quoted(out: &mut Vec<u8>, wanted: bool, text: &[u8]) -> Result<(), AllocError>
    ensures { OnOk result (out.new.items ≡ out.old.items ++ quoted_if wanted text.now) }
{
    if wanted {
        out.extend_from_slice(b" \"")?;
        out.extend_from_slice(text)?;
        out.push(b'"')?;
    }
    Ok(())
}

/// Adds a word in octal, its two halves.
#[tactic(auto, using(std::proofs::Common::append_assoc))]
fn push_word(out: &mut Vec<u8>, word: Word) -> Result<(), AllocError>
    ensures { OnOk result (out.new.items ≡ out.old.items ++ word_text word) }
{
    out.extend_from_slice(&octal_digits::<6>(u64::from(word.left())))?;
    out.extend_from_slice(b",,")?;
    out.extend_from_slice(&octal_digits::<6>(u64::from(word.right())))?;
    Ok(())
}

/// Adds the address of a word, and the word in octal.
#[tactic(auto, using(std::proofs::Common::append_assoc))]
fn push_numbers(out: &mut Vec<u8>, address: u32, word: Word) -> Result<(), AllocError>
    ensures { OnOk result (out.new.items ≡ out.old.items ++ numbers_text (address, word)) }
{
    out.push(b' ')?;
    out.extend_from_slice(&octal_digits::<6>(u64::from(address)))?;
    out.push(b' ')?;
    push_word(out, word)
}

/// Adds the SIXBIT of a word, and its ASCII where all of it prints.
#[tactic(auto, using(std::proofs::Common::append_assoc))]
fn push_characters(out: &mut Vec<u8>, word: Word) -> Result<(), AllocError>
    ensures { OnOk result (out.new.items ≡ out.old.items ++ characters_text word) }
{
    let ascii = ascii_text(word);
    out.extend_from_slice(b" '")?;
    out.extend_from_slice(&sixbit_text(word))?;
    out.push(b'\'')?;
    push_quoted(out, are_printing(&ascii), &ascii)
}

/// Adds what a comment says of a word.
#[tactic(auto, using(std::proofs::Common::append_assoc))]
pub fn push_note(out: &mut Vec<u8>, address: u32, word: Word) -> Result<(), AllocError>
    ensures { OnOk result (out.new.items ≡ out.old.items ++ note_of (address, word)) }
{
    push_numbers(out, address, word)?;
    push_characters(out, word)
}
