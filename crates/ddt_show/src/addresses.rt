//! Addresses, and the words there.

ghost use Rattle.std.specs.Prelude.{◌≡◌, ◌+◌, ◌%◌, ◌^◌, ◌<◌, IfOk, IfSome, string_bytes};
ghost use Rattle.ddt_show.specs.Words.{address_words, shown_word};
ghost use Rattle.run_notes.specs.Instructions.{reference_words};

use crate::word_text::WordText;
use ddt_commands::OutputMode;
use run_notes::Reference;
use source_labels::Places;
use std::alloc::{AllocError, Global};
use word36::Word;

/// A job that is shown.
#[derive(Drop)]
pub struct ShownJob {
    /// Its number, 1 to 63.
    pub number: u8,
    /// Where the labels and the literals of its source stand.
    pub places: Places,
}

/// One more than the last address.
const ADDRESSES: u32 = 0o1_000_000;

/// The address behind one; that behind the last is 0.
pub fn next_address(address: u32) -> u32
    ensures { address < 2 ^ 18 → result ≡ (address + 1) % 2 ^ 18 }
{
    address.saturating_add(1) % ADDRESSES
}

/// The address before one; that before 0 is the last.
pub fn previous_address(address: u32) -> u32
    ensures below { address < 2 ^ 18 → result < 2 ^ 18 }
    ensures next { address < 2 ^ 18 → (result + 1) % 2 ^ 18 ≡ address }
{
    match address {
        0 => ADDRESSES - 1,
        address => address - 1,
    }
}

/// An address as text: `LOOP+3`, or an octal number where no label is near.
pub fn address_text(alloc: Global, job: &ShownJob, address: u32) -> Result<String, AllocError>
    ensures { IfOk result (λ text. string_bytes text ≡ reference_words job.now.places address) }
{
    let reference = Reference {
        places: &job.places,
        address,
    };
    format!(in alloc; "{reference}")
}

/// An address and the word there, without a line end: `LOOP+3/ MOVE 1,BLK`.
pub fn address_line(
    alloc: Global,
    job: &ShownJob,
    address: u32,
    word: Word,
    mode: OutputMode,
) -> Result<String, AllocError>
    ensures { IfOk result (λ line. IfSome (address_words job.now.places address (shown_word job.now.places mode word))
        (λ text. string_bytes line ≡ text)) }
{
    let reference = Reference {
        places: &job.places,
        address,
    };
    let text = WordText {
        places: &job.places,
        word,
        mode,
    };
    format!(in alloc; "{reference}/ {text}")
}
