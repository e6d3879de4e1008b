//! The names of the universal file. Of each name that is looked up the first six characters are given, in upper case.

use crate::macros::MACROS;
use crate::numbers::{JOB_WORDS, NUMBERS};

/// Whether SEARCH of this name reads the universal file: it has what is here of UUOSYM, MACTEN and JOBDAT, under each of their names.
pub fn is_file(name: &[u8]) -> bool {
    matches!(name, b"UUOSYM" | b"MACTEN" | b"JOBDAT")
}

/// The number of a name in a table.
fn number_in(table: &[(&'static str, u64)], name: &[u8]) -> Option<u64> {
    for (known, number) in table {
        if known.as_bytes() == name {
            return Some(*number);
        }
    }
    None
}

/// The address of the word that a job keeps of itself under this name, if there is one.
pub fn job_word(name: &[u8]) -> Option<u64> {
    number_in(&JOB_WORDS, name)
}

/// The number of this name, if it has one.
pub fn number_of(name: &[u8]) -> Option<u64> {
    match number_in(&NUMBERS, name) {
        Some(number) => Some(number),
        None => job_word(name),
    }
}

/// Whether this name is that of a macro or an operation.
pub fn has_macro(name: &[u8]) -> bool {
    MACROS.iter().any(|known| known.0.as_bytes() == name)
}
