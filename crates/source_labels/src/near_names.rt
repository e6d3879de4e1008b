//! Names that a person may have meant by one that is not defined.

use ka_isa::{mnemonic, named};
use mac_text::folded;
use macro_operations::{DIALECT, SUBSET};
use std::alloc::{AllocError, Global};
use std::str;

/// The names of calls, which are no operations.
static CALLS: [&str; 28] = [
    "RESET", "CORE", "EXIT", "LOGOUT", "MSTIME", "PJOB", "SLEEP", "PIINI.", "PISYS.", "DEBRK.",
    "ENQ.", "DEQ.", "ENQC.", "DATRD.", "DATWR.", "MONRT.", "INCHRW", "OUTCHR", "INCHRS", "OUTSTR",
    "INCHWL", "INCHSL", "CLRBFI", "CLRBFO", "SKPINC", "SKPINL", "HALT", "JRSTF",
];

/// How many operations there are.
const OPERATIONS: u16 = 0o1000;

/// Whether two names in upper case are as long, and differ in one character or by two neighbours that are swapped.
fn differs_in_place(one: &[u8], other: &[u8]) -> bool {
    if one.len() != other.len() {
        return false;
    }
    let differing = one.iter().zip(other).filter(|(a, b)| a != b).count();
    if differing == 2 {
        return (1..one.len()).any(|i| {
            one[i - 1] == other[i] && one[i] == other[i - 1] && one[i] != one[i - 1]
        });
    }
    differing == 1
}

/// Whether a longer name is a shorter one with one more character.
fn has_one_more(longer: &[u8], shorter: &[u8]) -> bool {
    if longer.len() != shorter.len().saturating_add(1) {
        return false;
    }
    (0..longer.len()).any(|i| longer[..i] == shorter[..i] && longer[i + 1..] == shorter[i..])
}

/// The fewest characters of the name of an operation of which one may be another: of shorter names nearly each would be near
/// some operation.
const LONG_NAME: usize = 5;

/// Whether a word may be the name of an operation with one slip.
fn is_near_operation(word: &[u8], operation: &[u8]) -> bool {
    let is_other = word.len() == operation.len() && word.len() < LONG_NAME;
    are_near(word, operation) && (!is_other || has_same_characters(word, operation))
}

/// Whether two names of equal length have the same characters, in any order.
fn has_same_characters(one: &[u8], other: &[u8]) -> bool {
    one.iter().all(|c| other.contains(c)) && other.iter().all(|c| one.contains(c))
}

/// Whether two names of at least three characters, in upper case, differ by one slip.
pub fn are_near(one: &[u8], other: &[u8]) -> bool {
    if one.len() < 3 || other.len() < 3 {
        return false;
    }
    differs_in_place(one, other) || has_one_more(one, other) || has_one_more(other, one)
}

/// The statement that may have been meant by a word in upper case.
fn near_statement(word: &[u8]) -> Option<&'static str> {
    for (name, _) in SUBSET.iter().chain(&DIALECT) {
        if is_near_operation(word, name.as_bytes()) {
            return Some(*name);
        }
    }
    None
}

/// The operation that may have been meant by a word in upper case.
fn near_mnemonic(word: &[u8]) -> Option<&'static str> {
    for operation in 0..OPERATIONS {
        if let Some(name) = mnemonic(operation) {
            if is_near_operation(word, name.as_bytes()) {
                return Some(name);
            }
        }
    }
    None
}

/// The operation, call or statement that may have been meant by a word, which is none: the word with a point behind
/// it, or without its last character, or one that differs by one slip.
pub fn near_operation(alloc: Global, word: &[u8]) -> Result<Option<String>, AllocError> {
    let wanted = folded(word);
    let Ok(text) = str::from_utf8(wanted.as_slice()) else {
        return Ok(None);
    };
    if word.is_empty() || named(text).is_some() {
        return Ok(None);
    }
    let pointed = format!(in alloc; "{text}.")?;
    if named(pointed.as_str()).is_some() {
        return Ok(Some(pointed));
    }
    let front = wanted.get(..wanted.len().saturating_sub(1)).unwrap_or(&[]);
    let shorter = str::from_utf8(front).unwrap_or("");
    if front.len() >= 3 && named(shorter).is_some() {
        return Ok(Some(String::from_str(alloc, shorter)?));
    }
    for call in &CALLS {
        if is_near_operation(wanted.as_slice(), call.as_bytes()) {
            return Ok(Some(String::from_str(alloc, call)?));
        }
    }
    match near_statement(wanted.as_slice()).or(near_mnemonic(wanted.as_slice())) {
        Some(name) => Ok(Some(String::from_str(alloc, name)?)),
        None => Ok(None),
    }
}
