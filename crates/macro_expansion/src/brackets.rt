//! Texts in brackets, and what is put before the rest of a text.

ghost use Rattle.std.specs.Prelude.{◌≡◌, ◌<◌, IfSome, IfOk, drop, length};
ghost use Rattle.std.specs.Option.{option_map};
ghost use Rattle.mac_text.specs.Scan.{after_blanks};
ghost use Rattle.macro_expressions.specs.Reading.{Gives};
ghost use Rattle.macro_expansion.specs.Brackets.{closed_at, up_to_close, bracketed, past_comma, text_next};
ghost use Rattle.macro_expansion.specs.Brackets.{ends_with_line, lined, repeated, rounds_of, joins};

use macro_expressions::{BEYOND, Fault, begins_with, blanks_len, ends_line};
use std::alloc::{AllocError, Global};

/// How many rounds are judged.
const MOST_ROUNDS: usize = 10_000;

/// How many characters of all rounds are judged.
const MOST_CHARACTERS: usize = 1_000_000;

/// The position of the `>` that closes a `<`, which is read.
#[tactic(auto, unfolding(crate::specs::Brackets::closed_at))]
fn closed_at(text: &[u8]) -> Option<usize>
    ensures value { result ≡ closed_at 0 0 text.now }
    ensures within { IfSome result (λ at. at < length text.now) }
{
    let mut depth = 0usize;
    for (i, c) in text.iter().enumerate() {
        if *c == b'>' {
            if depth == 0 {
                return Some(i);
            }
            depth -= 1;
        } else if *c == b'<' {
            depth += 1;
        }
    }
    None
}

/// The text up to the `>` of a `<`, which is read, and what comes after.
pub fn up_to_close(text: &[u8]) -> Option<(&[u8], &[u8])>
    ensures { option_map (λ x. (x.0.now, x.1.now)) result ≡ up_to_close text.now }
{
    match closed_at(text) {
        Some(at) => Some((&text[..at], &text[at + 1..])),
        None => None,
    }
}

/// A text in brackets, which comes next, and what comes after.
pub fn bracketed(text: &[u8]) -> Option<(&[u8], &[u8])>
    ensures { option_map (λ x. (x.0.now, x.1.now)) result ≡ bracketed text.now }
{
    match text {
        [b'<', behind @ ..] => up_to_close(behind),
        _ => None,
    }
}

/// A text after blanks.
pub fn behind_blanks(text: &[u8]) -> &[u8]
    ensures { result.now ≡ after_blanks text.now }
{
    &text[blanks_len(text)..]
}

/// A text without its first character.
pub fn behind_first(text: &[u8]) -> &[u8]
    ensures { result.now ≡ drop 1 text.now }
{
    match text {
        [] => text,
        [_, behind @ ..] => behind,
    }
}

/// A text after blanks, and after a comma and blanks if it comes next.
pub fn past_comma(text: &[u8]) -> &[u8]
    ensures { result.now ≡ past_comma text.now }
{
    match behind_blanks(text) {
        [b',', behind @ ..] => behind_blanks(behind),
        behind => behind,
    }
}

/// The text of a condition or a repetition, which comes next after a comma, and what comes after.
pub fn text_next(text: &[u8]) -> Result<(&[u8], &[u8]), Fault>
    ensures { Gives (λ x. (x.0.now, x.1.now)) result (text_next text.now) }
{
    match bracketed(past_comma(text)) {
        Some(found) => Ok(found),
        None => Err(BEYOND),
    }
}

/// Whether the last character of a text ends a line.
fn ends_with_line(text: &[u8]) -> bool
    ensures { result ≡ ends_with_line text.now }
{
    if text.is_empty() {
        return false;
    }
    text[text.len() - 1] == b'\n'
}

/// A text with a new line at its end.
pub fn lined(alloc: Global, text: &[u8]) -> Result<Vec<u8>, AllocError>
    ensures { IfOk result (λ all. all.items ≡ lined text.now) }
{
    let mut all = Vec::from_slice(alloc, text)?;
    if !ends_with_line(text) {
        all.push(b'\n')?;
    }
    Ok(all)
}

/// A text n times.
#[tactic(auto, unfolding(crate::specs::Brackets::repeated))]
fn repeated(alloc: Global, count: usize, text: &[u8]) -> Result<Vec<u8>, AllocError>
    ensures { IfOk result (λ all. all.items ≡ repeated count text.now) }
{
    let mut all = Vec::new(alloc);
    for _ in 0..count {
        all.extend_from_slice(text)?;
    }
    Ok(all)
}

/// A text n times, as far as that is judged.
pub fn rounds(alloc: Global, count: usize, text: &[u8]) -> Result<Vec<u8>, Fault>
    ensures { Gives (λ all. all.items) result (rounds_of count text.now) }
{
    match count.checked_mul(text.len()) {
        Some(size) if count <= MOST_ROUNDS && size <= MOST_CHARACTERS => {
            Ok(repeated(alloc, count, text)?)
        }
        _ => Err(BEYOND),
    }
}

/// Whether a text can come before the rest of another: it ends a line, or the rest is at the end of one.
pub fn joins(text: &[u8], rest: &[u8]) -> bool
    ensures { result ≡ joins text.now rest.now }
{
    text.is_empty() || ends_with_line(text) || ends_line(behind_blanks(rest))
}
