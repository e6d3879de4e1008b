//! What conditions compare.

ghost use Rattle.std.specs.Prelude.{◌≡◌};
ghost use Rattle.std.specs.List.{list_any};
ghost use Rattle.macro_expressions.specs.Reading.{Gives};
ghost use Rattle.macro_expansion.specs.Brackets.{is_unjudged, bracketed_or_marked, compared, is_space, is_spaces};

use crate::brackets::{behind_blanks, bracketed};
use crate::texts::marked_text;
use macro_expressions::{BEYOND, Fault, begins_with};

/// A text in brackets, or one between two equal marks, which is next, and what comes after.
fn bracketed_or_marked(text: &[u8]) -> Result<(&[u8], &[u8]), Fault>
    ensures { Gives (λ x. (x.0.now, x.1.now)) result (bracketed_or_marked text.now) }
{
    if !begins_with(b'<', text) {
        return marked_text(text);
    }
    match bracketed(text) {
        Some(found) => Ok(found),
        None => Err(BEYOND),
    }
}

/// Whether a text has a CR or a mark.
fn is_unjudged(text: &[u8]) -> bool
    ensures { result ≡ list_any is_unjudged text.now }
{
    text.iter().any(|c| *c == 13 || 128 <= *c)
}

/// What IFIDN and IFB compare, which comes next, and what comes after.
pub fn compared(text: &[u8]) -> Result<(&[u8], &[u8]), Fault>
    ensures { Gives (λ x. (x.0.now, x.1.now)) result (compared text.now) }
{
    let found = bracketed_or_marked(behind_blanks(text))?;
    if is_unjudged(found.0) {
        return Err(BEYOND);
    }
    Ok(found)
}

/// A blank or the end of a line.
pub fn is_space(c: u8) -> bool
    ensures { result ≡ is_space c }
{
    c == b' ' || c == b'\t' || c == 0o14 || c == b'\n'
}

/// Whether a text has nothing but blanks and ends of lines.
pub fn is_spaces(text: &[u8]) -> bool
    ensures { result ≡ is_spaces text.now }
{
    text.iter().all(|c| is_space(*c))
}
