//! Texts between two equal characters.

ghost use Rattle.std.specs.Prelude.{◌≡◌, ◌≤◌, ◌<◌, ◌==◌, Some, None, IfSome, option_map, position, length};
ghost use Rattle.mac_text.specs.Texts.{text_at, literal_len, behind_text};

use crate::characters::{blanks_len, word_len};
use crate::keyword::{Form, form_of};
use crate::symbol::folded;

/// The text between the first character that is no blank and the next one equal to it, and what stands behind.
#[tactic(auto, unfolding(crate::specs::Texts::text_at))]
pub fn text_of(bytes: &[u8]) -> Option<(&[u8], &[u8])>
    ensures value { option_map (λ x. (x.0.now, x.1.now)) result ≡ text_at bytes.now }
    ensures within { IfSome result (λ x. length x.1.now ≤ length bytes.now) }
{
    let bytes = &bytes[blanks_len(bytes)..];
    let (delimiter, body) = bytes.split_first()?;
    let end = position_of(*delimiter, body)?;
    Some((&body[..end], &body[end + 1..]))
}

/// The position of the first byte that is equal to `byte`.
fn position_of(byte: u8, text: &[u8]) -> Option<usize>
    ensures value { result ≡ position (λ c. c == byte) text.now }
    ensures within { IfSome result (λ i. i < length text.now) }
{
    text.iter().position(|c| *c == byte)
}

/// How many bytes stand before the bracket that ends a literal; a bracket in a text ends none.
#[tactic(auto, unfolding(crate::specs::Texts::literal_len))]
pub fn literal_len(bytes: &[u8]) -> Option<usize>
    ensures value { result ≡ literal_len bytes.now }
    ensures within { IfSome result (λ n. n < length bytes.now) }
{
    let behind = behind_text(bytes)?;
    let more = position_of(b']', behind)?;
    Some(bytes.len() - behind.len() + more)
}

/// What stands behind the text where a statement with a text comes first, and otherwise all.
#[tactic(auto, unfolding(crate::specs::Texts::behind_text))]
fn behind_text(bytes: &[u8]) -> Option<&[u8]>
    ensures value { option_map (λ x. x.now) result ≡ behind_text bytes.now }
    ensures within { IfSome result (λ x. length x.now ≤ length bytes.now) }
{
    let trimmed = &bytes[blanks_len(bytes)..];
    let len = word_len(trimmed);
    match form_of(folded(&trimmed[..len]).as_slice()) {
        Some(Form::Text(_)) => {
            let (_, behind) = text_of(&trimmed[len..])?;
            Some(behind)
        }
        _ => Some(bytes),
    }
}
