//! Words that say something of what comes before them.

ghost use Rattle.std.specs.Prelude.{◌≡◌, ◌≤◌, false, length, IfOk, OnOk};
ghost use Rattle.std.specs.List.{list_any};
ghost use Rattle.std.specs.Option.{option_map};
ghost use Rattle.std.specs.Str.{IsAscii, bytes_eq};
ghost use Rattle.mac_text.specs.Names.{folded};
ghost use Rattle.mac_text.specs.Scan.{word_of};
ghost use Rattle.macro_statements.specs.Mentions.{behind_word, far_names, defines, is_far, mentions, with_name, surveyed};

use crate::forms::built_in;
use mac_text::{Symbol, folded};
use macro_expressions::{begins_with, blanks_len, is_name_character, word_len};
use std::alloc::{AllocError, Global};

/// Whether what comes after a name defines it: it is a label, assigned, or a variable.
fn defines(text: &[u8]) -> bool
    ensures { result ≡ defines text.now }
{
    begins_with(b':', text)
        || begins_with(b'#', text)
        || begins_with(b'=', &text[blanks_len(text)..])
}

/// The name that a text begins with.
#[tactic(auto, using(mac_text::proofs::AsciiLemmas::word_is_ascii))]
pub fn first_word(text: &[u8]) -> &[u8]
    ensures value { result.now ≡ word_of text.now }
    ensures ascii { IsAscii result.now }
    ensures within { length result.now ≤ length text.now }
{
    &text[..word_len(text)]
}

/// A text after the name that it begins with.
pub fn behind_word(text: &[u8]) -> &[u8]
    ensures { result.now ≡ behind_word text.now }
{
    &text[first_word(text).len()..]
}

/// Whether a name is one of those that say something of what comes before them, by its characters that count.
fn is_far_name(counted: &[u8]) -> bool
    ensures { result ≡ list_any (bytes_eq counted.now) far_names }
{
    counted == b"OPDEF".as_slice()
        || counted == b"SYN".as_slice()
        || counted == b"PURGE".as_slice()
        || counted == b"SEARCH".as_slice()
        || counted == b"TWOSEG".as_slice()
        || counted == b"HISEG".as_slice()
        || counted == b"IF1".as_slice()
        || counted == b"IF2".as_slice()
}

/// Whether a text begins with such a name, whose characters that count are `counted`, or with a definition of a name that is an
/// operation or a pseudo-operation.
fn is_far(text: &[u8], counted: &[u8]) -> bool
    requires { counted.now ≡ folded (word_of text.now) }
    ensures { result ≡ is_far text.now }
{
    is_far_name(counted) || defines(behind_word(text)) && built_in(first_word(text)).is_some()
}

/// Whether a text has such a word outside of comments, or a mark in a comment.
#[tactic(auto, unfolding(crate::specs::Mentions::mentions))]
pub fn mentions(text: &[u8]) -> bool
    ensures { result ≡ mentions false false text.now }
{
    let mut in_comment = false;
    let mut in_name = false;
    for (i, c) in text.iter().enumerate() {
        if in_comment {
            if *c >= 128 {
                return true;
            }
            in_comment = *c != b'\n';
            in_name = false;
        } else if !is_name_character(*c) {
            in_comment = *c == b';';
            in_name = false;
        } else if !in_name {
            let here = &text[i..];
            let counted = folded(first_word(here));
            if is_far(here, counted.as_slice()) {
                return true;
            }
            in_name = true;
        }
    }
    false
}

/// Adds the name that a text begins with, if it comes after DEFINE.
fn push_name(is_next: bool, text: &[u8], names: &mut Vec<u64>) -> Result<(), AllocError>
    ensures { OnOk result (names.new.items ≡ with_name is_next text.now names.old.items) }
{
    if is_next {
        names.push(Symbol::of(first_word(text)).sixbit())?;
    }
    Ok(())
}

/// The names that come after a word DEFINE outside of comments; nothing if a source has a word that says something of what comes
/// before it.
#[tactic(auto, unfolding(crate::specs::Mentions::mentions, crate::specs::Mentions::defined_names))]
pub fn survey(alloc: Global, source: &[u8]) -> Result<Option<Vec<u64>>, AllocError>
    ensures { IfOk result (λ names. option_map (λ n. n.items) names ≡ surveyed source.now) }
{
    let mut names = Vec::new(alloc);
    let mut is_next = false;
    let mut in_comment = false;
    let mut in_name = false;
    for (i, c) in source.iter().enumerate() {
        if in_comment {
            if *c >= 128 {
                return Ok(None);
            }
            in_comment = *c != b'\n';
            in_name = false;
            is_next = false;
        } else if !is_name_character(*c) {
            in_comment = *c == b';';
            in_name = false;
            is_next = is_next && (*c == b' ' || *c == b'\t' || *c == 0o14);
        } else if !in_name {
            let here = &source[i..];
            let counted = folded(first_word(here));
            if is_far(here, counted.as_slice()) {
                return Ok(None);
            }
            push_name(is_next, here, &mut names)?;
            is_next = counted.as_slice() == b"DEFINE".as_slice();
            in_name = true;
        }
    }
    Ok(Some(names))
}
