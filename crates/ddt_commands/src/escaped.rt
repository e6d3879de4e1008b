//! Commands of ESC, which is typed as it is or as `$`, cut into their parts.

ghost use Rattle.std.specs.Prelude.{◌≡◌, IfSome};
ghost use Rattle.std.specs.Char.{is_ascii_digit};
ghost use Rattle.std.specs.List.{list_all};
ghost use Rattle.ddt_commands.specs.Lines.{parts_of};
ghost use Rattle.ddt_commands.specs.Texts.{cut_behind, cut_of};

use crate::reader::cut_at_last_escape;

/// A command of `$`, cut into its parts.
#[derive(Clone, Copy)]
pub struct Escaped<'a> {
    /// The whole line.
    pub text: &'a [u8],
    /// What stands before the last `$` or ESC.
    pub before: &'a [u8],
    /// The digits after it.
    pub digits: &'a [u8],
    /// The letter after them, in upper case.
    pub letter: u8,
}

/// Whether all characters are decimal digits.
fn are_digits(text: &[u8]) -> bool
    ensures { result ≡ list_all is_ascii_digit text.now }
{
    for byte in text {
        if !byte.is_ascii_digit() {
            return false;
        }
    }
    true
}

/// The parts of a line, of which the text before its last `$` or ESC and the text after it are known; `None` if other than
/// digits and a letter stand after it.
fn parts<'a>(text: &'a [u8], before: &'a [u8], behind: &'a [u8]) -> Option<Escaped<'a>>
    ensures parts { parts_of result ≡ cut_behind before.now behind.now }
    ensures text { IfSome result (λ parts. parts.text.now ≡ text.now) }
{
    match behind {
        [digits @ .., letter] if letter.is_ascii_alphabetic() && are_digits(digits) => {
            Some(Escaped {
                text,
                before,
                digits,
                letter: letter.to_ascii_uppercase(),
            })
        }
        _ => None,
    }
}

/// Cuts a line at its last `$` or ESC, where digits and a letter, and nothing else, stand after it.
#[tactic(auto, unfolding(crate::specs::Texts::cut_of))]
pub fn cut_at_escape(text: &[u8]) -> Option<Escaped<'_>>
    ensures parts { parts_of result ≡ cut_of text.now }
    ensures text { IfSome result (λ parts. parts.text.now ≡ text.now) }
{
    match cut_at_last_escape(text) {
        Some((before, behind)) => parts(text, before, behind),
        None => None,
    }
}
