//! The kinds of characters.

ghost use Rattle.std.specs.Prelude.{◌≡◌, ◌<◌, IfSome};
ghost use Rattle.mac_text.specs.Characters.{is_blank, is_digit, is_name_character, upper_case};

use mac_text::upper_case;

/// Spaces, tabs and form feeds separate.
pub fn is_blank(c: u8) -> bool
    ensures { result ≡ is_blank c }
{
    c == b' ' || c == b'\t' || c == 0o14
}

/// A decimal digit.
pub fn is_digit(c: u8) -> bool
    ensures { result ≡ is_digit c }
{
    c >= b'0' && c <= b'9'
}

/// Names and numbers are made of letters, digits, `.`, `$` and `%`.
pub fn is_name_character(c: u8) -> bool
    ensures { result ≡ is_name_character c }
{
    is_digit(c)
        || c >= b'A' && c <= b'Z'
        || c >= b'a' && c <= b'z'
        || c == b'.'
        || c == b'$'
        || c == b'%'
}

/// The code of a character in SIXBIT, a letter's that of its upper case. None for one that SIXBIT does not have.
pub fn sixbit_of(c: u8) -> Option<u8>
    ensures { IfSome result (λ code. code < 64) }
{
    let upper = upper_case(c);
    if upper >= b' ' && upper <= b'_' {
        Some(upper - b' ')
    } else {
        None
    }
}
