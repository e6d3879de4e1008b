//! The characters of a text.

ghost use Rattle.std.specs.Prelude.{◌≡◌, ◌≤◌, length};
ghost use Rattle.std.specs.List.{prefix_len};
ghost use Rattle.mac_text.specs.Characters.{is_blank, is_digit, is_name_character};
ghost use Rattle.mac_text.specs.Scan.{begins_with};
ghost use Rattle.macro_expressions.specs.Reading.{begins_name, begins_name_character, ends_line};

/// Spaces, tabs and form feeds separate.
fn is_blank(c: u8) -> bool
    ensures { result ≡ is_blank c }
{
    c == b' ' || c == b'\t' || c == 0o14
}

/// A decimal digit.
pub fn is_digit(c: u8) -> bool
    ensures { result ≡ is_digit c }
{
    c >= b'0' && c <= b'9'
}

/// Names and numbers are made of letters, digits, `.`, `$` and `%`.
pub fn is_name_character(c: u8) -> bool
    ensures { result ≡ is_name_character c }
{
    c >= b'A' && c <= b'Z'
        || c >= b'a' && c <= b'z'
        || is_digit(c)
        || c == b'.'
        || c == b'$'
        || c == b'%'
}

/// How many blanks a text begins with.
pub fn blanks_len(text: &[u8]) -> usize
    ensures value { result ≡ prefix_len is_blank text.now }
    ensures within { result ≤ length text.now }
{
    for (i, c) in text.iter().enumerate() {
        if !is_blank(*c) {
            return i;
        }
    }
    text.len()
}

/// How many characters of names and numbers a text begins with.
pub fn word_len(text: &[u8]) -> usize
    ensures value { result ≡ prefix_len is_name_character text.now }
    ensures within { result ≤ length text.now }
{
    for (i, c) in text.iter().enumerate() {
        if !is_name_character(*c) {
            return i;
        }
    }
    text.len()
}

/// How many digits a text begins with.
pub fn digits_len(text: &[u8]) -> usize
    ensures value { result ≡ prefix_len is_digit text.now }
    ensures within { result ≤ length text.now }
{
    for (i, c) in text.iter().enumerate() {
        if !is_digit(*c) {
            return i;
        }
    }
    text.len()
}

/// Whether a text begins with a character.
pub fn begins_with(c: u8, text: &[u8]) -> bool
    ensures { result ≡ begins_with c text.now }
{
    match text {
        [] => false,
        [first, ..] => *first == c,
    }
}

/// Whether a text begins with a character of names.
pub fn begins_name_character(text: &[u8]) -> bool
    ensures { result ≡ begins_name_character text.now }
{
    match text {
        [] => false,
        [first, ..] => is_name_character(*first),
    }
}

/// Whether a text begins with a name: with no digit, and not with the point alone.
pub fn begins_name(text: &[u8]) -> bool
    ensures { result ≡ begins_name text.now }
{
    match text {
        [] => false,
        [only] => is_name_character(*only) && !(is_digit(*only) || *only == b'.'),
        [first, second, ..] => {
            is_name_character(*first)
                && !(is_digit(*first) || *first == b'.' && !is_name_character(*second))
        }
    }
}

/// Whether a line, or what counts of it, ends where a text begins.
pub fn ends_line(text: &[u8]) -> bool
    ensures { result ≡ ends_line text.now }
{
    match text {
        [] => true,
        [first, ..] => *first == b'\n' || *first == b'\r' || *first == b';',
    }
}
