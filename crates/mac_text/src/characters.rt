//! The characters that a line is made of.

ghost use Rattle.std.specs.Prelude.{◌≡◌, ◌<◌, ◌≤◌, ◌==◌, ◌-◌, ◌%◌, length, not};
ghost use Rattle.std.specs.List.{prefix_len, list_all};
ghost use Rattle.mac_text.specs.Characters.{is_blank, is_digit, is_name_character, upper_case};
ghost use Rattle.mac_text.specs.Scan.{is_title_character};
ghost use Rattle.mac_text.specs.Lines.{is_ascii};

/// Spaces, tabs and form feeds separate.
pub fn is_blank(c: u8) -> bool
    ensures { result ≡ is_blank c }
{
    c == b' ' || c == b'\t' || c == 0o14
}

pub fn is_digit(c: u8) -> bool
    ensures { result ≡ is_digit c }
{
    c >= b'0' && c <= b'9'
}

/// What each character is in a name: its code in SIXBIT, a letter's that of its upper case, and 64 more where names and
/// numbers may have it.
static NAMING: [u8; 256] = [
    0, 0, 0, 0, 0, 0, 0, 0, 0, 0, 0, 0, 0, 0, 0, 0, 0, 0, 0, 0, 0, 0, 0, 0, 0, 0, 0, 0, 0, 0, 0, 0,
    0, 1, 2, 3, 68, 69, 6, 7, 8, 9, 10, 11, 12, 13, 78, 15, 80, 81, 82, 83, 84, 85, 86, 87, 88, 89,
    26, 27, 28, 29, 30, 31, 32, 97, 98, 99, 100, 101, 102, 103, 104, 105, 106, 107, 108, 109, 110,
    111, 112, 113, 114, 115, 116, 117, 118, 119, 120, 121, 122, 59, 60, 61, 62, 63, 0, 97, 98, 99,
    100, 101, 102, 103, 104, 105, 106, 107, 108, 109, 110, 111, 112, 113, 114, 115, 116, 117, 118,
    119, 120, 121, 122, 27, 28, 29, 30, 31, 32, 33, 34, 35, 36, 37, 38, 39, 40, 41, 42, 43, 44, 45,
    46, 47, 48, 49, 50, 51, 52, 53, 54, 55, 56, 57, 58, 59, 60, 61, 62, 63, 0, 1, 2, 3, 4, 5, 6, 7,
    8, 9, 10, 11, 12, 13, 14, 15, 16, 17, 18, 19, 20, 21, 22, 23, 24, 25, 26, 27, 28, 29, 30, 31,
    32, 33, 34, 35, 36, 37, 38, 39, 40, 41, 42, 43, 44, 45, 46, 47, 48, 49, 50, 51, 52, 53, 54, 55,
    56, 57, 58, 59, 60, 61, 62, 63, 0, 1, 2, 3, 4, 5, 6, 7, 8, 9, 10, 11, 12, 13, 14, 15, 16, 17,
    18, 19, 20, 21, 22, 23, 24, 25, 26, 27, 28, 29, 30, 31,
];

/// Names and numbers are made of letters, digits, `.`, `$` and `%`.
#[tactic(auto, using(crate::proofs::CharacterLemmas::naming_is))]
pub fn is_name_character(c: u8) -> bool
    ensures { result ≡ is_name_character c }
{
    NAMING[usize::from(c)] >= 64
}

/// The code of a character in SIXBIT, a letter's that of its upper case.
#[tactic(auto, using(crate::proofs::CharacterLemmas::code_is))]
pub fn sixbit(c: u8) -> u8
    ensures code { result ≡ (upper_case c - 32) % 64 }
    ensures below { result < 64 }
{
    NAMING[usize::from(c)] % 64
}

/// The letter in upper case; another character is itself.
pub fn upper_case(c: u8) -> u8
    ensures { result ≡ upper_case c }
{
    if c >= b'a' && c <= b'z' { c - 32 } else { c }
}

/// How many blanks a text begins with.
pub fn blanks_len(text: &[u8]) -> usize
    ensures value { result ≡ prefix_len is_blank text.now }
    ensures within { result ≤ length text.now }
{
    for (i, c) in text.iter().enumerate() {
        if !is_blank(*c) {
            return i;
        }
    }
    text.len()
}

/// Whether a text begins with a blank.
pub fn begins_with_blank(text: &[u8]) -> bool
    ensures { result ≡ not (prefix_len is_blank text.now == 0) }
{
    match text {
        [] => false,
        [first, ..] => is_blank(*first),
    }
}

/// How many characters of names and numbers a text begins with.
pub fn word_len(text: &[u8]) -> usize
    ensures value { result ≡ prefix_len is_name_character text.now }
    ensures within { result ≤ length text.now }
{
    for (i, c) in text.iter().enumerate() {
        if !is_name_character(*c) {
            return i;
        }
    }
    text.len()
}

/// How many bytes a text has before one that is not ASCII.
pub fn plain_len(text: &[u8]) -> usize {
    text.iter().position(|c| *c >= 128).unwrap_or(text.len())
}

/// How many characters a text has before a comment.
pub fn title_len(text: &[u8]) -> usize
    ensures value { result ≡ prefix_len is_title_character text.now }
    ensures within { result ≤ length text.now }
{
    for (i, c) in text.iter().enumerate() {
        if *c == b';' {
            return i;
        }
    }
    text.len()
}

/// Whether all characters are ASCII.
#[tactic(auto, using(crate::proofs::AsciiLemmas::ascii_so_far))]
pub fn is_ascii(text: &[u8]) -> bool
    ensures { result ≡ list_all is_ascii text.now }
{
    let mut greatest = 0;
    for c in text {
        greatest = greatest.max(*c);
    }
    greatest < 128
}
