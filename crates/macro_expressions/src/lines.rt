//! Where lines end.

ghost use Rattle.std.specs.Prelude.{◌≡◌, ◌≤◌, drop, length, false};
ghost use Rattle.macro_expressions.specs.Reading.{between, line_behind};

/// How many characters of a text are blanks, ends of lines and comments before anything else.
pub fn gap_len(text: &[u8]) -> usize
    ensures value { drop result text.now ≡ between false text.now }
    ensures within { result ≤ length text.now }
{
    let mut in_comment = false;
    for (i, c) in text.iter().enumerate() {
        if in_comment {
            in_comment = *c != b'\n';
        } else if *c == b';' {
            in_comment = true;
        } else if *c != b' ' && *c != b'\t' && *c != 0o14 && *c != b'\n' && *c != b'\r' {
            return i;
        }
    }
    text.len()
}

/// How many characters of a text stand before the end of its line.
pub fn line_len(text: &[u8]) -> usize
    ensures value { drop result text.now ≡ line_behind text.now }
    ensures within { result ≤ length text.now }
{
    for (i, c) in text.iter().enumerate() {
        if *c == b'\n' {
            return i;
        }
    }
    text.len()
}
