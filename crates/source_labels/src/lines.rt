//! The lines of a source.

/// The first line, and what stands behind its line end.
fn split_line(text: &[u8]) -> (&[u8], &[u8]) {
    for (i, byte) in text.iter().enumerate() {
        if *byte == b'\n' {
            return (&text[..i], &text[i + 1..]);
        }
    }
    (text, &[])
}

/// The line of this number, counted from 1, without its line end; an empty one where there are fewer.
pub fn line_at(source: &[u8], number: usize) -> &[u8] {
    let mut rest = source;
    for _ in 1..number {
        rest = split_line(rest).1;
    }
    let (line, _) = split_line(rest);
    line.strip_suffix(b"\r".as_slice()).unwrap_or(line)
}

/// Whether a character may stand in a name or a number.
fn is_name_character(c: u8) -> bool {
    c.is_ascii_alphanumeric() || c == b'.' || c == b'$' || c == b'%'
}

/// A text without the blanks at its beginning.
fn without_blanks(text: &[u8]) -> &[u8] {
    for (i, c) in text.iter().enumerate() {
        if *c != b' ' && *c != b'\t' && *c != 0o14 {
            return &text[i..];
        }
    }
    &[]
}

/// The word that a text begins with: letters, digits, points, `$` and `%`. Empty where it begins with none of these.
fn word_of(text: &[u8]) -> &[u8] {
    for (i, c) in text.iter().enumerate() {
        if !is_name_character(*c) {
            return &text[..i];
        }
    }
    text
}

/// The first label of a line, and what stands behind its colon; None where the line begins with no label.
pub fn split_label(line: &[u8]) -> Option<(&[u8], &[u8])> {
    let text = without_blanks(line);
    let word = word_of(text);
    match text.get(word.len()) {
        Some(c) if *c == b':' && !word.is_empty() => Some((word, &text[word.len() + 1..])),
        _ => None,
    }
}
