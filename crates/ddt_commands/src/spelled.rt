//! Characters of a text that is to be typed, as they are spelled.
ghost use Rattle.std.specs.Prelude.{◌≡◌};
ghost use Rattle.ddt_commands.specs.Characters.{spelled, spelled_parts};

/// The first character of a text that is to be typed, and what stands behind it: `\n` is a line feed, `\r` a carriage return,
/// `\e` ESC, `\\` a backslash, and a backslash with three octal digits, to 177, that character, as in TYPE of `lockmon run`.
/// `None` at the end of the text, and where a backslash stands before anything else.
pub fn first_character(text: &[u8]) -> Option<(u8, &[u8])>
    ensures { spelled_parts result ≡ spelled text.now }
{
    match text {
        [b'\\', b'n', rest @ ..] => Some((b'\n', rest)),
        [b'\\', b'r', rest @ ..] => Some((b'\r', rest)),
        [b'\\', b'e', rest @ ..] => Some((0o33, rest)),
        [b'\\', b'\\', rest @ ..] => Some((b'\\', rest)),
        [
            b'\\',
            a @ b'0'..=b'1',
            b @ b'0'..=b'7',
            c @ b'0'..=b'7',
            rest @ ..,
        ] => Some(((*a - b'0') * 64 + (*b - b'0') * 8 + (*c - b'0'), rest)),
        [b'\\', ..] => None,
        [first, rest @ ..] => Some((*first, rest)),
        [] => None,
    }
}
