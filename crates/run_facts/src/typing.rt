//! Where a line of the input is typed.
ghost use Rattle.std.specs.Prelude.{◌≡◌, ◌<◌, length, position, IfSome};
ghost use Rattle.run_facts.specs.Typing.{is_colon, line_number, line_for, text_for};

use script_io::number;

/// Where a line of the input is typed.
#[derive(Clone, Copy, Debug)]
pub struct Target<'a> {
    /// The number of the terminal line.
    pub line: u8,
    /// What is typed there.
    pub text: &'a [u8],
}

/// The position of the first colon.
fn find_colon(text: &[u8]) -> Option<usize>
    ensures value { result ≡ position is_colon text.now }
    ensures within { IfSome result (λ i. i < length text.now) }
{
    text.iter().position(|c| *c == b':')
}

/// The number of a terminal line that a text spells, below `lines`. None where there are fewer than two.
fn line_number(lines: u8, text: &[u8]) -> Option<u8>
    ensures { result ≡ line_number lines text.now }
{
    if lines < 2 {
        return None;
    }
    match number(10, u64::from(lines - 1), text) {
        Some(number) => Some(number as u8),
        None => None,
    }
}

/// Where a line of the input is typed, and what is typed there: `n:TEXT` is TEXT at terminal line n, where
/// there are at least two terminal lines and n is below `lines`; all else is typed whole at line 0.
pub fn target_of(lines: u8, text: &[u8]) -> Target<'_>
    ensures line { result.line ≡ line_for lines text.now }
    ensures text { result.text.now ≡ text_for lines text.now }
{
    let Some(colon) = find_colon(text) else {
        return Target { line: 0, text };
    };
    match line_number(lines, &text[..colon]) {
        Some(line) => Target {
            line,
            text: &text[colon + 1..],
        },
        None => Target { line: 0, text },
    }
}
