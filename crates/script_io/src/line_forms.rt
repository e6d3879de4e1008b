//! The text of a line, which lines a script may have, and which of them do nothing.
ghost use Rattle.std.specs.Prelude.{◌≡◌, nat_lt};
ghost use Rattle.std.specs.List.{list_all};
ghost use Rattle.std.specs.Str.Lines.{strip_carriage_return};
ghost use Rattle.script_io.specs.Lines.{is_allowed, is_silent};

use crate::line_sessions::LINE_LENGTH;

#[tactic(auto, using(crate::proofs::AsciiLemmas::ascii_tests))]
fn has_only_ascii(line: &[u8]) -> bool
    ensures { result ≡ list_all (λ b. nat_lt b 128) line.now }
{
    line.is_ascii()
}

/// A line without the CR at its end, where it ends in one.
pub fn without_return(line: &[u8]) -> &[u8]
    ensures { result.now ≡ strip_carriage_return line.now }
{
    match line {
        [front @ .., b'\r'] => front,
        _ => line,
    }
}

/// Whether a line has at most 256 characters, all of them ASCII.
pub fn is_allowed(line: &[u8]) -> bool
    ensures { result ≡ is_allowed line.now }
{
    line.len() <= LINE_LENGTH && has_only_ascii(line)
}

/// Whether a line does nothing: it is empty, or a comment, which begins with a semicolon.
pub fn is_silent(line: &[u8]) -> bool
    ensures { result ≡ is_silent line.now }
{
    line.is_empty() || line[0] == b';'
}
