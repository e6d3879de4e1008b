//! Whole sources.

ghost use Rattle.std.specs.Prelude.{◌≡◌, ◌<◌, [], ◌∷◌, ◌++◌, ℕ, Bool, true, length, OnOk, IfErr};
ghost use Rattle.std.specs.List.{list_all};
ghost use Rattle.std.specs.Str.Lines.{lines, strip_carriage_return};
ghost use Rattle.mac_text.specs.Lines.{program_of, Parses, IsInLine};
ghost use Rattle.mac_text.specs.declared.syntax.Line.{Line};

use crate::characters::is_ascii;
use crate::fault::{Fault, ParseError, Stopped};
use crate::labels::Labels;
use crate::line::{is_end, radix_after, read_line};
use crate::sequence::Sequence;
use crate::syntax::{Line, Program};
use memchr::memchr;
use std::alloc::{AllocError, Global};

/// The first line of a text, without its line feed and a carriage return before it, and what stands behind it.
fn split_line(text: &[u8]) -> (&[u8], &[u8])
    requires { 0 < length text.now }
    ensures line { lines text.now ≡ result.0.now ∷ lines result.1.now }
    ensures shorter { length result.1.now < length text.now }
    ensures front { (p : ℕ → Bool) → list_all p text.now ≡ true → list_all p result.0.now ≡ true }
    ensures back { (p : ℕ → Bool) → list_all p text.now ≡ true → list_all p result.1.now ≡ true }
{
    match memchr(b'\n', text) {
        None => (text, &text[text.len()..]),
        Some(i) => (without_carriage_return(&text[..i]), &text[i + 1..]),
    }
}

fn without_carriage_return(line: &[u8]) -> &[u8]
    ensures { result.now ≡ strip_carriage_return line.now }
{
    match line {
        [front @ .., b'\r'] => front,
        _ => line,
    }
}

/// Appends an empty line.
fn add_line(alloc: Global, lines: &mut Vec<Line>) -> Result<(), AllocError>
    ensures { OnOk result ((line : Line) × (lines.new.items ≡ lines.old.items ++ line ∷ [])) }
{
    lines.push(Line {
        labels: Labels::new(),
        statement: None,
        literals: Sequence::new(alloc),
    })?;
    Ok(())
}

/// The statements of a source, up to END: see the grammar in `specs/`.
///
/// A line feed ends a line; a carriage return right before it is dropped, and a last line without a line feed counts if it is
/// not empty. Nothing behind END is read. The error names the first line that is not in the grammar, and the position in it.
pub fn parse(alloc: Global, source: &[u8]) -> Result<Program, ParseError>
    ensures program { Parses result (program_of source.now) }
    ensures position { IfErr result (λ e. IsInLine e source.now) }
{
    let is_known_ascii = is_ascii(source);
    let mut lines = Vec::new(alloc);
    let mut radix = 8;
    let mut rest = source;
    while !rest.is_empty() {
        let (text, behind) = split_line(rest);
        let at = lines.len();
        add_line(alloc, &mut lines)?;
        let mut stopped = Stopped {
            statement: 0,
            position: 0,
        };
        match read_line(
            alloc,
            radix,
            is_known_ascii,
            text,
            &mut lines[at],
            &mut stopped,
        ) {
            Ok(()) => {}
            Err(Fault::Memory) => return Err(ParseError::Memory),
            Err(Fault::Syntax(wanted)) => {
                return Err(ParseError::Syntax(stopped.fault(at + 1, text.len(), wanted)));
            }
        }
        radix = radix_after(&lines[at], radix);
        if is_end(&lines[at]) {
            return Ok(Sequence::of(lines));
        }
        rest = behind;
    }
    Ok(Sequence::of(lines))
}
