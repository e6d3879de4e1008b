//! What is wrong with a line, in words.
ghost use Rattle.std.specs.Prelude.{◌≤◌, ◌+◌, IfOk, length};

use crate::misfits::misfit;
use crate::names::{twice, unknown_name};
use crate::of_macro::{TAKEN_BY_MACRO, is_of_macro};
use crate::reasons::{Fault, Reason};
use crate::syntax;
use crate::texts::{behind_lines, first_line};
use mac_text::{Line, ParseError, parse};
use std::alloc::{AllocError, Global};

/// What the code of a fault says alone.
fn reason_of(code: u8) -> Reason<'static> {
    match code {
        1 => Reason::NoLine,
        2 => Reason::UnknownName,
        3 => Reason::Taken,
        4 => Reason::MisfitOfLine,
        5 => Reason::Early,
        6 => Reason::TooHigh,
        _ => Reason::NoEnd,
    }
}

/// What is wrong with the line of this number by the lines of its source, which are all in the grammar.
fn fault_in<'a>(
    alloc: Global,
    code: u8,
    number: usize,
    lines: &[Line],
    text: &'a [u8],
) -> Result<Fault<'a>, AllocError> {
    let before = number.saturating_sub(1);
    let Some(line) = lines.get(before) else {
        return Ok(Fault::whole(reason_of(code)));
    };
    match code {
        2 => unknown_name(alloc, lines, line, text),
        3 => Ok(twice(lines.get(..before).unwrap_or(lines), line, text)),
        4 => misfit(alloc, lines, line, text),
        _ => Ok(Fault::whole(reason_of(code))),
    }
}

/// What is wrong with a line of this number and text, in a source.
fn fault_of<'a>(
    alloc: Global,
    code: u8,
    number: usize,
    source: &[u8],
    text: &'a [u8],
) -> Result<Fault<'a>, AllocError>
    ensures { IfOk result (λ fault. fault.column ≤ length text.now + 1) }
{
    let fault = match parse(alloc, source) {
        Err(ParseError::Memory) => return Err(AllocError),
        Err(ParseError::Syntax(fault)) if code == 1 && fault.line == number => {
            syntax::fault_of(text, fault)
        }
        Err(ParseError::Syntax(_)) => Fault::whole(reason_of(code)),
        Ok(lines) => fault_in(alloc, code, number, lines.as_slice(), text)?,
    };
    Ok(fault.within(text.len()))
}

/// Says what is wrong with the line of this number, counted from 1, of a source that has a fault of this code there, 1 to 7; in
/// which column, if that is known; and where `macro` takes it that it does. The source begins behind so many lines of a text.
/// It fails only where there is no memory.
pub fn explain(
    alloc: Global,
    code: u8,
    before: u128,
    number: usize,
    text: &[u8],
) -> Result<String, AllocError> {
    let source = behind_lines(text, before);
    let line = first_line(behind_lines(source, number.saturating_sub(1) as u128));
    let fault = fault_of(alloc, code, number, source, line)?;
    let hint = if is_of_macro(line, &fault) {
        TAKEN_BY_MACRO
    } else {
        ""
    };
    format!(in alloc; "{fault}{hint}")
}

/// Says what a fault of this code is, 1 to 7, where the source is not at hand.
pub fn explain_code(alloc: Global, code: u8) -> Result<String, AllocError> {
    let reason = reason_of(code);
    format!(in alloc; "{reason}")
}
