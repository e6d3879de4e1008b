//! Breakpoints, and the limits after them: `a$nB IF b=v TIMES n`.
ghost use Rattle.std.specs.Prelude.{◌≡◌, ◌<◌, [], codes, drop, is_some, length, IfSome};
ghost use Rattle.ddt_commands.specs.Lines.{break_of, breakpoint_in, breakpoint_of, compared_parts, comparison_in, comparison_place, condition_in, ends_a_word};
ghost use Rattle.ddt_commands.specs.Lines.{if_in, limited, limits_in, limits_place, is_limit_at, is_word_at, parts_of, placed, visits_in, with_limits, word_place};
ghost use Rattle.ddt_commands.specs.Texts.{cut_of};

use crate::commands::{Command, NewBreakpoint};
use crate::escaped::{Escaped, cut_at_escape};
use crate::line_errors::LineError;
use crate::numbers::{number, times};
use crate::reader::{begins, behind, cut_word, is_blank, is_name, is_second, trimmed};
use crate::values::{Scope, read_address, read_value};
use ddt_breakpoints::{BREAKPOINTS, Comparison, Condition};

/// Whether a blank is at a place, after the command of a breakpoint.
fn is_limit_at(text: &[u8], i: usize) -> bool
    requires { i < length text.now }
    ensures { result ≡ is_limit_at text.now i }
{
    if !is_blank(text[i]) {
        return false;
    }
    match cut_at_escape(&text[..i]) {
        Some(line) => line.letter == b'B',
        None => false,
    }
}

/// The place of the first blank after the command of a breakpoint.
pub fn limits_place(text: &[u8]) -> Option<usize>
    ensures place { result ≡ limits_place text.now }
    ensures within { IfSome result (λ i. i < length text.now) }
{
    'places: for i in 0..text.len() {
        if is_limit_at(text, i) {
            return Some(i);
        }
    }
    None
}

/// Reads the command of a breakpoint before a blank, with the limits after that.
pub fn read_limited<'a>(
    command: &[u8],
    limits: &[u8],
    scope: &Scope<'_>,
) -> Result<Command<'a>, LineError>
    ensures { result ≡ with_limits scope.now (cut_of command.now) limits.now }
{
    match cut_at_escape(command) {
        Some(line) => read_breakpoint(line.before, line.digits, limits, scope),
        None => Err(LineError::NoBreakpoint),
    }
}

/// Whether a text is empty, or ends in a blank.
fn ends_a_word(text: &[u8]) -> bool
    ensures { result ≡ ends_a_word text.now }
{
    match text {
        [] => true,
        [.., last] => is_blank(*last),
    }
}

/// Whether a word begins at a place that is one of two, in upper or lower case.
fn is_word_at(text: &[u8], i: usize, word: &[u8], other: &[u8]) -> bool
    requires { i < length text.now }
    ensures { result ≡ is_word_at word.now other.now text.now i }
{
    let (first, _) = cut_word(behind(text, i));
    (is_name(first, word) || is_name(first, other)) && ends_a_word(&text[..i])
}

/// The place of the first word of a text that is one of two, in upper or lower case.
fn word_place(text: &[u8], word: &[u8], other: &[u8]) -> Option<usize>
    ensures place { result ≡ word_place word.now other.now text.now }
    ensures within { IfSome result (λ i. i < length text.now) }
{
    'places: for i in 0..text.len() {
        if is_word_at(text, i, word, other) {
            return Some(i);
        }
    }
    None
}

/// Reads how two words are compared, if a text begins with that: the comparison, and the text after it.
fn comparison(text: &[u8]) -> Option<(Comparison, &[u8])>
    ensures parts { compared_parts result ≡ comparison_in text.now }
    ensures found { is_some result ≡ is_some (comparison_in text.now) }
{
    if begins(b'<', text) && is_second(b'>', text) {
        return Some((Comparison::NotEqual, behind(text, 2)));
    }
    if begins(b'<', text) && is_second(b'=', text) {
        return Some((Comparison::LessOrEqual, behind(text, 2)));
    }
    if begins(b'>', text) && is_second(b'=', text) {
        return Some((Comparison::GreaterOrEqual, behind(text, 2)));
    }
    if begins(b'<', text) {
        return Some((Comparison::Less, behind(text, 1)));
    }
    if begins(b'>', text) {
        return Some((Comparison::Greater, behind(text, 1)));
    }
    if begins(b'=', text) {
        return Some((Comparison::Equal, behind(text, 1)));
    }
    None
}

/// The place of the first comparison in a text.
fn comparison_place(text: &[u8]) -> Option<usize>
    ensures place { result ≡ comparison_place text.now }
    ensures within { IfSome result (λ i. i < length text.now) }
{
    'places: for i in 0..text.len() {
        if comparison(behind(text, i)).is_some() {
            return Some(i);
        }
    }
    None
}

/// Reads a condition: `COUNT>5`.
fn read_condition(text: &[u8], scope: &Scope<'_>) -> Result<Condition, LineError>
    ensures { result ≡ condition_in scope.now text.now }
{
    let Some(i) = comparison_place(text) else {
        return Err(LineError::NoCondition);
    };
    match comparison(behind(text, i)) {
        Some((comparison, value)) => {
            let address = read_address(&text[..i], scope)?;
            let value = read_value(value, scope)?;
            Ok(Condition {
                address,
                comparison,
                value,
            })
        }
        None => Err(LineError::NoCondition),
    }
}

/// Reads the part of the limits before TIMES: `IF a=v`, or nothing.
fn read_if(text: &[u8], scope: &Scope<'_>) -> Result<Option<Condition>, LineError>
    ensures { result ≡ if_in scope.now text.now }
{
    let (word, condition) = cut_word(text);
    if word.is_empty() {
        return Ok(None);
    }
    if !is_name(word, b"IF") {
        return Err(LineError::NoLimit);
    }
    match read_condition(condition, scope) {
        Ok(condition) => Ok(Some(condition)),
        Err(error) => Err(error),
    }
}

/// Reads the part of the limits from TIMES on: `TIMES n`, or nothing.
fn read_times(text: &[u8]) -> Result<u32, LineError>
    ensures { result ≡ visits_in text.now }
{
    let (word, count) = cut_word(text);
    if word.is_empty() {
        return Ok(1);
    }
    match times(count) {
        Some(times) => Ok(times),
        None => Err(LineError::NoVisits),
    }
}

/// Reads the limits of a breakpoint, cut before TIMES.
fn read_parts<'a>(
    address: u32,
    number: Option<u8>,
    front: &[u8],
    times: &[u8],
    scope: &Scope<'_>,
) -> Result<Command<'a>, LineError>
    ensures { result ≡ limited scope.now address number front.now times.now }
{
    let condition = read_if(front, scope)?;
    let times = read_times(times)?;
    Ok(Command::SetBreakpoint(NewBreakpoint {
        address,
        number,
        condition,
        times,
    }))
}

/// Reads the limits of a breakpoint: `IF a=v`, `TIMES n`, both in this order, or none.
#[tactic(auto, unfolding(crate::specs::Lines::limits_in))]
fn read_limits<'a>(
    address: u32,
    number: Option<u8>,
    text: &[u8],
    scope: &Scope<'_>,
) -> Result<Command<'a>, LineError>
    ensures { result ≡ limits_in scope.now address number text.now }
{
    match word_place(text, b"TIMES", b"TIMES") {
        Some(i) => read_parts(address, number, trimmed(&text[..i]), behind(text, i), scope),
        None => read_parts(address, number, text, b"".as_slice(), scope),
    }
}

/// The number of a breakpoint, if digits are one.
pub fn breakpoint_number(digits: &[u8]) -> Option<u8>
    ensures { result ≡ breakpoint_in digits.now }
{
    match number(10, digits) {
        Some(number) if 1 <= number && number <= BREAKPOINTS as u64 => Some(number as u8),
        _ => None,
    }
}

/// Reads the limits of a breakpoint whose address is known: 0 and a number clear one.
fn read_placed<'a>(
    address: u32,
    number: Option<u8>,
    limits: &[u8],
    scope: &Scope<'_>,
) -> Result<Command<'a>, LineError>
    ensures { result ≡ placed scope.now address number limits.now }
{
    match number {
        Some(_) if address == 0 && !limits.is_empty() => Err(LineError::BehindCommand),
        Some(number) if address == 0 => Ok(Command::ClearBreakpoint(number)),
        _ => read_limits(address, number, limits, scope),
    }
}

/// Reads `$B`, `a$B`, `a$nB` and `0$nB`, with the limits after them.
#[tactic(auto, unfolding(crate::specs::Lines::breakpoint_of))]
pub fn read_breakpoint<'a>(
    before: &[u8],
    digits: &[u8],
    limits: &[u8],
    scope: &Scope<'_>,
) -> Result<Command<'a>, LineError>
    ensures { result ≡ breakpoint_of scope.now before.now digits.now limits.now }
{
    let number = breakpoint_number(digits);
    if number.is_none() && !digits.is_empty() {
        return Err(LineError::NoBreakpoint);
    }
    if before.is_empty() {
        if number.is_none() && limits.is_empty() {
            return Ok(Command::ListStops);
        }
        return Err(LineError::NoAddress);
    }
    let address = read_address(before, scope)?;
    read_placed(address, number, limits, scope)
}

/// Reads what stands after `.BREAK` for a breakpoint: its address, and its limits.
#[tactic(auto, unfolding(crate::specs::Lines::break_of))]
pub fn read_break_at<'a>(text: &[u8], scope: &Scope<'_>) -> Result<Command<'a>, LineError>
    ensures { result ≡ break_of scope.now text.now }
{
    match word_place(text, b"IF", b"TIMES") {
        Some(i) => {
            let address = read_address(trimmed(&text[..i]), scope)?;
            read_limits(address, None, behind(text, i), scope)
        }
        None => {
            let address = read_address(text, scope)?;
            read_limits(address, None, b"".as_slice(), scope)
        }
    }
}
