//! Whole lines, each read as a command.
ghost use Rattle.std.specs.Prelude.{◌≡◌, IfSome};
ghost use Rattle.ddt_commands.specs.DotLines.{SaysLine, SaysText};
ghost use Rattle.ddt_commands.specs.Lines.{by_last, by_letter, by_value, change_in, change_of, command_in, cut_in, deposit, escaped_of, evaluate, execute_of};
ghost use Rattle.ddt_commands.specs.Lines.{is_change, is_mask, is_number, is_of_mode, is_question, is_shown_breakpoint, kind_of, masked};
ghost use Rattle.ddt_commands.specs.Lines.{mode_of, open_as, open_of, or_deposit, other_of, parts_of, proceed_in, quoted, radix_in, ranged, refused_by};
ghost use Rattle.ddt_commands.specs.Lines.{execute_in, plain_command, search_of, text_mode_in, value_line, with_digits};
ghost use Rattle.ddt_commands.specs.Numbers.{number_of};

use crate::breakpoints::{breakpoint_number, limits_place, read_breakpoint, read_limited};
use crate::commands::{Command, Opening, OutputMode, Retype, Search, SearchKind};
use crate::dot_commands::read_dot_command;
use crate::escaped::{Escaped, cut_at_escape};
use crate::line_errors::LineError;
use crate::numbers::{LEAST_RADIX, MOST_RADIX, number, times};
use crate::reader::{behind, cut_at, is_escape, is_name, trimmed};
use crate::values::{Scope, read_address, read_value};

/// Whether a text is a number of times, and no instruction: it begins with a digit, and has no comma.
fn is_number(text: &[u8]) -> bool
    ensures { result ≡ is_number text.now }
{
    match text {
        [] => false,
        [first, ..] => first.is_ascii_digit() && cut_at(text, b',').is_none(),
    }
}

/// Reads `n$P` and `$$P`; n is 1 where it is left out.
fn read_proceed<'a>(before: &[u8]) -> Result<Command<'a>, LineError>
    ensures { result ≡ proceed_in before.now }
{
    match before {
        [] => Ok(Command::Proceed(1)),
        [first] if is_escape(*first) => Ok(Command::ProceedOn),
        digits => match times(digits) {
            Some(times) => Ok(Command::Proceed(times)),
            None => Err(LineError::NoTimes),
        },
    }
}

/// Reads `n$X`, `$$X` and `instr$X`; n is 1 where it is left out. An instruction has an operation: its left half is not 0.
fn read_execute<'a>(before: &[u8], scope: &Scope<'_>) -> Result<Command<'a>, LineError>
    ensures { result ≡ execute_of scope.now before.now }
{
    match before {
        [] => return Ok(Command::Execute(1)),
        [first] if is_escape(*first) => return Ok(Command::ExecuteCall),
        _ => {}
    }
    if is_number(before) {
        return match times(before) {
            Some(times) => Ok(Command::Execute(times)),
            None => Err(LineError::NoTimes),
        };
    }
    let word = read_value(before, scope)?;
    if word.left() == 0 {
        Err(LineError::NoTimes)
    } else {
        Ok(Command::ExecuteWord(word))
    }
}

/// How a letter after `$` searches: `$W`, `$N` or `$E`.
fn search_kind(letter: u8) -> SearchKind
    ensures { result ≡ kind_of letter }
{
    match letter {
        b'W' => SearchKind::Equal,
        b'N' => SearchKind::NotEqual,
        _ => SearchKind::Address,
    }
}

/// Reads `value<mask>` before a search.
fn read_masked(front: &[u8], kind: SearchKind, scope: &Scope<'_>) -> Result<Search, LineError>
    ensures { result ≡ masked scope.now kind front.now }
{
    let Some((value, mask)) = cut_at(front, b'<') else {
        return Err(LineError::NoMask);
    };
    let mask = read_value(mask, scope)?;
    let value = read_value(value, scope)?;
    Ok(Search {
        kind,
        value,
        mask: Some(mask),
        range: None,
    })
}

/// Reads `a<b>value` before a search.
fn read_ranged(
    front: &[u8],
    value: &[u8],
    kind: SearchKind,
    scope: &Scope<'_>,
) -> Result<Search, LineError>
    ensures { result ≡ ranged scope.now kind front.now value.now }
{
    let Some((first, last)) = cut_at(front, b'<') else {
        return Err(LineError::NoRange);
    };
    let first = read_address(first, scope)?;
    let last = read_address(last, scope)?;
    let value = read_value(value, scope)?;
    Ok(Search {
        kind,
        value,
        mask: None,
        range: Some((first, last)),
    })
}

/// Reads a search, `value$W`, `value<mask>$W` or `a<b>value$W`; so with `$N` and `$E`.
#[tactic(auto, unfolding(crate::specs::Lines::search_of))]
fn read_search(before: &[u8], kind: SearchKind, scope: &Scope<'_>) -> Result<Search, LineError>
    ensures { result ≡ search_of scope.now kind before.now }
{
    match cut_at(before, b'>') {
        Some((front, value)) => {
            if value.is_empty() {
                read_masked(front, kind, scope)
            } else {
                read_ranged(front, value, kind, scope)
            }
        }
        None => {
            let value = read_value(before, scope)?;
            Ok(Search {
                kind,
                value,
                mask: None,
                range: None,
            })
        }
    }
}

/// Reads a value to deposit.
fn read_deposit<'a>(text: &[u8], scope: &Scope<'_>) -> Result<Command<'a>, LineError>
    ensures { result ≡ deposit scope.now text.now }
{
    let word = read_value(text, scope)?;
    Ok(Command::Deposit(word))
}

/// The mode of a letter after `$`: `$S`, and `$D` and `$O` as DDT has them. There is no floating point, so
/// `$F` shows words in octal.
fn mode_of(letter: u8) -> Option<OutputMode>
    ensures { result ≡ mode_of letter }
{
    match letter {
        b'S' => Some(OutputMode::Symbolic),
        b'C' | b'O' | b'F' => Some(OutputMode::Octal),
        b'D' => Some(OutputMode::Radix(10)),
        b'T' => Some(OutputMode::Text),
        b'H' => Some(OutputMode::Halves),
        _ => None,
    }
}

/// Reads `$nR`, whose n is in decimal.
fn read_radix<'a>(digits: &[u8]) -> Result<Command<'a>, LineError>
    ensures { result ≡ radix_in (number_of 10 digits.now) }
{
    match number(10, digits) {
        Some(radix) if LEAST_RADIX <= radix && radix <= MOST_RADIX => {
            Ok(Command::SetMode(OutputMode::Radix(radix as u8)))
        }
        _ => Err(LineError::NoRadix),
    }
}

/// Reads `$nT`, whose n is in decimal.
fn read_text_mode<'a>(digits: &[u8]) -> Result<Command<'a>, LineError>
    ensures { result ≡ text_mode_in (number_of 10 digits.now) }
{
    match number(10, digits) {
        Some(6) => Ok(Command::SetMode(OutputMode::Sixbit)),
        Some(7) => Ok(Command::SetMode(OutputMode::Ascii)),
        _ => Err(LineError::NoTextMode),
    }
}

/// Whether there is nothing before `$`, or one more `$`, as in `$$S`: modes last either way.
fn is_of_mode(before: &[u8]) -> bool
    ensures { result ≡ is_of_mode before.now }
{
    match before {
        [] => true,
        [first] => is_escape(*first),
        _ => false,
    }
}

/// Refuses a line whose letter has digits before it that it does not take, or is not here; or reads it as a value to deposit.
fn read_or_refuse<'a>(
    text: &[u8],
    is_mode: bool,
    letter: u8,
    scope: &Scope<'_>,
) -> Result<Command<'a>, LineError>
    ensures { result ≡ or_deposit scope.now text.now (refused_by is_mode letter) }
{
    match letter {
        b'G' | b'P' | b'X' | b'W' | b'N' | b'E' => Err(LineError::NoEscape),
        b'K' => Err(LineError::NoSymbols),
        b'O' if is_mode => Err(LineError::NoBytes),
        b'Y' => Err(LineError::NoPunch),
        b'Z' => Err(LineError::NoFilling),
        _ => read_deposit(text, scope),
    }
}

/// Reads a command of `$` with no digits after it, which sets no mode; or a value if its letter is that of no command.
fn read_by_letter<'a>(line: &Escaped<'_>, scope: &Scope<'_>) -> Result<Command<'a>, LineError>
    ensures { result ≡ by_letter scope.now (cut_in line.now) line.now.text.now }
{
    match line.letter {
        b'G' if line.before.is_empty() => Ok(Command::Go),
        b'G' => {
            let address = read_address(line.before, scope)?;
            Ok(Command::GoAt(address))
        }
        b'P' => read_proceed(line.before),
        b'X' => read_execute(line.before, scope),
        b'W' | b'N' | b'E' => {
            let search = read_search(line.before, search_kind(line.letter), scope)?;
            Ok(Command::Search(search))
        }
        letter => read_or_refuse(line.text, is_of_mode(line.before), letter, scope),
    }
}

/// Reads a command of `$` with no digits after it.
fn read_plain<'a>(line: &Escaped<'_>, scope: &Scope<'_>) -> Result<Command<'a>, LineError>
    ensures { result ≡ plain_command scope.now (cut_in line.now) line.now.text.now }
{
    if !is_of_mode(line.before) {
        return read_by_letter(line, scope);
    }
    match (mode_of(line.letter), line.letter) {
        (Some(mode), _) => Ok(Command::SetMode(mode)),
        (None, b'A') => Ok(Command::SetAddresses(true)),
        (None, b'R') => Ok(Command::SetAddresses(false)),
        _ => read_by_letter(line, scope),
    }
}

/// Reads a command of `$` with digits after it.
fn read_with_digits<'a>(line: &Escaped<'_>, scope: &Scope<'_>) -> Result<Command<'a>, LineError>
    ensures { result ≡ with_digits scope.now (cut_in line.now) line.now.text.now }
{
    let is_mode = is_of_mode(line.before);
    match line.letter {
        b'R' if is_mode => read_radix(line.digits),
        b'T' if is_mode => read_text_mode(line.digits),
        letter => read_or_refuse(line.text, is_mode, letter, scope),
    }
}

/// Reads a command of `$`, or a value if its letter is that of no command.
#[tactic(auto, unfolding(crate::specs::Lines::escaped_of))]
fn read_escaped<'a>(line: &Escaped<'_>, scope: &Scope<'_>) -> Result<Command<'a>, LineError>
    ensures { result ≡ escaped_of scope.now (cut_in line.now) line.now.text.now }
{
    if line.letter == b'B' {
        return read_breakpoint(line.before, line.digits, b"".as_slice(), scope);
    }
    if line.digits.is_empty() {
        read_plain(line, scope)
    } else {
        read_with_digits(line, scope)
    }
}

/// Whether a command of `$` is `$M`, the mask of searches.
fn is_mask(line: Option<Escaped<'_>>) -> bool
    ensures { result ≡ is_mask (parts_of line.entry) }
{
    match line {
        Some(line) => line.before.is_empty() && line.letter == b'M' && line.digits.is_empty(),
        None => false,
    }
}

/// Reads `a/`, `$M/` or `$nB/`.
#[tactic(auto, unfolding(crate::specs::Lines::open_of))]
fn read_open<'a>(text: &[u8], scope: &Scope<'_>) -> Result<Command<'a>, LineError>
    ensures { result ≡ open_of scope.now text.now }
{
    let line = cut_at_escape(text);
    if is_mask(line) {
        return Ok(Command::OpenMask);
    }
    match line {
        Some(line) if line.before.is_empty() && line.letter == b'B' => {
            match breakpoint_number(line.digits) {
                Some(number) => Ok(Command::ShowBreakpoint(number)),
                None => Err(LineError::NoBreakpoint),
            }
        }
        _ => {
            let address = read_address(text, scope)?;
            Ok(Command::Open(address))
        }
    }
}

/// Reads `$M/ value`, whose value stands after the `/`, or `a/ value`.
#[tactic(auto, unfolding(crate::specs::Lines::change_of))]
fn read_change_of<'a>(
    place: &[u8],
    value: &[u8],
    scope: &Scope<'_>,
) -> Result<Command<'a>, LineError>
    ensures { result ≡ change_of scope.now place.now value.now }
{
    if is_mask(cut_at_escape(place)) {
        let word = read_value(value, scope)?;
        return Ok(Command::ChangeMask(word));
    }
    let address = read_address(place, scope)?;
    let word = read_value(value, scope)?;
    Ok(Command::Change(address, word))
}

/// Reads `a[`, `a]` or `a!`.
fn read_opening<'a>(
    text: &[u8],
    opening: Opening,
    scope: &Scope<'_>,
) -> Result<Command<'a>, LineError>
    ensures { result ≡ open_as scope.now text.now opening }
{
    let address = read_address(text, scope)?;
    Ok(Command::OpenAs(address, opening))
}

/// Reads `value=`, `value_` or `value;`.
fn read_shown<'a>(text: &[u8], retype: Retype, scope: &Scope<'_>) -> Result<Command<'a>, LineError>
    ensures { result ≡ evaluate scope.now text.now retype }
{
    let word = read_value(text, scope)?;
    Ok(Command::Evaluate(word, retype))
}

/// Reads `a/ value`, if the line has that form: no quotation mark is before the first `/`.
fn read_change<'a>(text: &[u8], scope: &Scope<'_>) -> Option<Result<Command<'a>, LineError>>
    ensures { result ≡ change_in scope.now text.now }
{
    let (address, value) = cut_at(text, b'/')?;
    if value.is_empty() || cut_at(address, b'"').is_some() {
        return None;
    }
    Some(read_change_of(address, value, scope))
}

/// Reads a line with a text in quotation marks, if it is a value to deposit, or `a/ value`: the text may have any character.
fn read_quoted<'a>(text: &[u8], scope: &Scope<'_>) -> Option<Command<'a>>
    ensures { result ≡ quoted scope.now text.now }
{
    cut_at(text, b'"')?;
    match read_value(text, scope) {
        Ok(word) => Some(Command::Deposit(word)),
        Err(_) => match read_change(text, scope) {
            Some(Ok(change)) => Some(change),
            _ => None,
        },
    }
}

/// Reads `a/ value`, a command of `$`, or a value to deposit.
#[tactic(auto, unfolding(crate::specs::Lines::other_of))]
fn read_other<'a>(text: &[u8], scope: &Scope<'_>) -> Result<Command<'a>, LineError>
    ensures { result ≡ other_of scope.now text.now }
{
    let change = read_change(text, scope);
    if let Some(Ok(change)) = change {
        return Ok(change);
    }
    match cut_at_escape(text) {
        Some(line) => read_escaped(&line, scope),
        None => match change {
            Some(change) => change,
            None => read_deposit(text, scope),
        },
    }
}

/// Reads `a/` and the like, `value=` and the like, by the last character; a command of `$`; or a value to deposit.
#[tactic(auto, unfolding(crate::specs::Lines::by_last))]
fn read_by_last<'a>(text: &[u8], scope: &Scope<'_>) -> Result<Command<'a>, LineError>
    ensures { result ≡ by_last scope.now text.now }
{
    match text {
        [front @ .., b'/'] => read_open(front, scope),
        [front @ .., b'['] => read_opening(front, Opening::Octal, scope),
        [front @ .., b']'] => read_opening(front, Opening::Symbolic, scope),
        [front @ .., b'!'] => read_opening(front, Opening::Unseen, scope),
        [front @ .., b'='] => read_shown(front, Retype::Octal, scope),
        [front @ .., b'_'] => read_shown(front, Retype::Symbolic, scope),
        [front @ .., b';'] => read_shown(front, Retype::Text, scope),
        [.., first, b':'] if is_escape(*first) => Err(LineError::NoTables),
        [.., b':'] => Err(LineError::NoSymbols),
        [.., b'\\'] => Err(LineError::NoBackslash),
        _ => read_other(text, scope),
    }
}

/// Reads a breakpoint with limits, a text in quotation marks, or what the last character says.
#[tactic(auto, unfolding(crate::specs::Lines::value_line))]
fn read_value_line<'a>(text: &[u8], scope: &Scope<'_>) -> Result<Command<'a>, LineError>
    ensures { result ≡ value_line scope.now text.now }
{
    if let Some(i) = limits_place(text) {
        return read_limited(&text[..i], trimmed(behind(text, i + 1)), scope);
    }
    match read_quoted(text, scope) {
        Some(command) => Ok(command),
        None => read_by_last(text, scope),
    }
}

/// Whether a text is a word that a person types who does not know the commands yet.
fn is_question(text: &[u8]) -> bool
    ensures { result ≡ is_question text.now }
{
    is_name(text, b"?")
        || is_name(text, b"HELP")
        || is_name(text, b"QUIT")
        || is_name(text, b"EXIT")
        || is_name(text, b"H")
        || is_name(text, b"Q")
}

/// Reads a line without the blanks round it, which is no dot command.
#[tactic(auto, unfolding(crate::specs::Lines::command_in))]
fn read_command<'a>(text: &[u8], scope: &Scope<'_>) -> Result<Command<'a>, LineError>
    ensures { result ≡ command_in scope.now text.now }
{
    match text {
        [b'^'] => return Ok(Command::Previous),
        [b'='] => return Ok(Command::Retype(Retype::Octal)),
        [b'_'] => return Ok(Command::Retype(Retype::Symbolic)),
        [b';'] => return Ok(Command::Retype(Retype::Text)),
        [b';', ..] => return Ok(Command::Remark),
        _ => {}
    }
    if is_question(text) && read_value(text, scope).is_err() {
        return Err(LineError::AsksForHelp);
    }
    read_value_line(text, scope)
}

/// Reads a line without the blanks round it.
fn read_text<'a>(text: &'a [u8], scope: &Scope<'_>) -> Result<Command<'a>, LineError>
    ensures { SaysText scope.now text.now result }
{
    match text {
        [b'.', first, ..] if first.is_ascii_alphabetic() => read_dot_command(
            behind(text, 1),
            scope,
        ),
        _ => read_command(text, scope),
    }
}

/// Reads a line, without its end, as a command, or tells its fault. Numbers are octal, and decimal with a point
/// after them; those of dot commands are decimal, with a point or without.
pub fn read_line<'a>(line: &'a [u8], scope: &Scope<'_>) -> Result<Command<'a>, LineError>
    ensures { SaysLine scope.now line.now result }
{
    match line {
        [] => Ok(Command::Next),
        [b'\t'] => Ok(Command::Addressed),
        _ => read_text(trimmed(line), scope),
    }
}
