//! What this assembler refuses and the program `macro` takes.

ghost use Rattle.std.specs.Prelude.{◌≡◌, nat_eq};
ghost use Rattle.std.specs.List.{list_any};

use crate::reasons::{Fault, Reason, has_bit, has_point};
use crate::texts::behind;
use mac_text::Wanted;
use macro_names::Name;
use macro_operations::{BuiltIn, Pseudo, of_dialect};

/// What is said of such a fault.
pub const TAKEN_BY_MACRO: &str = "; macro FILE takes it";

/// The characters that stand behind a value there, and here in texts and comments alone.
static JOINTS: [u8; 7] = [b'=', b'#', b'*', b'/', b'&', b'!', b'_'];

/// Those that stand around a value.
static BRACKETS: [u8; 4] = [b'<', b'>', b'"', b'\''];

/// Whether a character stands behind a value.
fn is_joint(character: u8) -> bool
    ensures { result ≡ list_any (λ joint. nat_eq joint character) JOINTS }
{
    JOINTS.contains(&character)
}

/// Whether a character stands around a value.
fn is_bracket(character: u8) -> bool
    ensures { result ≡ list_any (λ bracket. nat_eq bracket character) BRACKETS }
{
    BRACKETS.contains(&character)
}

/// Whether some bytes are the name of a statement or an operation that it has beyond the subset and takes.
fn is_statement(name: &[u8]) -> bool {
    match of_dialect(Name::of(name)) {
        Some(BuiltIn::Pseudo(Pseudo::Extern | Pseudo::Segments | Pseudo::Universal)) => false,
        Some(_) => true,
        None => false,
    }
}

/// Whether a value goes on with a text. `##` says that a name is of another source, which is not taken.
fn is_joined(text: &[u8]) -> bool {
    match text {
        [b'#', b'#', ..] => false,
        [first, ..] => is_joint(*first),
        [] => false,
    }
}

/// Whether a line goes on at a column with a sign of a value, or with the second colon of a label.
fn goes_on(line: &[u8], column: usize) -> bool {
    let start = column.saturating_sub(1);
    let here = behind(line, start);
    match here.first() {
        Some(b':') => line.get(..start).unwrap_or(&[]).ends_with(b":"),
        Some(first) => is_joined(here) || is_bracket(*first),
        None => false,
    }
}

/// Whether `macro` takes the name that begins a statement at a column of a line, with what stands behind it.
fn is_taken(line: &[u8], column: usize, name: &[u8]) -> bool {
    let end = column.saturating_sub(1).saturating_add(name.len());
    is_statement(name) || is_joined(behind(line, end).trim_ascii_start())
}

/// Whether `macro` takes what is wrong with a line: a statement, an assignment, an operator, a character as a number, a
/// number in a form of its own, or a literal of several lines or with another one in it.
pub fn is_of_macro(line: &[u8], fault: &Fault<'_>) -> bool {
    match fault.reason {
        Reason::Syntax(Wanted::LiteralEnd | Wanted::NoLiteral, _) => true,
        Reason::Syntax(Wanted::Mark, found) => {
            matches!(found.first().copied(), Some(b'B' | b'b' | b'-'))
        }
        Reason::Syntax(Wanted::Operation, name) => is_taken(line, fault.column, name),
        Reason::Syntax(Wanted::Digits(_), word) => has_bit(word) || has_point(word),
        Reason::Syntax(Wanted::Ascii | Wanted::TextEnd | Wanted::Words, _) => false,
        Reason::Syntax(Wanted::Characters | Wanted::Allowed, _) => false,
        Reason::Syntax(_, _) => goes_on(line, fault.column),
        Reason::Unknown(name, true) => is_statement(name),
        _ => false,
    }
}
