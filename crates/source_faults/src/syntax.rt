//! The fault of a line that is not in the grammar, as the parser has it.

use crate::reasons::{Fault, Reason};
use crate::texts::{behind, found_at, skip_blanks, word_of};
use mac_text::{SyntaxFault, Wanted};

/// The position of the inner of two brackets that are open before a position, if there are two: the first `]` behind them ended
/// the literal, and the second stands for nothing.
fn inner_bracket(line: &[u8], position: usize) -> Option<usize> {
    let before = line.get(..position).unwrap_or(line);
    let inner = before.iter().rposition(|c| *c == b'[')?;
    if before[..inner].contains(&b'[') {
        Some(inner)
    } else {
        None
    }
}

/// What is wrong with the line of a fault.
pub fn fault_of<'a>(line: &'a [u8], fault: SyntaxFault) -> Fault<'a> {
    let name = word_of(behind(line, fault.statement));
    if behind(line, fault.position).starts_with(b"]".as_slice()) {
        if let Some(inner) = inner_bracket(line, fault.position) {
            let reason = Reason::Syntax(Wanted::NoLiteral, found_at(line, inner));
            return Fault::at(inner.saturating_add(1), reason);
        }
    }
    let (position, found) = match fault.wanted {
        Wanted::Operation => (fault.statement, name),
        Wanted::Allowed => {
            let end = fault.statement.saturating_add(name.len());
            (skip_blanks(line, end), name)
        }
        _ => (fault.position, found_at(line, fault.position)),
    };
    Fault::at(
        position.saturating_add(1),
        Reason::Syntax(fault.wanted, found),
    )
}
