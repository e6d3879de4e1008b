//! The lines of a script.
ghost use Rattle.std.specs.Prelude.{◌≡◌, ℕ, List, [], ◌∷◌, MatchOption};
ghost use Rattle.std.specs.Str.Lines.{lines, lines_of_parts};

use script_io::{Parts, without_return};
use std::marker::Model;

/// The lines of a script that are still to be read. A line ends in LF, and one CR before the LF is
/// dropped; a last line without LF counts where it is not empty.
#[derive(Drop)]
pub struct ScriptLines<'a> {
    parts: Parts<'a>,
}

impl<'a> Model for ScriptLines<'a> {
    ghost Value = { List (List ℕ) };

    ghost view = { λ s. lines_of_parts s.parts };
}

impl<'a> ScriptLines<'a> {
    /// All lines of a script.
    #[tactic(auto, unfolding(script_io::specs::Numbers::parts))]
    pub fn of(script: &'a [u8]) -> Self
        ensures { result ≡ lines script.now }
    {
        ScriptLines {
            parts: Parts::of(script, b'\n'),
        }
    }

    /// Takes the first of them.
    pub fn next(&mut self) -> Option<&'a [u8]>
        ensures { MatchOption result (self.old ≡ []) (λ line. self.old ≡ line.now ∷ self.new) }
    {
        let part = self.parts.next()?;
        if !self.parts.is_empty() {
            return Some(without_return(part));
        }
        if part.is_empty() {
            return None;
        }
        Some(part)
    }
}
