//! Characters on their way to a terminal.

ghost use Rattle.std.specs.Prelude.{◌≡◌, ◌≤◌, length, take};

use crate::Char7;
use arrayvec::ArrayVec;
use std::marker::Model;
use word36::TAKEN_AT_ONCE;

/// At most 64 characters that were taken out of a line's output, the oldest first; contracts see the
/// list of them.
#[derive(Debug, Drop)]
pub struct TakenText {
    characters: ArrayVec<Char7, TAKEN_AT_ONCE>,
}

impl Model for TakenText {
    ghost use Rattle.std.specs.Prelude.{ℕ, List};

    ghost Value = { List ℕ };

    ghost view = { λ t. t.characters.items };
}

impl TakenText {
    /// The first so many of these characters.
    pub(crate) fn of_first(characters: [Char7; TAKEN_AT_ONCE], count: usize) -> TakenText
        ensures { result ≡ take count characters }
    {
        let mut characters = ArrayVec::from(characters);
        characters.truncate(count);
        TakenText { characters }
    }

    /// The characters.
    pub fn as_slice(&self) -> &[Char7]
        ensures value { result.now ≡ self.now }
        ensures within { length result.now ≤ TAKEN_AT_ONCE }
    {
        self.characters.as_slice()
    }
}
