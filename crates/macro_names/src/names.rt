//! Names, of which six characters count.

ghost use Rattle.std.specs.Prelude.{◌≡◌};
ghost use Rattle.mac_text.specs.Names.{symbol_of};

use crate::characters::is_name_character;
use arrayvec::ArrayVec;
use mac_text::Symbol;

/// A name: its first six characters, in upper case, as the number that they are in SIXBIT.
#[derive(Clone, Copy, PartialEq, Eq)]
pub struct Name {
    /// Its six characters: the first is the highest, blanks stand behind the last.
    pub sixbit: u64,
}

impl Name {
    /// The name of a text.
    pub fn of(text: &[u8]) -> Name
        ensures { result.sixbit ≡ symbol_of text.now }
    {
        Name {
            sixbit: Symbol::of(text).sixbit(),
        }
    }

    /// The name of this number, its characters in SIXBIT.
    pub fn of_sixbit(sixbit: u64) -> Name
        ensures { result.sixbit ≡ sixbit }
    {
        Name { sixbit }
    }

    /// Its six characters in SIXBIT: the first is the highest, blanks stand behind the last.
    pub fn sixbit(self) -> u64
        ensures { result ≡ self.sixbit }
    {
        self.sixbit
    }
}

/// A name that is read a character at a time.
#[derive(Clone, Copy)]
pub struct NameReader {
    characters: [u8; 6],
    count: usize,
}

impl NameReader {
    /// Nothing of a name so far.
    pub fn new() -> NameReader {
        NameReader {
            characters: [b' '; 6],
            count: 0,
        }
    }

    /// Adds a character. Those behind the sixth do not count.
    pub fn push(&mut self, character: u8) {
        if self.count < 6 {
            self.characters[self.count] = character;
            self.count += 1;
        }
    }

    /// The name of the characters so far.
    pub fn name(&self) -> Name {
        Name::of(&self.characters)
    }
}

/// The characters of a name.
pub fn text_of(name: Name) -> ArrayVec<u8, 6> {
    let mut text = ArrayVec::new();
    let mut rest = name.sixbit();
    for _ in 0..6 {
        let code = (rest / 0o10_000_000_000 & 0o77) as u8;
        rest = rest.wrapping_mul(64) & 0o777_777_777_777;
        let character = code + b' ';
        if is_name_character(character) {
            let _full = text.try_push(character);
        }
    }
    text
}
