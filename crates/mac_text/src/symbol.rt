//! Names as the assembler keeps them.

ghost use Rattle.std.specs.Prelude.{◌≡◌, ◌<◌, ◌↔◌, ℕ, List, true};
ghost use Rattle.std.specs.List.{list_all};
ghost use Rattle.std.specs.Str.{IsAscii};
ghost use Rattle.mac_text.specs.Characters.{is_name_character, upper_case};
ghost use Rattle.mac_text.specs.Names.{folded, code_at, symbol_of};

use crate::characters::{sixbit, upper_case};
use arrayvec::ArrayVec;
use std::marker::Model;

/// How many characters of a name count.
pub const NAME_CHARACTERS: usize = 6;

/// A name: its first six characters, in upper case, as the number that they are in SIXBIT.
#[derive(Clone, Copy, Debug, PartialEq, Eq)]
pub struct Symbol {
    sixbit: u64,
}

impl Model for Symbol {
    ghost use Rattle.std.specs.Prelude.{ℕ};

    ghost Value = { ℕ };

    ghost view = { λ s. s.sixbit };

    ghost inverse = { λ n. record { sixbit = n } };
}

impl Symbol {
    /// The symbol of a name.
    #[tactic(auto, unfolding(crate::specs::Names::symbol_of))]
    pub fn of(name: &[u8]) -> Symbol
        ensures { result ≡ symbol_of name.now }
    {
        Symbol {
            sixbit: code_at(name, 0) * (1 << 30)
                + code_at(name, 1) * (1 << 24)
                + code_at(name, 2) * (1 << 18)
                + code_at(name, 3) * (1 << 12)
                + code_at(name, 4) * (1 << 6)
                + code_at(name, 5),
        }
    }

    /// Its six characters in SIXBIT: the first is the highest, blanks stand behind the last.
    pub fn sixbit(self) -> u64
        ensures { result ≡ self }
    {
        self.sixbit
    }
}

/// Two names are one symbol exactly where their first six characters are the same, letters folded to upper case.
#[tactic(auto, using(crate::proofs::NameLemmas::one_symbol))]
pub fn symbols_tell_names()
    ensures { (a b : List ℕ) → list_all is_name_character a ≡ true → list_all is_name_character b ≡ true
        → (symbol_of a ≡ symbol_of b) ↔ (folded a ≡ folded b) }
{}

/// The first six characters of a text, in upper case: those of a name that count.
pub fn folded(name: &[u8]) -> ArrayVec<u8, NAME_CHARACTERS>
    ensures characters { result.items ≡ folded name.now }
    ensures ascii { IsAscii name.now → IsAscii result.items }
{
    let mut characters = ArrayVec::new();
    for i in 0..name.len().min(NAME_CHARACTERS) {
        characters.push(upper_case(name[i]));
    }
    characters
}

/// The code in SIXBIT of one of the first six characters of a name, a blank's where there is none.
#[tactic(auto, using(crate::proofs::NameLemmas::code_of_character, crate::proofs::NameLemmas::code_of_none))]
fn code_at(name: &[u8], at: usize) -> u64
    requires { at < 6 }
    ensures code { result ≡ code_at (folded name.now) at }
    ensures below { result < 64 }
{
    if at < name.len() {
        u64::from(sixbit(name[at]))
    } else {
        0
    }
}
