//! Boolean functions of two words.

ghost use Rattle.std.specs.Prelude.{◌≡◌, ◌<◌};
ghost use Rattle.ka_word.specs.Booleans.{boolean_of};

use word36::Word;

/// A Boolean function of A and M, by the number of the operation, 0 SETZ to 15 SETO.
#[inline(always)]
#[tactic(auto, unfolding(crate::specs::Booleans::boolean_of))]
pub fn combine(kind: u32, a: Word, m: Word) -> Word
    requires { kind < 16 }
    ensures { result ≡ boolean_of kind a m }
{
    match kind {
        0 => Word::new(0),
        1 => a.and(m),
        2 => a.not().and(m),
        3 => m,
        4 => a.and(m.not()),
        5 => a,
        6 => a.xor(m),
        7 => a.or(m),
        8 => a.not().and(m.not()),
        9 => a.xor(m).not(),
        10 => a.not(),
        11 => a.not().or(m),
        12 => m.not(),
        13 => a.or(m.not()),
        14 => a.not().or(m.not()),
        _ => Word::new(0o777_777_777_777),
    }
}
