//! Which operations reach a word in memory, or jump.
ghost use Rattle.std.specs.Prelude.{◌≡◌};
ghost use Rattle.mac_source.specs.Sources.{reaches_memory};

use ka_isa::{Family, classify};

/// Whether an operation reaches the word at its address, or jumps there: not the immediate modes,
/// shifts, POPJ, CALLI, and what this machine leaves out.
#[tactic(auto, unfolding(crate::specs::Sources::reaches_memory))]
pub fn reaches_memory(op: u16) -> bool
    ensures { result ≡ reaches_memory op }
{
    match classify(op) {
        Family::Shift | Family::Popj | Family::Calli | Family::Other => false,
        Family::Compare => op >= 0o310,
        Family::Test => op / 8 % 2 == 1,
        Family::Move
        | Family::Movs
        | Family::Movn
        | Family::Movm
        | Family::Imul
        | Family::Mul
        | Family::Idiv
        | Family::Add
        | Family::Sub
        | Family::Boolean
        | Family::Half => op % 4 != 1,
        _ => true,
    }
}
