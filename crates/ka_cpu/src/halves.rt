//! The halfword family.

ghost use Rattle.std.specs.Prelude.{◌≡◌, ℕ, ◌<◌, ◌^◌, ◌%◌, IfSome, true};
ghost use Rattle.ka_cpu.specs.Effects.{finished, memory_legal, to_memory};
ghost use Rattle.ka_cpu.specs.Halves.{half_row, destination};

use crate::instruction::{ILLEGAL, Instruction, operand_to_move, put_moved};
use ka_state::{JobMemory, Outcome, Regs, fetch};
use ka_word::move_half;
use word36::Word;

/// The word that receives the half. Where it can be read the result can be stored.
#[inline(always)]
#[tactic(auto, using(crate::proofs::Legal::legal_from_read))]
fn find_destination<M: JobMemory>(
    mode: u32,
    regs: &Regs,
    memory: &M,
    n: Instruction,
) -> Option<Word>
    requires mode { mode ≡ n.op % 4 }
    ensures value { result ≡ destination regs.now (M.words memory.now) n }
    ensures legal { IfSome result (λ _. (w : ℕ) → memory_legal (M.words memory.now) (to_memory n w) ≡ true) }
{
    if mode < 2 {
        Some(regs.ac[n.ac()])
    } else {
        fetch(regs, memory, n.e().number())
    }
}

/// HLL to HLRE
#[inline(always)]
#[tactic(auto, unfolding(crate::specs::Halves::half_row))]
pub fn do_half<M: JobMemory>(mode: u32, regs: &mut Regs, memory: &mut M, n: Instruction) -> Outcome
    requires mode { mode ≡ n.op % 4 }
    ensures after { record { regs = regs.new; core = M.words memory.new; outcome = result }
        ≡ finished regs.old (M.words memory.old) n (half_row regs.old (M.words memory.old) n) }
    ensures place { M.place memory.new ≡ M.place memory.old }
{
    let Some(word) = operand_to_move(mode, regs, memory, n) else {
        return ILLEGAL;
    };
    let Some(old) = find_destination(mode, regs, memory, n) else {
        return ILLEGAL;
    };
    put_moved(mode, regs, memory, n, move_half(n.op() / 4 % 16, word, old));
    regs.pc = regs.pc.plus(1);
    Outcome::Done
}
