//! MOVE, MOVS, MOVN, MOVM and EXCH.

ghost use Rattle.std.specs.Prelude.{◌≡◌, ◌%◌};
ghost use Rattle.word36.specs.Words.{complement};
ghost use Rattle.ka_word.specs.Sums.{negated};
ghost use Rattle.ka_cpu.specs.Effects.{finished, ac_put, ac_memory, core_memory, to_memory, moved_to_ac, sum_flags};
ghost use Rattle.ka_cpu.specs.Moves.{move_row, exch_row};

use crate::instruction::{
    ILLEGAL, Instruction, can_store, operand_to_move, put_moved, set_carries, try_put_moved,
};
use ka_state::{JobMemory, Outcome, Regs, fetch, store};
use ka_word::negate;
use word36::Word;

/// What a full-word move stores of its operand.
#[derive(Clone, Copy)]
pub enum Transfer {
    /// MOVE: the operand.
    Plain,
    /// MOVS: the operand with its halves swapped.
    Swapped,
    /// MOVN: the operand negated.
    Negated,
    /// MOVM: the magnitude.
    Magnitude,
}

/// Stores a word negated where the mode says, and sets the flags of the negation.
#[inline(always)]
fn put_negated<M: JobMemory>(mode: u32, regs: &mut Regs, memory: &mut M, n: Instruction, word: Word)
    requires mode { mode ≡ n.op % 4 }
    ensures regs { regs.new
        ≡ record regs.old {
          ac = ac_put (ac_memory regs.old.ac (to_memory n (negated word))) n.ac (moved_to_ac n (negated word));
          flags = sum_flags regs.old.flags (complement word) 1 0;
        } }
    ensures core { M.words memory.new ≡ core_memory (M.words memory.old) (to_memory n (negated word)) }
    ensures place { M.place memory.new ≡ M.place memory.old }
{
    put_moved(mode, regs, memory, n, negate(word));
    let (zero, one) = word.not().carries(Word::new(1), false);
    set_carries(regs, zero, one);
}

/// MOVE, MOVS, MOVN and MOVM, by what is stored of the operand.
#[inline(always)]
#[tactic(auto, unfolding(crate::specs::Moves::move_row))]
pub fn do_move<M: JobMemory>(
    transfer: Transfer,
    mode: u32,
    regs: &mut Regs,
    memory: &mut M,
    n: Instruction,
) -> Outcome
    requires mode { mode ≡ n.op % 4 }
    ensures after { record { regs = regs.new; core = M.words memory.new; outcome = result }
        ≡ finished regs.old (M.words memory.old) n (move_row transfer regs.old (M.words memory.old) n) }
    ensures place { M.place memory.new ≡ M.place memory.old }
{
    let Some(word) = operand_to_move(mode, regs, memory, n) else {
        return ILLEGAL;
    };
    match transfer {
        Transfer::Plain => {
            if !try_put_moved(mode, regs, memory, n, word) {
                return ILLEGAL;
            }
        }
        Transfer::Swapped => {
            if !try_put_moved(mode, regs, memory, n, word.swapped()) {
                return ILLEGAL;
            }
        }
        Transfer::Negated => {
            if !can_store(mode, memory, n) {
                return ILLEGAL;
            }
            put_negated(mode, regs, memory, n, word);
        }
        Transfer::Magnitude => {
            if !can_store(mode, memory, n) {
                return ILLEGAL;
            }
            if word.is_negative() {
                put_negated(mode, regs, memory, n, word);
            } else {
                put_moved(mode, regs, memory, n, word);
            }
        }
    }
    regs.pc = regs.pc.plus(1);
    Outcome::Done
}

/// EXCH
#[inline(always)]
#[tactic(auto, using(crate::proofs::Legal::legal_from_read), unfolding(crate::specs::Moves::exch_row))]
pub fn do_exch<M: JobMemory>(regs: &mut Regs, memory: &mut M, n: Instruction) -> Outcome
    ensures after { record { regs = regs.new; core = M.words memory.new; outcome = result }
        ≡ finished regs.old (M.words memory.old) n (exch_row regs.old (M.words memory.old) n) }
    ensures place { M.place memory.new ≡ M.place memory.old }
{
    let Some(word) = fetch(regs, memory, n.e().number()) else {
        return ILLEGAL;
    };
    let a = regs.ac[n.ac()];
    store(regs, memory, n.e().number(), a);
    regs.ac[n.ac()] = word;
    regs.pc = regs.pc.plus(1);
    Outcome::Done
}
