//! ADD, SUB, IMUL, MUL and IDIV.

ghost use Rattle.std.specs.Prelude.{◌≡◌, ◌%◌, if◌then◌else◌, IfSome};
ghost use Rattle.ka_state.specs.declared.registers.Flags.{Flags as SpecFlags};
ghost use Rattle.word36.specs.Words.{sum_of};
ghost use Rattle.ka_cpu.specs.Effects.{finished};
ghost use Rattle.ka_cpu.specs.Arithmetic.{add_row, imul_row, to_next, mul_row, idiv_row};
ghost use Rattle.ka_cpu.specs.Effects.{ac_memory, ac_put, computed_to_ac, core_memory, next_ac, sum_flags, to_memory};

use crate::instruction::{ILLEGAL, Instruction, operand_to_compute, put_computed, set_carries};
use ka_state::{JobMemory, Outcome, Regs};
use ka_word::{divide, has_no_quotient, split_product};
use word36::Word;

/// 2 ^ 35, the magnitude of the least number.
const LEAST: u64 = 0o400_000_000_000;

/// The sum of two words and a carry, where it is below 2 ^ 35 - 1: such a sum has no carry out of bit 0 or bit 1. The
/// bound is one less than it could be, so that it is the number with which AOJ and SOJ compare too, and one register
/// holds it.
#[inline(always)]
#[tactic(auto, using(crate::proofs::Sums::small_sums))]
fn small_sum(a: Word, b: Word, carry: bool) -> Option<Word>
    ensures sum { IfSome result (λ w. w ≡ sum_of a b (if carry then 1 else 0)) }
    ensures flags { IfSome result (λ _. (f : SpecFlags) → sum_flags f a b (if carry then 1 else 0) ≡ f) }
{
    let total = a.number() + b.number() + carry as u64;
    if total < LEAST - 1 {
        Some(Word::new(total))
    } else {
        None
    }
}

/// Stores the sum of two words and a carry where the mode says, and sets the flags of its carries.
#[inline(always)]
fn put_sum<M: JobMemory>(
    mode: u32,
    regs: &mut Regs,
    memory: &mut M,
    n: Instruction,
    a: Word,
    b: Word,
    carry: bool,
)
    requires mode { mode ≡ n.op % 4 }
    ensures regs { regs.new
        ≡ record regs.old {
          ac = ac_put (ac_memory regs.old.ac (to_memory n (sum_of a b (if carry then 1 else 0)))) n.ac
              (computed_to_ac n (sum_of a b (if carry then 1 else 0)));
          flags = sum_flags regs.old.flags a b (if carry then 1 else 0);
        } }
    ensures core { M.words memory.new ≡ core_memory (M.words memory.old) (to_memory n (sum_of a b (if carry then 1 else 0))) }
    ensures place { M.place memory.new ≡ M.place memory.old }
{
    match small_sum(a, b, carry) {
        Some(sum) => put_computed(mode, regs, memory, n, sum),
        None => {
            put_computed(mode, regs, memory, n, a.sum(b, carry));
            let (zero, one) = a.carries(b, carry);
            set_carries(regs, zero, one);
        }
    }
}

/// ADD, and SUB where it subtracts.
#[inline(always)]
#[tactic(auto, unfolding(crate::specs::Arithmetic::add_row))]
pub fn do_add<M: JobMemory>(
    subtracts: bool,
    mode: u32,
    regs: &mut Regs,
    memory: &mut M,
    n: Instruction,
) -> Outcome
    requires mode { mode ≡ n.op % 4 }
    ensures after { record { regs = regs.new; core = M.words memory.new; outcome = result }
        ≡ finished regs.old (M.words memory.old) n (add_row subtracts regs.old (M.words memory.old) n) }
    ensures place { M.place memory.new ≡ M.place memory.old }
{
    let Some(word) = operand_to_compute(mode, regs, memory, n) else {
        return ILLEGAL;
    };
    let next = regs.pc.plus(1);
    let a = regs.ac[n.ac()];
    let term = if subtracts { word.not() } else { word };
    put_sum(mode, regs, memory, n, a, term, subtracts);
    regs.pc = next;
    Outcome::Done
}

/// Stores the second result of MUL and IDIV in AC+1, except in mode M.
fn put_next(regs: &mut Regs, n: Instruction, word: Word)
    ensures { regs.new ≡ record regs.old { ac = ac_put regs.old.ac (next_ac n) (to_next n word) } }
{
    if n.op() % 4 != 2 {
        regs.ac[(n.ac() + 1) % 16] = word;
    }
}

/// IMUL
#[inline(always)]
#[tactic(auto, unfolding(crate::specs::Arithmetic::imul_row))]
pub fn do_imul<M: JobMemory>(mode: u32, regs: &mut Regs, memory: &mut M, n: Instruction) -> Outcome
    requires mode { mode ≡ n.op % 4 }
    ensures after { record { regs = regs.new; core = M.words memory.new; outcome = result }
        ≡ finished regs.old (M.words memory.old) n (imul_row regs.old (M.words memory.old) n) }
    ensures place { M.place memory.new ≡ M.place memory.old }
{
    let Some(word) = operand_to_compute(mode, regs, memory, n) else {
        return ILLEGAL;
    };
    let (_, low, overflows) = split_product(regs.ac[n.ac()], word);
    put_computed(mode, regs, memory, n, low);
    if overflows {
        regs.flags.overflow = true;
    }
    regs.pc = regs.pc.plus(1);
    Outcome::Done
}

/// MUL
#[inline(always)]
#[tactic(auto, unfolding(crate::specs::Arithmetic::mul_row))]
pub fn do_mul<M: JobMemory>(mode: u32, regs: &mut Regs, memory: &mut M, n: Instruction) -> Outcome
    requires mode { mode ≡ n.op % 4 }
    ensures after { record { regs = regs.new; core = M.words memory.new; outcome = result }
        ≡ finished regs.old (M.words memory.old) n (mul_row regs.old (M.words memory.old) n) }
    ensures place { M.place memory.new ≡ M.place memory.old }
{
    let Some(word) = operand_to_compute(mode, regs, memory, n) else {
        return ILLEGAL;
    };
    let a = regs.ac[n.ac()];
    let (high, low, _) = split_product(a, word);
    let both_least = a.number() == LEAST && word.number() == LEAST;
    put_computed(mode, regs, memory, n, high);
    if both_least {
        put_next(regs, n, Word::new(LEAST));
        regs.flags.overflow = true;
    } else {
        put_next(regs, n, low);
    }
    regs.pc = regs.pc.plus(1);
    Outcome::Done
}

/// IDIV
#[inline(always)]
#[tactic(auto, unfolding(crate::specs::Arithmetic::idiv_row))]
pub fn do_idiv<M: JobMemory>(mode: u32, regs: &mut Regs, memory: &mut M, n: Instruction) -> Outcome
    requires mode { mode ≡ n.op % 4 }
    ensures after { record { regs = regs.new; core = M.words memory.new; outcome = result }
        ≡ finished regs.old (M.words memory.old) n (idiv_row regs.old (M.words memory.old) n) }
    ensures place { M.place memory.new ≡ M.place memory.old }
{
    let Some(word) = operand_to_compute(mode, regs, memory, n) else {
        return ILLEGAL;
    };
    let a = regs.ac[n.ac()];
    if has_no_quotient(a, word) {
        regs.flags.overflow = true;
        regs.flags.no_divide = true;
    } else {
        let (quotient, remainder) = divide(a, word);
        put_computed(mode, regs, memory, n, quotient);
        put_next(regs, n, remainder);
    }
    regs.pc = regs.pc.plus(1);
    Outcome::Done
}
