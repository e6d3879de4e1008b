//! The Boolean family and the tests.

ghost use Rattle.std.specs.Prelude.{◌≡◌, ◌<◌, ◌^◌, ◌/◌, ◌%◌, Some, if◌then◌else◌};
ghost use Rattle.ka_cpu.specs.Effects.{finished};
ghost use Rattle.ka_cpu.specs.Booleans.{boolean_row, reads_none};
ghost use Rattle.ka_cpu.specs.Tests.{test_row, mask_source, masked, modified};
ghost use Rattle.ka_cpu.specs.Effects.{computed_operand, ac_put};

use crate::instruction::{ILLEGAL, Instruction, can_store, operand_to_compute, put_computed};
use ka_state::{JobMemory, Outcome, Regs, fetch};
use ka_word::{combine, skips, turn_mask};
use word36::Word;

/// The operand of a Boolean function; 0 for the four that read no memory.
#[inline(always)]
fn boolean_operand<M: JobMemory>(mode: u32, regs: &Regs, memory: &M, n: Instruction) -> Option<Word>
    requires mode { mode ≡ n.op % 4 }
    ensures { result ≡ (if reads_none (n.op / 4 % 16) then Some 0 else computed_operand regs.now (M.words memory.now) n) }
{
    match n.op() / 4 % 16 {
        0 | 5 | 10 | 15 => Some(Word::new(0)),
        _ => operand_to_compute(mode, regs, memory, n),
    }
}

/// SETZ to SETO
#[inline(always)]
#[tactic(auto, unfolding(crate::specs::Booleans::boolean_row))]
pub fn do_boolean<M: JobMemory>(
    mode: u32,
    regs: &mut Regs,
    memory: &mut M,
    n: Instruction,
) -> Outcome
    requires mode { mode ≡ n.op % 4 }
    ensures after { record { regs = regs.new; core = M.words memory.new; outcome = result }
        ≡ finished regs.old (M.words memory.old) n (boolean_row regs.old (M.words memory.old) n) }
    ensures place { M.place memory.new ≡ M.place memory.old }
{
    let Some(word) = boolean_operand(mode, regs, memory, n) else {
        return ILLEGAL;
    };
    if !can_store(mode, memory, n) {
        return ILLEGAL;
    }
    let combined = combine(n.op() / 4 % 16, regs.ac[n.ac()], word);
    put_computed(mode, regs, memory, n, combined);
    regs.pc = regs.pc.plus(1);
    Outcome::Done
}

/// The mask of a test.
#[inline(always)]
fn read_mask<M: JobMemory>(regs: &Regs, memory: &M, n: Instruction) -> Option<Word>
    ensures { result ≡ masked n.op (mask_source regs.now (M.words memory.now) n) }
{
    if n.op() / 8 % 2 == 0 {
        return Some(if n.op() % 2 == 0 {
            Word::join(0, n.e().number())
        } else {
            Word::join(n.e().number(), 0)
        });
    }
    match fetch(regs, memory, n.e().number()) {
        None => None,
        Some(word) => Some(turn_mask(n.op(), word)),
    }
}

/// Changes the masked bits of AC: nothing, zeros, complement, ones.
#[inline(always)]
fn modify(change: u32, regs: &mut Regs, n: Instruction, a: Word, mask: Word)
    requires change { change ≡ n.op / 16 % 4 }
    ensures { regs.new ≡ record regs.old { ac = ac_put regs.old.ac n.ac (modified n.op a mask) } }
{
    match change {
        0 => {}
        1 => regs.ac[n.ac()] = a.and(mask.not()),
        2 => regs.ac[n.ac()] = a.xor(mask),
        _ => regs.ac[n.ac()] = a.or(mask),
    }
}

/// TRN to TSON
#[inline(always)]
#[tactic(auto, unfolding(crate::specs::Tests::test_row))]
pub fn do_test<M: JobMemory>(
    change: u32,
    regs: &mut Regs,
    memory: &mut M,
    n: Instruction,
) -> Outcome
    requires change { change ≡ n.op / 16 % 4 }
    ensures after { record { regs = regs.new; core = M.words memory.new; outcome = result }
        ≡ finished regs.old (M.words memory.old) n (test_row regs.old (M.words memory.old) n) }
    ensures place { M.place memory.new ≡ M.place memory.old }
{
    let Some(mask) = read_mask(regs, memory, n) else {
        return ILLEGAL;
    };
    let a = regs.ac[n.ac()];
    let test = skips(n.op(), a.and(mask).number() == 0);
    modify(change, regs, n, a, mask);
    regs.pc = regs.pc.plus(if test { 2 } else { 1 });
    Outcome::Done
}
