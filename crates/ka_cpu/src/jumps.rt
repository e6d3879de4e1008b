//! JFFO, AOBJP, AOBJN, JRST, JFCL, subroutine calls and calls of the monitor.

ghost use Rattle.std.specs.Prelude.{◌≡◌, ◌+◌, ◌%◌, ◌^◌, if◌then◌else◌, true, false, Ok};
ghost use Rattle.ka_isa.specs.declared.Family.TheVariants.{Jrst};
ghost use Rattle.ka_cpu.specs.Effects.{finished, stopped};
ghost use Rattle.ka_cpu.specs.Exec.{is_listed};
ghost use Rattle.ka_state.specs.declared.outcome.StopReason.TheVariants.{IllegalInstruction};
ghost use Rattle.ka_cpu.specs.Addresses.{target_of, used_in};
ghost use Rattle.ka_state.specs.Memory.{ac_with, core_with, is_legal};
ghost use Rattle.ka_cpu.specs.Jumps.{jffo_row, aobj_row, jrst_row, jfcl_row, jsr_row, jsp_row, jsa_row, jra_row, call_row};

use crate::address::find_used;
use crate::instruction::{ILLEGAL, Instruction, is_legal_address};
use ka_state::{
    CallKind, Flags, JobMemory, Outcome, Regs, StopReason, fetch, flags_of, next_pc_word, store,
};
use ka_word::{count_up, leading_zeros};
use word36::{Address, Word};

/// JFFO
#[inline(always)]
#[tactic(auto, unfolding(crate::specs::Jumps::jffo_row))]
pub fn do_jffo<M: JobMemory>(regs: &mut Regs, memory: &mut M, n: Instruction) -> Outcome
    ensures after { record { regs = regs.new; core = M.words memory.new; outcome = result }
        ≡ finished regs.old (M.words memory.old) n (Ok (jffo_row regs.old n)) }
    ensures place { M.place memory.new ≡ M.place memory.old }
{
    let a = regs.ac[n.ac()];
    if a.number() == 0 {
        regs.ac[(n.ac() + 1) % 16] = Word::new(0);
        regs.pc = regs.pc.plus(1);
    } else {
        regs.ac[(n.ac() + 1) % 16] = leading_zeros(a);
        regs.pc = n.e();
    }
    Outcome::Done
}

/// AOBJP, AOBJN
#[inline(always)]
#[tactic(auto, unfolding(crate::specs::Jumps::aobj_row))]
pub fn do_aobj<M: JobMemory>(regs: &mut Regs, memory: &mut M, n: Instruction) -> Outcome
    ensures after { record { regs = regs.new; core = M.words memory.new; outcome = result }
        ≡ finished regs.old (M.words memory.old) n (Ok (aobj_row regs.old n)) }
    ensures place { M.place memory.new ≡ M.place memory.old }
{
    let word = count_up(regs.ac[n.ac()]);
    regs.ac[n.ac()] = word;
    let negative = word.is_negative();
    let test = if n.op() % 2 == 0 { !negative } else { negative };
    regs.pc = if test { n.e() } else { regs.pc.plus(1) };
    Outcome::Done
}

/// JRST, whose word is `word`. With AC 0 it jumps, with 2 it also takes the flags of what its address used last, and
/// with 4 it halts; any other AC is refused.
#[inline(always)]
#[tactic(auto, unfolding(crate::specs::Jumps::jrst_row))]
pub fn do_jrst<M: JobMemory>(regs: &mut Regs, memory: &mut M, n: Instruction, word: Word) -> Outcome
    ensures after { record { regs = regs.new; core = M.words memory.new; outcome = result }
        ≡ (if is_listed Jrst n.ac
        then finished regs.old (M.words memory.old) n
        (Ok (jrst_row regs.old n (used_in (target_of regs.old.ac (M.words memory.old) word))))
        else stopped regs.old (M.words memory.old) IllegalInstruction) }
    ensures place { M.place memory.new ≡ M.place memory.old }
{
    match n.ac() {
        0 => {
            regs.pc = n.e();
            Outcome::Done
        }
        2 => {
            if let Some(used) = find_used(regs, memory, word) {
                regs.flags = flags_of(used);
            }
            regs.pc = n.e();
            Outcome::Done
        }
        4 => {
            regs.pc = n.e();
            Outcome::Stop(StopReason::Halt)
        }
        _ => Outcome::Stop(StopReason::IllegalInstruction),
    }
}

/// JFCL
#[inline(always)]
#[tactic(auto, unfolding(crate::specs::Jumps::jfcl_row))]
pub fn do_jfcl<M: JobMemory>(regs: &mut Regs, memory: &mut M, n: Instruction) -> Outcome
    ensures after { record { regs = regs.new; core = M.words memory.new; outcome = result }
        ≡ finished regs.old (M.words memory.old) n (Ok (jfcl_row regs.old n)) }
    ensures place { M.place memory.new ≡ M.place memory.old }
{
    let old = regs.flags;
    let overflow = n.ac() >> 3 & 1 == 1;
    let carry0 = n.ac() >> 2 & 1 == 1;
    let carry1 = n.ac() >> 1 & 1 == 1;
    let test = old.overflow && overflow || old.carry0 && carry0 || old.carry1 && carry1;
    regs.flags = Flags {
        overflow: old.overflow && !overflow,
        carry0: old.carry0 && !carry0,
        carry1: old.carry1 && !carry1,
        no_divide: old.no_divide,
    };
    regs.pc = if test { n.e() } else { regs.pc.plus(1) };
    Outcome::Done
}

/// Stores a word at E and jumps to E+1. Where E is not legal nothing changes, and the answer is false.
#[inline(always)]
fn enter_behind<M: JobMemory>(regs: &mut Regs, memory: &mut M, n: Instruction, word: Word) -> bool
    ensures legal { result ≡ is_legal (M.words memory.old) n.e }
    ensures kept { result ≡ false → (regs.new ≡ regs.old) × (M.words memory.new ≡ M.words memory.old) }
    ensures regs { result ≡ true → regs.new ≡ record regs.old { ac = ac_with regs.old.ac n.e word; pc = (n.e + 1) % 2 ^ 18 } }
    ensures core { result ≡ true → M.words memory.new ≡ core_with (M.words memory.old) n.e word }
    ensures place { M.place memory.new ≡ M.place memory.old }
{
    if !is_legal_address(memory, n.e().number()) {
        return false;
    }
    store(regs, memory, n.e().number(), word);
    regs.pc = n.e().plus(1);
    true
}

/// JSR
#[inline(always)]
#[tactic(auto, unfolding(crate::specs::Jumps::jsr_row))]
pub fn do_jsr<M: JobMemory>(regs: &mut Regs, memory: &mut M, n: Instruction) -> Outcome
    ensures after { record { regs = regs.new; core = M.words memory.new; outcome = result }
        ≡ finished regs.old (M.words memory.old) n (Ok (jsr_row regs.old n)) }
    ensures place { M.place memory.new ≡ M.place memory.old }
{
    let word = next_pc_word(regs);
    if !enter_behind(regs, memory, n, word) {
        return ILLEGAL;
    }
    Outcome::Done
}

/// JSP
#[inline(always)]
#[tactic(auto, unfolding(crate::specs::Jumps::jsp_row))]
pub fn do_jsp<M: JobMemory>(regs: &mut Regs, memory: &mut M, n: Instruction) -> Outcome
    ensures after { record { regs = regs.new; core = M.words memory.new; outcome = result }
        ≡ finished regs.old (M.words memory.old) n (Ok (jsp_row regs.old n)) }
    ensures place { M.place memory.new ≡ M.place memory.old }
{
    regs.ac[n.ac()] = next_pc_word(regs);
    regs.pc = n.e();
    Outcome::Done
}

/// JSA
#[inline(always)]
#[tactic(auto, unfolding(crate::specs::Jumps::jsa_row))]
pub fn do_jsa<M: JobMemory>(regs: &mut Regs, memory: &mut M, n: Instruction) -> Outcome
    ensures after { record { regs = regs.new; core = M.words memory.new; outcome = result }
        ≡ finished regs.old (M.words memory.old) n (Ok (jsa_row regs.old n)) }
    ensures place { M.place memory.new ≡ M.place memory.old }
{
    let link = Word::join(n.e().number(), regs.pc.plus(1).number());
    let a = regs.ac[n.ac()];
    if !enter_behind(regs, memory, n, a) {
        return ILLEGAL;
    }
    regs.ac[n.ac()] = link;
    Outcome::Done
}

/// JRA
#[inline(always)]
#[tactic(auto, unfolding(crate::specs::Jumps::jra_row))]
pub fn do_jra<M: JobMemory>(regs: &mut Regs, memory: &mut M, n: Instruction) -> Outcome
    ensures after { record { regs = regs.new; core = M.words memory.new; outcome = result }
        ≡ finished regs.old (M.words memory.old) n (jra_row regs.old (M.words memory.old) n) }
    ensures place { M.place memory.new ≡ M.place memory.old }
{
    let a = regs.ac[n.ac()];
    let Some(word) = fetch(regs, memory, a.left()) else {
        return ILLEGAL;
    };
    regs.ac[n.ac()] = word;
    regs.pc = n.e();
    Outcome::Done
}

/// CALLI, TTCALL
#[inline(always)]
#[tactic(auto, unfolding(crate::specs::Jumps::call_row))]
pub fn do_call<M: JobMemory>(
    kind: CallKind,
    regs: &mut Regs,
    memory: &mut M,
    n: Instruction,
) -> Outcome
    ensures after { record { regs = regs.new; core = M.words memory.new; outcome = result }
        ≡ finished regs.old (M.words memory.old) n (Ok (call_row kind regs.old n)) }
    ensures place { M.place memory.new ≡ M.place memory.old }
{
    regs.pc = regs.pc.plus(1);
    Outcome::Call(kind, n.ac() as u8, n.e().number())
}
