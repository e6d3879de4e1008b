//! PUSHJ, PUSH, POP and POPJ.

ghost use Rattle.std.specs.Prelude.{◌≡◌, ◌<◌, ◌^◌, Ok, if◌then◌else◌};
ghost use Rattle.ka_cpu.specs.Effects.{Goes_on, Overruns, finished};
ghost use Rattle.ka_cpu.specs.Effects.{outcome_of};
ghost use Rattle.ka_cpu.specs.Stacks.{pushj_row, push_row, pop_row, popj_row};

use crate::instruction::{ILLEGAL, Instruction, is_legal_address};
use ka_state::{JobMemory, Outcome, Regs, StopReason, fetch, next_pc_word, store, try_store};
use ka_word::{pop_up, push_down, runs_under};
use word36::Address;

/// How a pushdown instruction ends, by whether its pointer ran out.
#[inline(always)]
fn ending(runs_out: bool) -> Outcome
    ensures outcome { result ≡ outcome_of (if runs_out then Overruns else Goes_on) }
{
    if runs_out {
        Outcome::Stop(StopReason::Pushdown)
    } else {
        Outcome::Done
    }
}

/// PUSHJ
#[inline(always)]
#[tactic(auto, unfolding(crate::specs::Stacks::pushj_row))]
pub fn do_pushj<M: JobMemory>(regs: &mut Regs, memory: &mut M, n: Instruction) -> Outcome
    ensures after { record { regs = regs.new; core = M.words memory.new; outcome = result }
        ≡ finished regs.old (M.words memory.old) n (Ok (pushj_row regs.old n)) }
    ensures place { M.place memory.new ≡ M.place memory.old }
{
    let old = regs.ac[n.ac()];
    let (pointer, runs_out) = push_down(old);
    let word = next_pc_word(regs);
    if !try_store(regs, memory, pointer.right(), word) {
        return ILLEGAL;
    }
    regs.ac[n.ac()] = pointer;
    regs.pc = n.e();
    ending(runs_out)
}

/// PUSH
#[inline(always)]
#[tactic(auto, unfolding(crate::specs::Stacks::push_row))]
pub fn do_push<M: JobMemory>(regs: &mut Regs, memory: &mut M, n: Instruction) -> Outcome
    ensures after { record { regs = regs.new; core = M.words memory.new; outcome = result }
        ≡ finished regs.old (M.words memory.old) n (push_row regs.old (M.words memory.old) n) }
    ensures place { M.place memory.new ≡ M.place memory.old }
{
    let Some(word) = fetch(regs, memory, n.e().number()) else {
        return ILLEGAL;
    };
    let old = regs.ac[n.ac()];
    let (pointer, runs_out) = push_down(old);
    if !is_legal_address(memory, pointer.right()) {
        return ILLEGAL;
    }
    store(regs, memory, pointer.right(), word);
    regs.ac[n.ac()] = pointer;
    regs.pc = regs.pc.plus(1);
    ending(runs_out)
}

/// POP
#[inline(always)]
#[tactic(auto, unfolding(crate::specs::Stacks::pop_row))]
pub fn do_pop<M: JobMemory>(regs: &mut Regs, memory: &mut M, n: Instruction) -> Outcome
    ensures after { record { regs = regs.new; core = M.words memory.new; outcome = result }
        ≡ finished regs.old (M.words memory.old) n (pop_row regs.old (M.words memory.old) n) }
    ensures place { M.place memory.new ≡ M.place memory.old }
{
    let old = regs.ac[n.ac()];
    let Some(word) = fetch(regs, memory, old.right()) else {
        return ILLEGAL;
    };
    if !is_legal_address(memory, n.e().number()) {
        return ILLEGAL;
    }
    let pointer = pop_up(old);
    store(regs, memory, n.e().number(), word);
    regs.ac[n.ac()] = pointer;
    regs.pc = regs.pc.plus(1);
    ending(runs_under(old))
}

/// POPJ
#[inline(always)]
#[tactic(auto, unfolding(crate::specs::Stacks::popj_row))]
pub fn do_popj<M: JobMemory>(regs: &mut Regs, memory: &mut M, n: Instruction) -> Outcome
    ensures after { record { regs = regs.new; core = M.words memory.new; outcome = result }
        ≡ finished regs.old (M.words memory.old) n (popj_row regs.old (M.words memory.old) n) }
    ensures place { M.place memory.new ≡ M.place memory.old }
{
    let old = regs.ac[n.ac()];
    let Some(word) = fetch(regs, memory, old.right()) else {
        return ILLEGAL;
    };
    let pointer = pop_up(old);
    regs.ac[n.ac()] = pointer;
    regs.pc = Address::new(word.right());
    ending(runs_under(old))
}
