//! BLT.

ghost use Rattle.std.specs.Prelude.{◌≡◌, ◌+◌, ◌<◌, ◌≤◌, ◌^◌, IsTrue, length};
ghost use Rattle.ka_state.specs.Memory.{word_at};
ghost use Rattle.ka_cpu.specs.Blocks.{all_legal, blt_after, moved_words, stored};

use crate::instruction::{ILLEGAL, Instruction, is_legal_address};
use ka_state::{JobMemory, Outcome, Regs, fetch, store};
use word36::ADDRESSES;

/// Whether every address of a transfer is legal. The last addresses decide; where those that are read wrap,
/// the last before the wrap is 777777 octal.
#[tactic(auto, using(crate::proofs::BlockLegal::legal_by_last))]
fn are_legal<M: JobMemory>(memory: &M, from: u32, to: u32, count: u32) -> bool
    requires from { from < 2 ^ 18 }
    requires to { to < 2 ^ 18 }
    requires some { 1 ≤ count }
    requires count { count ≤ 2 ^ 18 }
    ensures { result ≡ all_legal count (M.words memory.now) from to }
{
    let last = from + (count - 1);
    let top = if last < ADDRESSES {
        last
    } else {
        ADDRESSES - 1
    };
    is_legal_address(memory, top) && is_legal_address(memory, to + (count - 1))
}

/// Moves one word. Where the address that is read is not legal nothing changes.
fn move_word<M: JobMemory>(regs: &mut Regs, memory: &mut M, from: u32, to: u32)
    ensures moved { record { ac = regs.new.ac; core = M.words memory.new }
        ≡ stored (record { ac = regs.old.ac; core = M.words memory.old }) to (word_at regs.old.ac (M.words memory.old) from) }
    ensures kept { regs.new ≡ record regs.old { ac = regs.new.ac } }
    ensures place { M.place memory.new ≡ M.place memory.old }
{
    if let Some(word) = fetch(regs, memory, from) {
        store(regs, memory, to, word);
    }
}

/// Moves words one after another.
#[tactic(auto, using(crate::proofs::BlockSteps::move_steps))]
fn move_words<M: JobMemory>(regs: &mut Regs, memory: &mut M, from: u32, to: u32, count: u32)
    requires from { from < 2 ^ 18 }
    requires to { to < 2 ^ 18 }
    requires count { count ≤ 2 ^ 18 }
    ensures moved { record { ac = regs.new.ac; core = M.words memory.new }
        ≡ moved_words count (record { ac = regs.old.ac; core = M.words memory.old }) from to }
    ensures kept { regs.new ≡ record regs.old { ac = regs.new.ac } }
    ensures place { M.place memory.new ≡ M.place memory.old }
{
    for i in 0..count {
        move_word(regs, memory, (from + i) % ADDRESSES, to + i);
    }
}

/// Whether `count` words from an address on lie in core, behind the registers.
fn are_in_core<M: JobMemory>(memory: &M, address: u32, count: u32) -> bool
    requires address { address < 2 ^ 18 }
    requires count { count ≤ 2 ^ 18 }
    ensures { IsTrue result → (16 ≤ address) × (address + count ≤ 2 ^ 18) × (address + count ≤ length (M.words memory.now)) }
{
    let end = address + count;
    address >= 16 && end <= ADDRESSES && end as usize <= memory.size()
}

/// Moves words one after another; by `copy_words` where no register is among them and no address wraps.
#[tactic(auto, using(crate::proofs::BlockSteps::moved_core))]
fn move_block<M: JobMemory>(regs: &mut Regs, memory: &mut M, from: u32, to: u32, count: u32)
    requires from { from < 2 ^ 18 }
    requires to { to < 2 ^ 18 }
    requires count { count ≤ 2 ^ 18 }
    ensures moved { record { ac = regs.new.ac; core = M.words memory.new }
        ≡ moved_words count (record { ac = regs.old.ac; core = M.words memory.old }) from to }
    ensures kept { regs.new ≡ record regs.old { ac = regs.new.ac } }
    ensures place { M.place memory.new ≡ M.place memory.old }
{
    if are_in_core(memory, from, count) && are_in_core(memory, to, count) {
        memory.copy_words(from, to, count);
    } else {
        move_words(regs, memory, from, to, count);
    }
}

/// BLT
#[inline(always)]
#[tactic(auto, unfolding(crate::specs::Blocks::blt_after))]
pub fn do_blt<M: JobMemory>(regs: &mut Regs, memory: &mut M, n: Instruction) -> Outcome
    ensures after { record { regs = regs.new; core = M.words memory.new; outcome = result } ≡ blt_after regs.old (M.words memory.old) n }
    ensures place { M.place memory.new ≡ M.place memory.old }
{
    let a = regs.ac[n.ac()];
    let from = a.left();
    let to = a.right();
    let count = n.e().number().saturating_sub(to) + 1;
    if !are_legal(memory, from, to, count) {
        return ILLEGAL;
    }
    move_block(regs, memory, from, to, count);
    regs.pc = regs.pc.plus(1);
    Outcome::Done
}
