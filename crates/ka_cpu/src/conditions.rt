//! CAI, CAM, JUMP, SKIP and those that add or subtract 1 first.

ghost use Rattle.std.specs.Prelude.{◌≡◌, ℕ, ◌<◌, ◌^◌, ◌%◌, Ok, Some, IfSome, true, nat_lt, if◌then◌else◌};
ghost use Rattle.ka_cpu.specs.Effects.{finished, ac_memory, core_memory, memory_legal};
ghost use Rattle.ka_state.specs.Memory.{word_at};
ghost use Rattle.ka_cpu.specs.Conditions.{compare_row, jump_row, skip_row, changed_word, changed_flags, if_changed};

use crate::instruction::{ILLEGAL, Instruction, set_carries};
use ka_isa::Change;
use ka_state::{JobMemory, Outcome, Regs, fetch, store};
use ka_word::{compare, compare_zero};
use word36::{Address, Word};

/// 2 ^ 35, the sign bit.
const SIGN: u64 = 0o400_000_000_000;

/// The operand of CAI and CAM.
#[inline(always)]
fn operand_to_compare<M: JobMemory>(
    is_immediate: bool,
    regs: &Regs,
    memory: &M,
    n: Instruction,
) -> Option<Word>
    requires op { nat_lt n.op 0o310 ≡ is_immediate }
    ensures { result ≡ (if nat_lt n.op 0o310 then Some n.e else word_at regs.now.ac (M.words memory.now) n.e) }
{
    if is_immediate {
        Some(Word::join(0, n.e().number()))
    } else {
        fetch(regs, memory, n.e().number())
    }
}

/// CAI, CAM
#[inline(always)]
#[tactic(auto, unfolding(crate::specs::Conditions::compare_row))]
pub fn do_compare<M: JobMemory>(
    digit: u32,
    is_immediate: bool,
    regs: &mut Regs,
    memory: &mut M,
    n: Instruction,
) -> Outcome
    requires digit { digit ≡ n.op % 8 }
    requires op { nat_lt n.op 0o310 ≡ is_immediate }
    ensures after { record { regs = regs.new; core = M.words memory.new; outcome = result }
        ≡ finished regs.old (M.words memory.old) n (compare_row regs.old (M.words memory.old) n) }
    ensures place { M.place memory.new ≡ M.place memory.old }
{
    let Some(word) = operand_to_compare(is_immediate, regs, memory, n) else {
        return ILLEGAL;
    };
    let test = compare(digit, regs.ac[n.ac()], word);
    regs.pc = regs.pc.plus(if test { 2 } else { 1 });
    Outcome::Done
}

/// The word after its change, which is what is compared.
#[inline(always)]
fn change_word(change: Change, word: Word) -> Word
    ensures { result ≡ changed_word change word }
{
    match change {
        Change::Keep => word,
        Change::Up => word.sum(Word::new(1), false),
        Change::Down => {
            if word.number().wrapping_sub(1) < SIGN - 1 {
                Word::new(word.number() - 1)
            } else {
                word.sum(Word::new(0o777_777_777_777), false)
            }
        }
    }
}

/// Sets the flags of the carries of a change.
#[inline(always)]
fn set_change_flags(change: Change, regs: &mut Regs, word: Word)
    ensures { regs.new ≡ record regs.old { flags = changed_flags change regs.old.flags word } }
{
    match change {
        Change::Keep => {}
        Change::Up if word.number() < SIGN - 1 => {}
        Change::Up => {
            let zero = word.number() == 2 * SIGN - 1;
            let one = word.number() % SIGN == SIGN - 1;
            set_carries(regs, zero, one);
        }
        Change::Down if word.number().wrapping_sub(1) < SIGN - 1 => {
            regs.flags.carry0 = true;
            regs.flags.carry1 = true;
        }
        Change::Down => {
            let zero = word.number() != 0;
            let one = word.number() % SIGN != 0;
            set_carries(regs, zero, one);
        }
    }
}

/// JUMP, AOJ, SOJ
#[inline(always)]
#[tactic(auto, unfolding(crate::specs::Conditions::jump_row))]
pub fn do_jump<M: JobMemory>(
    digit: u32,
    change: Change,
    regs: &mut Regs,
    memory: &mut M,
    n: Instruction,
) -> Outcome
    requires digit { digit ≡ n.op % 8 }
    ensures after { record { regs = regs.new; core = M.words memory.new; outcome = result }
        ≡ finished regs.old (M.words memory.old) n (Ok (jump_row change regs.old n)) }
    ensures place { M.place memory.new ≡ M.place memory.old }
{
    let a = regs.ac[n.ac()];
    let word = change_word(change, a);
    match change {
        Change::Keep => {}
        _ => regs.ac[n.ac()] = word,
    }
    set_change_flags(change, regs, a);
    let test = compare_zero(digit, word);
    regs.pc = if test { n.e() } else { regs.pc.plus(1) };
    Outcome::Done
}

/// Stores a changed word back at its address.
#[inline(always)]
fn store_changed<M: JobMemory>(change: Change, regs: &mut Regs, memory: &mut M, a: u32, word: Word)
    ensures regs { regs.new ≡ record regs.old { ac = ac_memory regs.old.ac (if_changed change (a, word)) } }
    ensures core { M.words memory.new ≡ core_memory (M.words memory.old) (if_changed change (a, word)) }
    ensures place { M.place memory.new ≡ M.place memory.old }
{
    match change {
        Change::Keep => {}
        _ => store(regs, memory, a, word),
    }
}

/// The word that is changed. Where it can be read it can be stored back.
#[inline(always)]
#[tactic(auto, using(crate::proofs::Legal::legal_changes))]
fn read_to_change<M: JobMemory>(change: Change, regs: &Regs, memory: &M, a: u32) -> Option<Word>
    ensures value { result ≡ word_at regs.now.ac (M.words memory.now) a }
    ensures legal { IfSome result (λ _. (w : ℕ) → memory_legal (M.words memory.now) (if_changed change (a, w)) ≡ true) }
{
    fetch(regs, memory, a)
}

/// SKIP, AOS, SOS
#[inline(always)]
#[tactic(auto, unfolding(crate::specs::Conditions::skip_row))]
pub fn do_skip<M: JobMemory>(
    digit: u32,
    change: Change,
    regs: &mut Regs,
    memory: &mut M,
    n: Instruction,
) -> Outcome
    requires digit { digit ≡ n.op % 8 }
    ensures after { record { regs = regs.new; core = M.words memory.new; outcome = result }
        ≡ finished regs.old (M.words memory.old) n (skip_row change regs.old (M.words memory.old) n) }
    ensures place { M.place memory.new ≡ M.place memory.old }
{
    let Some(old) = read_to_change(change, regs, memory, n.e().number()) else {
        return ILLEGAL;
    };
    let pc = regs.pc;
    let word = change_word(change, old);
    store_changed(change, regs, memory, n.e().number(), word);
    if n.ac() != 0 {
        regs.ac[n.ac()] = word;
    }
    set_change_flags(change, regs, old);
    let test = compare_zero(digit, word);
    regs.pc = pc.plus(if test { 2 } else { 1 });
    Outcome::Done
}
