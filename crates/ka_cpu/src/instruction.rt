//! Operands and results of an instruction.

ghost use Rattle.std.specs.Prelude.{◌≡◌, true, false, ℕ, ◌<◌, ◌^◌, ◌%◌, IfSome};
ghost use Rattle.ka_state.specs.Memory.{is_legal};
ghost use Rattle.ka_cpu.specs.Effects.{moved_operand, computed_operand, to_memory, moved_to_ac, computed_to_ac};
ghost use Rattle.ka_cpu.specs.Effects.{memory_legal, ac_memory, core_memory, ac_put, carried_flags};

use ka_state::{
    JobMemory, Outcome, ReadMemory, Regs, StopReason, fetch, is_in_core, store, try_store,
};
use std::marker::Model;
use word36::{Address, Word};

/// An instruction whose address is known.
#[derive(Clone, Copy)]
pub struct Instruction {
    op: u32,
    ac: usize,
    e: Address,
}

impl Model for Instruction {
    ghost use Rattle.std.specs.Prelude.{◌<◌, ◌^◌};
    ghost use Rattle.ka_cpu.specs.Instructions.{Instruction};

    ghost Value = { Instruction };

    ghost view = { λ n. record { op = n.op; ac = n.ac; e = n.e } };

    ghost inverse = { λ n. record { op = n.op; ac = n.ac; e = n.e } };

    ghost invariant = { λ n. (n.op < 2 ^ 9) × (n.ac < 16) };
}

impl Instruction {
    /// The instruction of this operation, AC field and address.
    #[inline(always)]
    pub fn new(op: u32, ac: usize, e: Address) -> Instruction
        requires op { op < 2 ^ 9 }
        requires ac { ac < 16 }
        ensures { result ≡ record { op = op; ac = ac; e = e } }
    {
        Instruction { op, ac, e }
    }

    /// Its operation.
    #[inline(always)]
    pub fn op(self) -> u32
        ensures value { result ≡ self.op }
        ensures below { result < 2 ^ 9 }
    {
        self.op
    }

    /// Its AC field, 0 to 17 octal.
    #[inline(always)]
    pub fn ac(self) -> usize
        ensures value { result ≡ self.ac }
        ensures below { result < 16 }
    {
        self.ac
    }

    /// Its address.
    #[inline(always)]
    pub fn e(self) -> Address
        ensures { result ≡ self.e }
    {
        self.e
    }
}

/// The outcome of an instruction that names an illegal address.
pub const ILLEGAL: Outcome = Outcome::Stop(StopReason::IllegalAddress);

/// The operand of MOVE to MOVM and of the halfwords, in a mode (the low two bits of the operation).
#[inline(always)]
pub fn operand_to_move<M: JobMemory>(
    mode: u32,
    regs: &Regs,
    memory: &M,
    n: Instruction,
) -> Option<Word>
    requires mode { mode ≡ n.op % 4 }
    ensures { result ≡ moved_operand regs.now (M.words memory.now) n }
{
    match mode {
        1 => Some(Word::join(0, n.e().number())),
        2 => Some(regs.ac[n.ac()]),
        _ => fetch(regs, memory, n.e().number()),
    }
}

/// The operand of the other families with modes. Where it can be read the result can be stored.
#[inline(always)]
#[tactic(auto, using(crate::proofs::Legal::legal_from_read))]
pub fn operand_to_compute<M: JobMemory>(
    mode: u32,
    regs: &Regs,
    memory: &M,
    n: Instruction,
) -> Option<Word>
    requires mode { mode ≡ n.op % 4 }
    ensures value { result ≡ computed_operand regs.now (M.words memory.now) n }
    ensures legal { IfSome result (λ _. (w : ℕ) → memory_legal (M.words memory.now) (to_memory n w) ≡ true) }
{
    if mode == 1 {
        Some(Word::join(0, n.e().number()))
    } else {
        fetch(regs, memory, n.e().number())
    }
}

/// Whether an address is legal.
#[inline(always)]
pub fn is_legal_address<M: ReadMemory>(memory: &M, a: u32) -> bool
    ensures { result ≡ is_legal (M.words memory.now) a }
{
    is_in_core(memory, a) || a < 16
}

/// Whether the result of an instruction with modes can be stored.
#[inline(always)]
pub fn can_store<M: JobMemory>(mode: u32, memory: &M, n: Instruction) -> bool
    requires { mode ≡ n.op % 4 }
    ensures { (w : ℕ) → result ≡ memory_legal (M.words memory.now) (to_memory n w) }
{
    mode < 2 || is_legal_address(memory, n.e().number())
}

/// Stores a result where the mode says, as MOVE to MOVM and the halfwords do.
#[inline(always)]
pub fn put_moved<M: JobMemory>(
    mode: u32,
    regs: &mut Regs,
    memory: &mut M,
    n: Instruction,
    word: Word,
)
    requires mode { mode ≡ n.op % 4 }
    ensures regs { regs.new ≡ record regs.old { ac = ac_put (ac_memory regs.old.ac (to_memory n word)) n.ac (moved_to_ac n word) } }
    ensures core { M.words memory.new ≡ core_memory (M.words memory.old) (to_memory n word) }
    ensures place { M.place memory.new ≡ M.place memory.old }
{
    match mode {
        0 | 1 => regs.ac[n.ac()] = word,
        2 => {
            store(regs, memory, n.e().number(), word);
        }
        _ => {
            store(regs, memory, n.e().number(), word);
            if n.ac() != 0 {
                regs.ac[n.ac()] = word;
            }
        }
    }
}

/// Stores a result where the mode says, as MOVE to MOVM and the halfwords do. Where the address is not legal
/// nothing changes, and the answer is false.
#[inline(always)]
pub fn try_put_moved<M: JobMemory>(
    mode: u32,
    regs: &mut Regs,
    memory: &mut M,
    n: Instruction,
    word: Word,
) -> bool
    requires mode { mode ≡ n.op % 4 }
    ensures answer { result ≡ memory_legal (M.words memory.old) (to_memory n word) }
    ensures regs { result ≡ true
        → regs.new ≡ record regs.old { ac = ac_put (ac_memory regs.old.ac (to_memory n word)) n.ac (moved_to_ac n word) } }
    ensures core { result ≡ true → M.words memory.new ≡ core_memory (M.words memory.old) (to_memory n word) }
    ensures kept { result ≡ false → (regs.new ≡ regs.old) × (M.words memory.new ≡ M.words memory.old) }
    ensures place { M.place memory.new ≡ M.place memory.old }
{
    match mode {
        0 | 1 => regs.ac[n.ac()] = word,
        2 => return try_store(regs, memory, n.e().number(), word),
        _ => {
            if !try_store(regs, memory, n.e().number(), word) {
                return false;
            }
            if n.ac() != 0 {
                regs.ac[n.ac()] = word;
            }
        }
    }
    true
}

/// Stores a result where the mode says, as the other families with modes do.
#[inline(always)]
pub fn put_computed<M: JobMemory>(
    mode: u32,
    regs: &mut Regs,
    memory: &mut M,
    n: Instruction,
    word: Word,
)
    requires mode { mode ≡ n.op % 4 }
    ensures regs { regs.new ≡ record regs.old { ac = ac_put (ac_memory regs.old.ac (to_memory n word)) n.ac (computed_to_ac n word) } }
    ensures core { M.words memory.new ≡ core_memory (M.words memory.old) (to_memory n word) }
    ensures place { M.place memory.new ≡ M.place memory.old }
{
    match mode {
        0 | 1 => regs.ac[n.ac()] = word,
        2 => {
            store(regs, memory, n.e().number(), word);
        }
        _ => {
            store(regs, memory, n.e().number(), word);
            regs.ac[n.ac()] = word;
        }
    }
}

/// Sets the flags of the carries out of bits 0 and 1.
#[inline(always)]
pub fn set_carries(regs: &mut Regs, zero: bool, one: bool)
    ensures { regs.new ≡ record regs.old { flags = carried_flags regs.old.flags zero one } }
{
    let flags = &mut regs.flags;
    if zero {
        flags.carry0 = true;
        if one {
            flags.carry1 = true;
        } else {
            flags.overflow = true;
        }
    } else if one {
        flags.carry1 = true;
        flags.overflow = true;
    }
}
