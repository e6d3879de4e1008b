//! The registers of a job.

ghost use Rattle.std.specs.Prelude.{◌≡◌};
ghost use Rattle.ka_state.specs.Registers.{next_pc, flags_of, pc_word};

use word36::{Address, Word};

/// The flags that a program can change (DECsystem-10 Processor Reference Manual); User is always set.
#[derive(Clone, Copy, Debug, PartialEq, Eq)]
pub struct Flags {
    /// A result did not fit.
    pub overflow: bool,
    /// A carry out of bit 0.
    pub carry0: bool,
    /// A carry out of bit 1.
    pub carry1: bool,
    /// A division was not done.
    pub no_divide: bool,
}

/// The registers of a job: sixteen accumulators, the program counter and the flags.
#[derive(Clone, Copy, Debug)]
pub struct Regs {
    /// The accumulators, which are also the words at the addresses 0 to 17 octal.
    pub ac: [Word; 16],
    /// The address of the next instruction.
    pub pc: Address,
    /// The flags.
    pub flags: Flags,
}

/// The PC word `flags,,PC`: the flags in the left half, with User always set, and the PC in the right
/// (DECsystem-10 Processor Reference Manual).
#[inline(always)]
#[tactic(auto, unfolding(crate::specs::Registers::pc_word))]
pub fn pc_word(flags: Flags, pc: Address) -> Word
    ensures { result ≡ pc_word flags pc }
{
    let overflow = (flags.overflow as u64) << 35;
    let carry0 = (flags.carry0 as u64) << 34;
    let carry1 = (flags.carry1 as u64) << 33;
    let no_divide = (flags.no_divide as u64) << 23;
    Word::new(overflow + carry0 + carry1 + (1 << 30) + no_divide + pc.number() as u64)
}

/// The PC word of a call: the flags, and the address of the next instruction. The flags are read one by one where
/// they are kept, since the compiler takes a copy of the four apart by shifts and masks.
#[inline(always)]
#[tactic(auto, unfolding(crate::specs::Registers::pc_word))]
pub fn next_pc_word(regs: &Regs) -> Word
    ensures { result ≡ pc_word regs.now.flags (next_pc regs.now) }
{
    let flags = &regs.flags;
    let carries = flags.overflow as u64 * 4 + flags.carry0 as u64 * 2 + flags.carry1 as u64;
    let left = carries * 0o100_000_000_000 + (1 << 30) + flags.no_divide as u64 * 0o40_000_000;
    Word::new(left + regs.pc.plus(1).number() as u64)
}

/// The flags in the left half of a PC word, whose other bits have no effect.
#[tactic(auto, unfolding(crate::specs::Registers::flags_of))]
pub fn flags_of(word: Word) -> Flags
    ensures { result ≡ flags_of word }
{
    let number = word.number();
    Flags {
        overflow: number >> 35 & 1 == 1,
        carry0: number >> 34 & 1 == 1,
        carry1: number >> 33 & 1 == 1,
        no_divide: number >> 23 & 1 == 1,
    }
}
