//! Reads of a memory that is lent as `&mut` and left as it was: the `_kept` functions. A caller that lends a
//! window of a larger memory in this way still knows what the window holds; had it lent it as `&`, it would not.

ghost use Rattle.std.specs.Prelude.{◌≡◌};
ghost use Rattle.ka_state.specs.Memory.{word_at, word_below, is_legal, are_legal};

use crate::{JobMemory, ReadMemory, Regs, fetch};
use word36::{ADDRESSES, Word};

/// The word at an address, if it is legal: registers lie at the addresses below 20 octal.
pub fn fetch_kept<M: JobMemory>(regs: &Regs, memory: &mut M, a: u32) -> Option<Word>
    ensures value { result ≡ word_at regs.now.ac (M.words memory.old) a }
    ensures same { memory.new ≡ memory.old }
{
    fetch(regs, memory, a)
}

/// The word at an address that was counted on from another. None behind 777777 octal.
pub fn word_kept<M: JobMemory>(regs: &Regs, memory: &mut M, a: u32) -> Option<Word>
    ensures value { result ≡ word_below regs.now.ac (M.words memory.old) a }
    ensures same { memory.new ≡ memory.old }
{
    if a < ADDRESSES {
        fetch(regs, memory, a)
    } else {
        None
    }
}

/// Whether an address is legal: below 20 octal, or below the size of core.
pub fn is_legal_kept<M: JobMemory>(memory: &mut M, a: u32) -> bool
    ensures value { result ≡ is_legal (M.words memory.old) a }
    ensures same { memory.new ≡ memory.old }
{
    a < 16 || (a as usize) < memory.size()
}

/// Whether `count` words from an address on are legal; behind 777777 octal there is no address. The legal
/// addresses are those below a limit, so the last word decides.
#[tactic(auto, using(crate::proofs::LegalLemmas::legal_addresses))]
pub fn are_legal<M: ReadMemory>(memory: &M, a: u32, count: u32) -> bool
    ensures { result ≡ are_legal (M.words memory.now) a count }
{
    if count == 0 {
        return true;
    }
    let end = a as u64 + count as u64;
    end <= ADDRESSES as u64 && (end <= 16 || end <= memory.size() as u64)
}

/// Whether `count` words from an address on are legal, as `are_legal` says.
pub fn are_legal_kept<M: JobMemory>(memory: &mut M, a: u32, count: u32) -> bool
    ensures value { result ≡ are_legal (M.words memory.old) a count }
    ensures same { memory.new ≡ memory.old }
{
    are_legal(memory, a, count)
}
